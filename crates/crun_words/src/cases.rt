// Closed cases of the definitions of the command line and of a calls file: rows that were read by hand.
ghost use Rattle.std.specs.Prelude.{◌≡◌, true, false, [], ◌∷◌, ◌++◌, codes, None, Some};
ghost use Rattle.crun_words.specs.CallLine.{SaysCall};
ghost use Rattle.crun_words.specs.CallsFile.{call_lines_of};
ghost use Rattle.crun_words.specs.CommandLine.{line_of, merges, runs, trims};

/// Each form, with the words in more than one order and spelling.
pub fn lines_that_are_read()
    ensures in_order { line_of (codes "--steps" ∷ codes "100" ∷ codes "--calls" ∷ codes "c" ∷ codes "u.c" ∷ [])
        ≡ Some (runs (record { steps = 100; calls = codes "c"; shows_state = false; journal = None; replayed = None; units = codes "u.c" ∷ [] })) }
    ensures other_order { line_of (codes "a.c" ∷ codes "--state" ∷ codes "--calls=-c" ∷ codes "--steps=007" ∷ codes "--" ∷ codes "-b.c" ∷ [])
        ≡ Some (runs (record { steps = 7; calls = codes "-c"; shows_state = true; journal = None; replayed = None; units = codes "a.c" ∷ codes "-b.c" ∷ [] })) }
    ensures most_steps { line_of (codes "--steps" ∷ codes "18446744073709551615" ∷ codes "--calls" ∷ codes "c" ∷ codes "u.c" ∷ [])
        ≡ Some (runs (record { steps = 18446744073709551615; calls = codes "c"; shows_state = false; journal = None; replayed = None; units = codes "u.c" ∷ [] })) }
    ensures with_journals { line_of (codes "--record" ∷ codes "new" ∷ codes "--steps=1" ∷ codes "u.c" ∷ codes "--replay=old" ∷ codes "--calls=c" ∷ [])
        ≡ Some (runs (record { steps = 1; calls = codes "c"; shows_state = false; journal = Some (codes "new"); replayed = Some (codes "old"); units = codes "u.c" ∷ [] })) }
    ensures two_merged { line_of (codes "--merge" ∷ codes "o.c" ∷ codes "b.c" ∷ codes "a.c" ∷ [])
        ≡ Some (merges (record { output = codes "o.c"; units = codes "b.c" ∷ codes "a.c" ∷ [] })) }
    ensures one_merged { line_of (codes "u.c" ∷ codes "--merge=a.c" ∷ [])
        ≡ Some (merges (record { output = codes "a.c"; units = codes "u.c" ∷ [] })) }
    ensures trimmed { line_of (codes "u.c" ∷ codes "--trim" ∷ codes "d/o.c" ∷ [])
        ≡ Some (trims (record { output = codes "d/o.c"; unit = codes "u.c" })) }
{}

/// Words that have no reading: an option or the units left out, an option or the flag twice, an option without its value or
/// unknown, a flag with a value, and numbers of no form.
pub fn lines_that_are_refused()
    ensures no_word { line_of [] ≡ None }
    ensures no_steps { line_of (codes "--calls" ∷ codes "c" ∷ codes "u.c" ∷ []) ≡ None }
    ensures no_calls { line_of (codes "--steps" ∷ codes "1" ∷ codes "u.c" ∷ []) ≡ None }
    ensures no_unit { line_of (codes "--steps" ∷ codes "1" ∷ codes "--calls" ∷ codes "c" ∷ []) ≡ None }
    ensures calls_twice { line_of (codes "--steps" ∷ codes "1" ∷ codes "--calls" ∷ codes "c" ∷ codes "--calls" ∷ codes "d" ∷ codes "u.c" ∷ []) ≡ None }
    ensures state_twice { line_of (codes "--steps=1" ∷ codes "--calls=c" ∷ codes "--state" ∷ codes "--state" ∷ codes "u.c" ∷ []) ≡ None }
    ensures journal_twice { line_of (codes "--steps=1" ∷ codes "--calls=c" ∷ codes "--record=j" ∷ codes "--record=j" ∷ codes "u.c" ∷ []) ≡ None }
    ensures replayed_twice { line_of (codes "--steps=1" ∷ codes "--calls=c" ∷ codes "--replay=j" ∷ codes "--replay=j" ∷ codes "u.c" ∷ []) ≡ None }
    ensures state_with_a_value { line_of (codes "--steps=1" ∷ codes "--calls=c" ∷ codes "--state=true" ∷ codes "u.c" ∷ []) ≡ None }
    ensures no_value { line_of (codes "u.c" ∷ codes "--steps" ∷ codes "1" ∷ codes "--calls" ∷ []) ≡ None }
    ensures no_journal { line_of (codes "u.c" ∷ codes "--steps" ∷ codes "1" ∷ codes "--calls" ∷ codes "c" ∷ codes "--record" ∷ []) ≡ None }
    ensures unknown { line_of (codes "--steps=1" ∷ codes "--calls=c" ∷ codes "-s" ∷ codes "u.c" ∷ []) ≡ None }
    ensures help { line_of (codes "--help" ∷ []) ≡ None }
    ensures no_digit { line_of (codes "--steps=" ∷ codes "--calls=c" ∷ codes "u.c" ∷ []) ≡ None }
    ensures no_number { line_of (codes "--steps=+1" ∷ codes "--calls=c" ∷ codes "u.c" ∷ []) ≡ None }
    ensures too_large { line_of (codes "--steps=18446744073709551616" ∷ codes "--calls=c" ∷ codes "u.c" ∷ []) ≡ None }
    ensures too_many_digits { line_of (codes "--steps=000000000000000000001" ∷ codes "--calls=c" ∷ codes "u.c" ∷ []) ≡ None }
{}

/// Words with `--merge` or `--trim` that have no reading: no unit, more than one to trim, a file to write that is no C
/// file, both options, one of them twice, and an option or the flag of a run beside them.
pub fn merges_and_trims_that_are_refused()
    ensures merge_of_none { line_of (codes "--merge" ∷ codes "o.c" ∷ []) ≡ None }
    ensures trim_of_none { line_of (codes "--trim" ∷ codes "o.c" ∷ []) ≡ None }
    ensures trim_of_two { line_of (codes "--trim" ∷ codes "o.c" ∷ codes "u.c" ∷ codes "v.c" ∷ []) ≡ None }
    ensures merged_to_no_c_file { line_of (codes "--merge" ∷ codes "o.h" ∷ codes "u.c" ∷ []) ≡ None }
    ensures trimmed_to_no_c_file { line_of (codes "--trim" ∷ codes ".c" ∷ codes "u.c" ∷ []) ≡ None }
    ensures merge_and_trim { line_of (codes "--merge" ∷ codes "o.c" ∷ codes "--trim" ∷ codes "p.c" ∷ codes "u.c" ∷ []) ≡ None }
    ensures merge_twice { line_of (codes "--merge" ∷ codes "o.c" ∷ codes "--merge" ∷ codes "p.c" ∷ codes "u.c" ∷ []) ≡ None }
    ensures trim_twice { line_of (codes "--trim" ∷ codes "o.c" ∷ codes "--trim" ∷ codes "p.c" ∷ codes "u.c" ∷ []) ≡ None }
    ensures merge_with_steps { line_of (codes "--merge" ∷ codes "o.c" ∷ codes "--steps" ∷ codes "1" ∷ codes "u.c" ∷ []) ≡ None }
    ensures merge_with_calls { line_of (codes "--merge" ∷ codes "o.c" ∷ codes "--calls" ∷ codes "c" ∷ codes "u.c" ∷ []) ≡ None }
    ensures merge_with_state { line_of (codes "--merge" ∷ codes "o.c" ∷ codes "--state" ∷ codes "u.c" ∷ []) ≡ None }
    ensures merge_with_a_journal { line_of (codes "--merge" ∷ codes "o.c" ∷ codes "--record" ∷ codes "j" ∷ codes "u.c" ∷ []) ≡ None }
    ensures merge_with_a_replay { line_of (codes "--merge" ∷ codes "o.c" ∷ codes "--replay" ∷ codes "j" ∷ codes "u.c" ∷ []) ≡ None }
    ensures trim_with_steps { line_of (codes "--trim" ∷ codes "o.c" ∷ codes "--steps" ∷ codes "1" ∷ codes "u.c" ∷ []) ≡ None }
    ensures trim_with_calls { line_of (codes "--trim" ∷ codes "o.c" ∷ codes "--calls" ∷ codes "c" ∷ codes "u.c" ∷ []) ≡ None }
    ensures trim_with_state { line_of (codes "--trim" ∷ codes "o.c" ∷ codes "--state" ∷ codes "u.c" ∷ []) ≡ None }
    ensures trim_with_a_journal { line_of (codes "--trim" ∷ codes "o.c" ∷ codes "--record" ∷ codes "j" ∷ codes "u.c" ∷ []) ≡ None }
    ensures trim_with_a_replay { line_of (codes "--trim" ∷ codes "o.c" ∷ codes "--replay" ∷ codes "j" ∷ codes "u.c" ∷ []) ≡ None }
{}

/// Lines of calls files: the numbers of those that are not empty, and the calls that two of them say.
pub fn call_lines_that_are_read()
    ensures ended { call_lines_of (codes "a b" ++ 10 ∷ 10 ∷ codes "c d 1" ++ 10 ∷ [])
        ≡ record { number = 1; text = codes "a b" } ∷ record { number = 3; text = codes "c d 1" } ∷ [] }
    ensures not_ended { call_lines_of (10 ∷ codes "a b") ≡ record { number = 2; text = codes "a b" } ∷ [] }
    ensures none { call_lines_of [] ≡ [] }
    ensures two_numbers { SaysCall (codes "add add 4294967295 01")
        (record { symbol = codes "w2cZ_addZ_fZ_add"; numbers = 4294967295 ∷ 1 ∷ [] }) }
    ensures empty_name { SaysCall (codes "aZ20b Z") (record { symbol = codes "w2cZ_aZ20bZ_fZ_"; numbers = [] }) }
{}
