// Closed cases of the definition of the line: rows that were read by hand.
ghost use Rattle.std.specs.Prelude.{◌≡◌, [], ◌∷◌, codes, None, Some};
ghost use Rattle.wasm2c_words.specs.CommandLine.{generate, line_of, runtime, set, translate};

/// Each form, with the words in more than one order and spelling.
pub fn lines_that_are_read()
    ensures file_first { line_of (codes "in/add.wasm" ∷ codes "-o" ∷ codes "a.c" ∷ [])
        ≡ Some (translate (record { input = codes "in/add.wasm"; output = codes "a.c"; module_name = codes "add" })) }
    ensures output_first { line_of (codes "-oa.c" ∷ codes "-n" ∷ codes "m" ∷ codes "--" ∷ codes "-x.wasm" ∷ [])
        ≡ Some (translate (record { input = codes "-x.wasm"; output = codes "a.c"; module_name = codes "m" })) }
    ensures joined { line_of (codes "x.wasm" ∷ codes "-o=-a.c" ∷ codes "-nm" ∷ [])
        ≡ Some (translate (record { input = codes "x.wasm"; output = codes "-a.c"; module_name = codes "m" })) }
    ensures two_files { line_of (codes "x.wasm" ∷ codes "--dir=out" ∷ codes "d/y.wasm" ∷ [])
        ≡ Some (set (record { dir = codes "out"; inputs = codes "x.wasm" ∷ codes "d/y.wasm" ∷ [] })) }
    ensures generated { line_of (codes "--gen" ∷ codes "020" ∷ codes "-o" ∷ codes "g.c" ∷ [])
        ≡ Some (generate (record { count = 20; output = codes "g.c"; module_name = codes "gen" })) }
    ensures runtime_texts { line_of (codes "--runtime" ∷ codes "." ∷ []) ≡ Some (runtime (codes ".")) }
{}

/// Words that have no reading: no option, an option twice, without its value or unknown, values of no form, and values
/// that fail a test.
pub fn lines_that_are_refused()
    ensures no_word { line_of [] ≡ None }
    ensures no_output { line_of (codes "a.wasm" ∷ []) ≡ None }
    ensures output_twice { line_of (codes "a.wasm" ∷ codes "-o" ∷ codes "a.c" ∷ codes "-o" ∷ codes "b.c" ∷ []) ≡ None }
    ensures no_value { line_of (codes "a.wasm" ∷ codes "-o" ∷ []) ≡ None }
    ensures value_like_an_option { line_of (codes "x.wasm" ∷ codes "-o" ∷ codes "-a.c" ∷ []) ≡ None }
    ensures unknown { line_of (codes "a.wasm" ∷ codes "-o" ∷ codes "a.c" ∷ codes "-x" ∷ []) ≡ None }
    ensures help { line_of (codes "--help" ∷ []) ≡ None }
    ensures no_function { line_of (codes "--gen" ∷ codes "0" ∷ codes "-o" ∷ codes "g.c" ∷ []) ≡ None }
    ensures generated_from_a_file { line_of (codes "--gen" ∷ codes "1" ∷ codes "a.wasm" ∷ codes "-o" ∷ codes "g.c" ∷ []) ≡ None }
    ensures same_module { line_of (codes "--dir" ∷ codes "out" ∷ codes "x/a.wasm" ∷ codes "y/a.wasm" ∷ []) ≡ None }
{}
