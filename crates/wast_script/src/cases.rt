// Closed cases of the definitions: words, JSON values and texts that were read by hand.
ghost use Rattle.std.specs.Prelude.{◌≡◌, [], ◌∷◌, codes, None, Some};
ghost use Rattle.w2c_base.specs.declared.trap.TrapKind.TheVariants.{IntOverflow};
ghost use Rattle.w2c_base.specs.declared.value.Value.TheVariants.{I32, I64};
ghost use Rattle.serde_json.specs.Data.{array, no_items, null, number, string, unsigned};
ghost use Rattle.wast_script.specs.declared.fault.ScriptFault.TheVariants as fault;
ghost use Rattle.wast_script.specs.CommandLine.{line_of};
ghost use Rattle.wast_script.specs.Commands.{AssertInvalid, AssertMalformed, AssertReturn, AssertTrap, Invoke, Module};
ghost use Rattle.wast_script.specs.Forms.{command_of};
ghost use Rattle.wast_script.specs.Samples.{assertion, call, file_at, listed, module_at, said_call, value_object, two_commands, two_commands_are};
ghost use Rattle.wast_script.specs.Scripts.{IsFault, IsScript};
ghost use Rattle.wast_script.specs.Values.{value_of};

/// Values of both types at their bounds, with leading zeros, and objects that stand for none.
pub fn values_of_objects()
    ensures greatest_i32 { value_of (value_object "i32" "4294967295") ≡ Some (I32 4294967295) }
    ensures past_i32 { value_of (value_object "i32" "4294967296") ≡ None }
    ensures greatest_i64 { value_of (value_object "i64" "18446744073709551615") ≡ Some (I64 18446744073709551615) }
    ensures past_i64 { value_of (value_object "i64" "18446744073709551616") ≡ None }
    ensures zeros { value_of (value_object "i32" "00000000000000000007") ≡ Some (I32 7) }
    ensures too_many_digits { value_of (value_object "i32" "000000000000000000007") ≡ None }
    ensures no_digit { value_of (value_object "i32" "") ≡ None }
    ensures sign { value_of (value_object "i32" "-1") ≡ None }
    ensures other_type { value_of (value_object "f32" "1") ≡ None }
    ensures no_object { value_of (number (unsigned 1)) ≡ None }
{}

/// Commands of each kind, and objects that are not of the form of one.
pub fn commands_of_values()
    ensures module { command_of (module_at "add" "add.wasm") ≡ Some (Module (record { name = codes "add"; filename = codes "add.wasm" })) }
    ensures no_name { command_of (module_at "" "add.wasm") ≡ None }
    ensures call { command_of (call "call") ≡ Some (Invoke said_call) }
    ensures returned { command_of (assertion "assert_return" "expected" (listed (value_object "i32" "0"))) ≡ Some (AssertReturn said_call (Some (I32 0))) }
    ensures no_value { command_of (assertion "assert_return" "expected" (array no_items)) ≡ Some (AssertReturn said_call None) }
    ensures nothing_expected { command_of (call "assert_return") ≡ None }
    ensures trapped { command_of (assertion "assert_trap" "text" (string (codes "integer overflow"))) ≡ Some (AssertTrap said_call IntOverflow) }
    ensures no_trap { command_of (assertion "assert_trap" "text" (string (codes "overflow"))) ≡ None }
    ensures invalid { command_of (file_at "assert_invalid" "a") ≡ Some (AssertInvalid (codes "a")) }
    ensures malformed { command_of (file_at "assert_malformed" "a") ≡ Some (AssertMalformed (codes "a")) }
    ensures no_kind { command_of (file_at "assert_unlinkable" "a") ≡ None }
    ensures no_object { command_of null ≡ None }
{}

/// The words in more than one order and spelling.
pub fn lines_that_are_read()
    ensures in_order { line_of (codes "--steps" ∷ codes "100" ∷ codes "s.json" ∷ []) ≡ Some (record { steps = 100; script = codes "s.json" }) }
    ensures other_order { line_of (codes "--steps=007" ∷ codes "--" ∷ codes "-s" ∷ []) ≡ Some (record { steps = 7; script = codes "-s" }) }
    ensures most_steps { line_of (codes "s" ∷ codes "--steps" ∷ codes "18446744073709551615" ∷ [])
        ≡ Some (record { steps = 18446744073709551615; script = codes "s" }) }
{}

/// Words that have no reading: the option or the script left out, either twice, an option without its value or unknown, and
/// numbers of no form.
pub fn lines_that_are_refused()
    ensures no_word { line_of [] ≡ None }
    ensures no_steps { line_of (codes "s" ∷ []) ≡ None }
    ensures no_script { line_of (codes "--steps" ∷ codes "1" ∷ []) ≡ None }
    ensures steps_twice { line_of (codes "--steps=1" ∷ codes "--steps=1" ∷ codes "s" ∷ []) ≡ None }
    ensures two_scripts { line_of (codes "--steps=1" ∷ codes "s" ∷ codes "t" ∷ []) ≡ None }
    ensures no_value { line_of (codes "s" ∷ codes "--steps" ∷ []) ≡ None }
    ensures unknown { line_of (codes "--steps=1" ∷ codes "-v" ∷ codes "s" ∷ []) ≡ None }
    ensures help { line_of (codes "--help" ∷ []) ≡ None }
    ensures no_number { line_of (codes "--steps=x" ∷ codes "s" ∷ []) ≡ None }
    ensures too_large { line_of (codes "--steps=18446744073709551616" ∷ codes "s" ∷ []) ≡ None }
{}

/// Texts: a module and an assertion on it; a command that lacks its members; and a text that is no JSON.
pub fn texts_of_scripts()
    ensures two_commands { IsScript two_commands two_commands_are }
    ensures first_fault { IsFault (codes "{\"commands\":[{\"type\":\"module\"}]}") (fault.Command 1) }
    ensures no_json { IsFault (codes "{") fault.NotJson }
    ensures no_objects { IsFault (codes "{\"commands\":[3]}") fault.NoCommands }
    ensures last_member { IsScript (codes "{\"commands\":3,\"commands\":[]}") [] }
{}
