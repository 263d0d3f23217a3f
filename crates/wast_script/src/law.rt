// What holds of every text.
ghost use Rattle.std.specs.Prelude.{◌≡◌, ◌≢◌, List, ℕ};
ghost use Rattle.wast_script.specs.declared.fault.ScriptFault.{ScriptFault as Fault};
ghost use Rattle.wast_script.specs.declared.fault.ScriptFault.TheVariants.{Memory as WantOfMemory};
ghost use Rattle.wast_script.specs.Commands.{Command};
ghost use Rattle.wast_script.specs.Scripts.{IsFault, IsScript};

/// The law that a text comes to one thing at most: it says one script, or one fault is the first that holds of it. Want of
/// memory is no such fault.
pub fn one_reading()
    ensures script { (text : List ℕ) (a b : List Command) → IsScript text a → IsScript text b → a ≡ b }
    ensures fault { (text : List ℕ) (a b : Fault) → a ≢ WantOfMemory → b ≢ WantOfMemory → IsFault text a → IsFault text b → a ≡ b }
    ensures apart { (text : List ℕ) (a : List Command) (b : Fault) → b ≢ WantOfMemory → IsScript text a → IsFault text b → ⊥ }
{}
