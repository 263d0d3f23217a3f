// What the clauses of the top call come to for README's first module.
ghost use Rattle.std.specs.Prelude.{◌≡◌, ◌≢◌, ◌+◌, ◌*◌, ◌≤◌, ℕ, List, Some, codes, replicate};
ghost use Rattle.std.specs.FinMap.{get};
ghost use Rattle.w2c_base.specs.declared.value.Value.TheVariants.{I32};
ghost use Rattle.w2c_base.specs.Run.{Host, Reply, values_in};
ghost use Rattle.w2c_io.specs.Contents.{Contents, Told};
ghost use Rattle.w2c_files.specs.Standing.{written};
ghost use Rattle.c_tree.specs.Spelled.{CSpells};
ghost use Rattle.c_tree.specs.Tree.{Item};
ghost use Rattle.c_meaning.specs.Run.{Ended, OutOfSteps};
ghost use Rattle.wasm2c_cli.specs.Example.{two_c, two_files, two_run, two_wasm, two_words};
ghost use Rattle.wasm2c_cli.specs.Job.{IsJob, Job};
ghost use Rattle.wasm2c_cli.specs.Stops.{Done};
ghost use Rattle.wasm2c_cli.specs.Top.{Answers};

/// The law of `wasm2c two.wasm -o two.c` where `two.wasm` holds README's 37 bytes. By `complete` the status is 0, where nothing fails
/// outside and memory is found. By `done` the files then hold README's `two.c` and `two.h`, and nothing else has changed.
pub fn two_wasm_becomes_two_c()
    ensures status { (contents : Contents) (job : Job) (status : ℕ) → get contents (codes "two.wasm") ≡ Some two_wasm
        → IsJob two_words contents job → Answers job status → status ≡ 0 }
    ensures done { (contents : Contents) (new : Told) → get contents (codes "two.wasm") ≡ Some two_wasm
        → Done two_words (Some contents) new → new ≡ written (Some contents) two_files }
{}

/// The law of README's `two.c`: it spells a unit, and each run of what it spells gives 42 for each call of the export, whatever hosts
/// are there and however many calls there are. Two statements, and nine for each call, are enough.
pub fn two_c_gives_42()
    ensures some { (unit : List Item) × CSpells unit two_c }
    ensures over { (unit : List Item) (hosts : List Host) (calls steps : ℕ) (replies : List Reply) → CSpells unit two_c
        → (two_run unit hosts calls steps replies).outcome ≢ OutOfSteps
        → ((two_run unit hosts calls steps replies).outcome ≡ Ended)
        × (values_in (two_run unit hosts calls steps replies).events ≡ replicate calls (Some (I32 42))) }
    ensures enough { (unit : List Item) (hosts : List Host) (calls steps : ℕ) (replies : List Reply) → CSpells unit two_c
        → 2 + 9 * calls ≤ steps → (two_run unit hosts calls steps replies).outcome ≡ Ended }
{}
