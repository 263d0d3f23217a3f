// What a clause of the top call comes to for a worked script.
ghost use Rattle.std.specs.Prelude.{◌≡◌, ℕ, List, Option, Some, codes};
ghost use Rattle.std.specs.FinMap.{get};
ghost use Rattle.w2c_io.specs.Contents.{Contents, extended};
ghost use Rattle.wast_run.specs.Example.{two_json, two_report, two_wasm, two_words};
ghost use Rattle.wast_run.specs.Jobs.{Reported};

/// The law of `wast_run --steps 100 examples/two.json` where the files hold this script and README's first module. By `reported`
/// status 0 or 1 is 0, and standard output has gained the report, in which each of the five commands is ok.
pub fn two_json_is_reported()
    ensures { (contents : Contents) (old new : Option (List ℕ)) (status : ℕ)
        → get contents (codes "examples/two.json") ≡ Some two_json → get contents (codes "examples/two.wasm") ≡ Some two_wasm
        → Reported two_words contents old new status → (status ≡ 0) × (new ≡ extended old two_report) }
{}
