// What a clause of the top call comes to for README's run of a unit.
ghost use Rattle.std.specs.Prelude.{◌≡◌, ℕ, List, Some, codes};
ghost use Rattle.std.specs.FinMap.{get};
ghost use Rattle.w2c_io.specs.Contents.{Contents, extended};
ghost use Rattle.crun_cli.specs.Ends.{Finished};
ghost use Rattle.crun_cli.specs.Example.{two_c, two_calls, two_words};
ghost use Rattle.crun_cli.specs.Outside.{Outside};

use c_hosts::HostModule;

/// The law of `crun --steps 100 --calls examples/sum.calls two.c` where the files hold README's unit and its call, with any hosts. By
/// `finished` a status of a run is 0, standard output has gained the line `call 1 = i32:42`, and no file has changed.
pub fn two_c_is_run<H: HostModule>()
    ensures { (hosts : List H) (contents : Contents) (old new : Outside) (status : ℕ)
        → get contents (codes "two.c") ≡ Some two_c → get contents (codes "examples/sum.calls") ≡ Some two_calls
        → Finished H.HostModule hosts two_words contents old new status
        → (status ≡ 0) × (new.out.told ≡ extended old.out.told (codes "call 1 = i32:42\n")) × (new.files.told ≡ old.files.told) }
{}
