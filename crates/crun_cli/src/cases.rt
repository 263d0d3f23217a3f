// Closed cases of runs: their lines and their status.
ghost use Rattle.std.specs.Prelude.{◌≡◌, ℕ, false, List, [], ◌∷◌, Option, Some, codes};
ghost use Rattle.w2c_base.specs.declared.value.Value.{Value as AnyValue};
ghost use Rattle.w2c_base.specs.declared.value.Value.TheVariants.{I32, I64};
ghost use Rattle.c_tree.specs.declared.tree.CType.TheVariants.{U64};
ghost use Rattle.c_meaning.specs.Samples as sample;
ghost use Rattle.c_meaning.specs.declared.reply.HostReply.{HostReply as AnyReply};
ghost use Rattle.c_meaning.specs.declared.reply.HostReply.TheVariants as reply;
ghost use Rattle.c_hosts.specs.Asking.{host_of, Keeps};
ghost use Rattle.crun_cli.specs.Runs.{HasRun};

use c_hosts::HostModule;

/// A quotient, a division by 0, a call that is out of statements, and a trap, each with its own line and status; and another line
/// or status, which the quotient has not.
pub fn runs_without_hosts<H: HostModule>()
    ensures quotient { HasRun H.HostModule [] (sample.division ∷ []) (sample.call_with (I32 7) (I32 2) ∷ []) 2 false
        (Some []) (Some (codes "call 1 = i32:3\n")) 0 }
    ensures division_by_0 { HasRun H.HostModule [] (sample.division ∷ []) (sample.call_with (I32 1) (I32 0) ∷ []) 2 false
        (Some []) (Some (codes "call 1 undefined 1 unit 0 item 0 statement 1\n")) 8 }
    ensures few_statements { HasRun H.HostModule [] (sample.division ∷ []) (sample.call_with (I32 7) (I32 2) ∷ []) 1 false
        (Some []) (Some (codes "call 1 out of steps\n")) 7 }
    ensures trap { HasRun H.HostModule [] (sample.trapping ∷ []) (sample.call_with (I32 8) (I32 0) ∷ []) 1 false
        (Some []) (Some (codes "call 1 trap 8 call depth\n")) 1 }
    ensures other_status { HasRun H.HostModule [] (sample.division ∷ []) (sample.call_with (I32 7) (I32 2) ∷ []) 2 false
        (Some []) (Some (codes "call 1 = i32:3\n")) 1 → ⊥ }
    ensures other_line { HasRun H.HostModule [] (sample.division ∷ []) (sample.call_with (I32 7) (I32 2) ∷ []) 2 false
        (Some []) (Some []) 0 → ⊥ }
{}

/// A host whose function is asked once: it may give 1, and the run goes on; and where it may answer nothing there is no run.
pub fn runs_with_a_host<H: HostModule>()
    ensures answered { (before after : H) → host_of H.HostModule before ≡ sample.env → Keeps H.HostModule before after
        → H.HostModule.may before (H.HostModule.state before) 0 [] (reply.Value (Some (I64 1))) (H.HostModule.state after)
        → HasRun H.HostModule (before ∷ []) (sample.host_call U64 ∷ []) (sample.call_with (I32 3) (I32 0) ∷ []) 2 false
        (Some []) (Some (codes "host env tick = i64:1\ncall 1 = i32:3\n")) 0 }
    ensures silent { (before : H) → host_of H.HostModule before ≡ sample.env
        → ((function : ℕ) (args : List AnyValue) (answer : AnyReply) (after : List ℕ)
        → H.HostModule.may before (H.HostModule.state before) function args answer after → ⊥)
        → (new : Option (List ℕ)) (status : ℕ)
        → HasRun H.HostModule (before ∷ []) (sample.host_call U64 ∷ []) (sample.call_with (I32 3) (I32 0) ∷ []) 2 false
        (Some []) new status → ⊥ }
{}
