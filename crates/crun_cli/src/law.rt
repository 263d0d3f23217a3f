// Laws of the job, and of what passes through files.
ghost use Rattle.std.specs.Prelude.{◌≡◌, ◌⊎◌, ℕ, List, Option};
ghost use Rattle.w2c_base.specs.Run.{Host};
ghost use Rattle.w2c_io.specs.Contents.{Name, Contents};
ghost use Rattle.w2c_io.specs.Telling.{Says, Tells};
ghost use Rattle.w2c_files.specs.Passing.{FailsLast};
ghost use Rattle.crun_job.specs.Job.{Job, Stops};
ghost use Rattle.crun_job.specs.Lines.{error_line, status_of, Reason, Unread, Unwritten};
ghost use Rattle.crun_cli.specs.Again.{RunsAgain};
ghost use Rattle.crun_cli.specs.Ends.{Begun, BegunIfAny, Finished, IsAnswered, IsJobWith, IsKept, IsRunStatus};
ghost use Rattle.crun_cli.specs.HonestPassing.{PassesHonestly};
ghost use Rattle.crun_cli.specs.Jobs.{IsJob};
ghost use Rattle.crun_cli.specs.Outside.{IsUntouched, Outside};

use c_hosts::HostModule;

/// The law that words ask for at most one job over what the files hold and the hosts that are handed in.
pub fn one_job()
    ensures { (words : List Name) (handed : List Host) (contents : Contents) (job other : Job)
        → IsJob words handed contents job → IsJob words handed contents other → job ≡ other }
{}

/// The law of files that behave as files: what passed in a call then says of what they hold what the clauses of the top call on
/// contents say. With a status of a run it is the run, or the unit, that is asked for; with that of a refusal the first one, or the
/// file whose read failed; with 4 and 5 what was begun of it. Where no read failed, the status is that of the job, but for 4 and 5,
/// and a refusal decides in any case but for 5. A run whose journal was written is that run again when it is replayed, and no file
/// changes but the one that the words name for writing.
pub fn honest_files<H: HostModule>()
    ensures answered { (hosts : List H) (words : List Name) (m : Contents) (old new : Outside) (status : ℕ)
        (said said' : Option (List ℕ)) (faults faults' : ℕ)
        → (call : PassesHonestly H.HostModule hosts words m old new status (λ line. Says said said' faults faults' line))
        → (status ≡ 4) ⊎ (status ≡ 5) ⊎ ((file : Name) × FailsLast file call.events) ⊎ IsAnswered H.HostModule hosts words m status }
    ensures refused_always { (hosts : List H) (words : List Name) (m : Contents) (old new : Outside) (status : ℕ)
        (said said' : Option (List ℕ)) (faults faults' : ℕ)
        → (call : PassesHonestly H.HostModule hosts words m old new status (λ line. Says said said' faults faults' line))
        → (why : Reason) → IsJobWith H.HostModule hosts words m (Stops why)
        → (status ≡ status_of why) ⊎ (status ≡ 5) ⊎ ((file : Name) × FailsLast file call.events) }
    ensures replayed { (hosts : List H) (words : List Name) (m : Contents) (old new : Outside) (status : ℕ)
        (said said' : Option (List ℕ)) (faults faults' : ℕ)
        → PassesHonestly H.HostModule hosts words m old new status (λ line. Says said said' faults faults' line)
        → IsRunStatus status → Tells new.files.told (λ left. RunsAgain H.HostModule words m left old new status) }
    ensures kept { (hosts : List H) (words : List Name) (m : Contents) (old new : Outside) (status : ℕ)
        (said said' : Option (List ℕ)) (faults faults' : ℕ)
        → PassesHonestly H.HostModule hosts words m old new status (λ line. Says said said' faults faults' line)
        → IsKept words old new }
    ensures untouched { (hosts : List H) (words : List Name) (m : Contents) (old new : Outside) (status : ℕ)
        (said said' : Option (List ℕ)) (faults faults' : ℕ)
        → PassesHonestly H.HostModule hosts words m old new status (λ line. Says said said' faults faults' line)
        → (status ≡ 2) ⊎ (status ≡ 3) ⊎ (status ≡ 6) → IsUntouched old new }
    ensures finished { (hosts : List H) (words : List Name) (m : Contents) (old new : Outside) (status : ℕ)
        (said said' : Option (List ℕ)) (faults faults' : ℕ)
        → PassesHonestly H.HostModule hosts words m old new status (λ line. Says said said' faults faults' line)
        → IsRunStatus status → Finished H.HostModule hosts words m old new status }
    ensures refused { (hosts : List H) (words : List Name) (m : Contents) (old new : Outside) (status : ℕ)
        (said said' : Option (List ℕ)) (faults faults' : ℕ)
        → PassesHonestly H.HostModule hosts words m old new status (λ line. Says said said' faults faults' line)
        → (status ≡ 2) ⊎ (status ≡ 6) → (why : Reason) × (status_of why ≡ status)
        × IsJobWith H.HostModule hosts words m (Stops why) × Says said said' faults faults' (error_line why) }
    ensures missing { (hosts : List H) (words : List Name) (m : Contents) (old new : Outside)
        (said said' : Option (List ℕ)) (faults faults' : ℕ)
        → (call : PassesHonestly H.HostModule hosts words m old new 3 (λ line. Says said said' faults faults' line))
        → (file : Name) × (IsJobWith H.HostModule hosts words m (Stops (Unread file)) ⊎ FailsLast file call.events)
        × Says said said' faults faults' (error_line (Unread file)) }
    ensures write_fault { (hosts : List H) (words : List Name) (m : Contents) (old new : Outside)
        (said said' : Option (List ℕ)) (faults faults' : ℕ)
        → PassesHonestly H.HostModule hosts words m old new 4 (λ line. Says said said' faults faults' line)
        → Begun H.HostModule hosts words m old new × Says said said' faults faults' (error_line Unwritten) }
    ensures part { (hosts : List H) (words : List Name) (m : Contents) (old new : Outside)
        (said said' : Option (List ℕ)) (faults faults' : ℕ)
        → PassesHonestly H.HostModule hosts words m old new 5 (λ line. Says said said' faults faults' line)
        → BegunIfAny H.HostModule hosts words m old new }
{}
