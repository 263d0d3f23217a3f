// Laws of the job.
ghost use Rattle.std.specs.Prelude.{◌≡◌, ◌⊎◌, List, ℕ, Option, Some};
ghost use Rattle.w2c_io.specs.Contents.{Name, Contents, Told};
ghost use Rattle.w2c_io.specs.Events.{Event};
ghost use Rattle.w2c_io.specs.Honest.{AreHonest};
ghost use Rattle.w2c_io.specs.Telling.{Says};
ghost use Rattle.w2c_files.specs.Passing.{FailsLast};
ghost use Rattle.w2c_files.specs.Standing.{file_names, AreDistinct, StandsAt};
ghost use Rattle.wasm2c_words.specs.CommandLine.{Line, line_of};
ghost use Rattle.wasm2c_cli.specs.declared.stop.Reason.{Reason};
ghost use Rattle.wasm2c_cli.specs.HonestPassing.{PassesHonestly};
ghost use Rattle.wasm2c_cli.specs.Job.{IsJob, Job, Missing, Refused, Write};
ghost use Rattle.wasm2c_cli.specs.Lines.{read_line, refused_line, write_line};
ghost use Rattle.wasm2c_cli.specs.Passing.{IsJobOver, PutsLinkedUnits};
ghost use Rattle.wasm2c_cli.specs.Stops.{Done, StandsOfJob};
ghost use Rattle.wasm2c_cli.specs.Top.{Answers};
ghost use Rattle.wasm2c_cli.specs.Units.{WritesLinkedUnits, WritesUnits};

/// The law that words ask for at most one job over what the files hold, and for at most one over what reads of them gave.
pub fn one_job()
    ensures contents { (words : List Name) (contents : Contents) (job other : Job)
        → IsJob words contents job → IsJob words contents other → job ≡ other }
    ensures reads { (words : List Name) (line : Line) → line_of words ≡ Some line → (given : List Event) (job other : Job)
        → IsJobOver line given job → IsJobOver line given other → job ≡ other }
{}

/// The law that the files of a job have distinct names, so that each stands whole when all are written (`w2c_files::written_files`).
pub fn distinct_files()
    ensures { (words : List Name) (contents : Contents) (files : List (Name × List ℕ))
        → IsJob words contents (Write files) → AreDistinct (file_names files) }
{}

/// The law of files that behave as files: what passed for words then says of what they hold what the clauses of the top call
/// on contents say. So after status 0 the job's files stand whole and nothing else has changed, and the status is that of the job
/// where no read and no write failed and memory was not wanting.
pub fn honest_files()
    ensures answered { (words : List Name) (status : ℕ) (said new_said : Option (List ℕ)) (faults new_faults : ℕ) (m : Contents)
        (new : Told) → (call : PassesHonestly words status (Says said new_said faults new_faults) m new)
        → (status ≡ 4) ⊎ (status ≡ 5) ⊎ ((file : Name) × FailsLast file call.events)
        ⊎ ((job : Job) × IsJob words m job × Answers job status) }
    ensures untouched { (words : List Name) (status : ℕ) (said new_said : Option (List ℕ)) (faults new_faults : ℕ) (m : Contents)
        (new : Told) → PassesHonestly words status (Says said new_said faults new_faults) m new
        → (status ≡ 1) ⊎ (status ≡ 2) ⊎ (status ≡ 3) → new ≡ Some m }
    ensures done { (words : List Name) (said new_said : Option (List ℕ)) (faults new_faults : ℕ) (m : Contents) (new : Told)
        → PassesHonestly words 0 (Says said new_said faults new_faults) m new → Done words (Some m) new }
    ensures refused { (words : List Name) (said new_said : Option (List ℕ)) (faults new_faults : ℕ) (m : Contents) (new : Told)
        → PassesHonestly words 1 (Says said new_said faults new_faults) m new
        → (file : Name) × (reason : Reason) × Says said new_said faults new_faults (refused_line file reason)
        × IsJob words m (Refused file reason) }
    ensures units { (words : List Name) (events : List Event) (m : Contents) (new : Told) (current after : Option Name)
        → PutsLinkedUnits words events → AreHonest events (Some m) current new after → WritesUnits words (Some m) new }
    ensures linked { (words : List Name) (events : List Event) (m : Contents) (new : Told) (current after : Option Name)
        → PutsLinkedUnits words events → AreHonest events (Some m) current new after → WritesLinkedUnits words (Some m) new }
    ensures missing { (words : List Name) (said new_said : Option (List ℕ)) (faults new_faults : ℕ) (m : Contents) (new : Told)
        → (call : PassesHonestly words 3 (Says said new_said faults new_faults) m new)
        → (file : Name) × Says said new_said faults new_faults (read_line file) × (IsJob words m (Missing file) ⊎ FailsLast file call.events) }
    ensures write_fault { (words : List Name) (said new_said : Option (List ℕ)) (faults new_faults : ℕ) (m : Contents) (new : Told)
        → PassesHonestly words 4 (Says said new_said faults new_faults) m new
        → (file : Name) × (files : List (Name × List ℕ)) × IsJob words m (Write files) × StandsAt (Some m) new files file
        × Says said new_said faults new_faults (write_line file) }
    ensures stands { (words : List Name) (said new_said : Option (List ℕ)) (faults new_faults : ℕ) (m : Contents) (new : Told)
        → PassesHonestly words 5 (Says said new_said faults new_faults) m new → StandsOfJob words m (Some m) new }
{}
