// The law of what the forms ask for.
ghost use Rattle.std.specs.Prelude.{◌≡◌};
ghost use Rattle.w2c_io.specs.Contents.{Contents};
ghost use Rattle.crun_words.specs.CommandLine.{MergeLine, TrimLine};
ghost use Rattle.crun_job.specs.Job.{Job};
ghost use Rattle.crun_job.specs.Links.{Symbols};
ghost use Rattle.crun_units.specs.Jobs.{IsMergeJob, IsTrimJob};

/// The law that a line of either form asks for at most one job over what the files hold.
pub fn one_unit_job()
    ensures merged { (contents : Contents) (line : MergeLine) (symbols : Symbols) (job other : Job)
        → IsMergeJob line symbols contents job → IsMergeJob line symbols contents other → job ≡ other }
    ensures trimmed { (contents : Contents) (line : TrimLine) (job other : Job)
        → IsTrimJob line contents job → IsTrimJob line contents other → job ≡ other }
{}
