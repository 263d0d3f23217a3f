// Laws of reports.
ghost use Rattle.std.specs.FinMap.{get};
ghost use Rattle.std.specs.List.{AllByRecursion};
ghost use Rattle.std.specs.Prelude.{◌≡◌, ◌⊎◌, List, ◌∷◌, ◌++◌, ℕ, Option, Some, None};
ghost use Rattle.w2c_io.specs.Contents.{Contents, IsPrefix, Name};
ghost use Rattle.w2c_io.specs.Telling.{Says};
ghost use Rattle.w2c_files.specs.Passing.{FailsLast};
ghost use Rattle.wast_script.specs.Commands.{Command};
ghost use Rattle.wast_script.specs.Lines.{error_line, status_of, Reason, Unread, Unwritten};
ghost use Rattle.wast_run.specs.declared.word.Word.{Word as AnyWord};
ghost use Rattle.wast_run.specs.Report.{AreWords, report_of};
ghost use Rattle.wast_run.specs.Parts.{file_of, GainsLinesBefore, HasItsFile, IsNamed, IsPart};
ghost use Rattle.wast_run.specs.Jobs.{
  GainedPart,
  GainsPrefix,
  IsAnswered,
  IsJob,
  IsNotThere,
  Refuses,
  Reported,
  ReportedPart,
  Reports,
  Stops,
};
ghost use Rattle.wast_run.specs.Passing.{Honestly};

use wast_script::one_reading;

/// The law that commands have one list of words at most, and that a part of their report is a prefix of it.
pub fn one_report()
    ensures one { (contents : Contents) (steps : ℕ) (commands : List Command) (words others : List AnyWord)
        → AreWords contents steps commands words → AreWords contents steps commands others → words ≡ others }
    ensures parts { (contents : Contents) (steps : ℕ) (commands : List Command) (words : List AnyWord) (text : List ℕ)
        → AreWords contents steps commands words → IsPart contents steps commands text → IsPrefix text (report_of words) }
{}

/// The law that where the files behave as files, what passes through them says of their contents what the clauses of the top call
/// say: the report of status 0 and 1, why words or a script are refused, which file is not there, what was gained, that the status is
/// that of the job where no line and no read failed and memory was not wanting, that a script which is refused or not there decides
/// whatever becomes of lines, and that the files stand as before.
pub fn honest_files()
    ensures reported { (words : List Name) (m : Contents) (old new said said' : Option (List ℕ)) (status faults faults' : ℕ)
        → Honestly words m old new status (Says said said' faults faults')
        (λ events told. (status ≡ 0) ⊎ (status ≡ 1) → Reported words m old new status) }
    ensures refused { (words : List Name) (m : Contents) (old new said said' : Option (List ℕ)) (status faults faults' : ℕ)
        → Honestly words m old new status (Says said said' faults faults')
        (λ events told. status ≡ 2 → (why : Reason) × (status_of why ≡ 2) × Refuses words (Some m) why × (new ≡ old)
        × Says said said' faults faults' (error_line why)) }
    ensures unread { (words : List Name) (m : Contents) (old new said said' : Option (List ℕ)) (status faults faults' : ℕ)
        → Honestly words m old new status (Says said said' faults faults')
        (λ events told. status ≡ 3 → (file : Name) × (FailsLast file events ⊎ IsNotThere words m file)
        × Says said said' faults faults' (error_line (Unread file))) }
    ensures part { (words : List Name) (m : Contents) (old new said said' : Option (List ℕ)) (status faults faults' : ℕ)
        → Honestly words m old new status (Says said said' faults faults') (λ events told. GainedPart words m old new) }
    ensures answered { (words : List Name) (m : Contents) (old new said said' : Option (List ℕ)) (status faults faults' : ℕ)
        → Honestly words m old new status (Says said said' faults faults')
        (λ events told. (status ≡ 4) ⊎ (status ≡ 5) ⊎ ((file : Name) × FailsLast file events) ⊎ IsAnswered words m status) }
    ensures refused_always { (words : List Name) (m : Contents) (old new said said' : Option (List ℕ)) (status faults faults' : ℕ)
        → Honestly words m old new status (Says said said' faults faults')
        (λ events told. (why : Reason) → IsJob words m (Stops why)
        → (status ≡ status_of why) ⊎ (status ≡ 5) ⊎ ((file : Name) × FailsLast file events)) }
    ensures reported_always { (words : List Name) (m : Contents) (old new said said' : Option (List ℕ)) (status faults faults' : ℕ)
        → Honestly words m old new status (Says said said' faults faults')
        (λ events told. (steps : ℕ) (commands : List Command) → IsJob words m (Reports steps commands)
        → AllByRecursion (HasItsFile m) commands
        → (status ≡ 0) ⊎ (status ≡ 1) ⊎ (status ≡ 4) ⊎ (status ≡ 5) ⊎ ((file : Name) × FailsLast file events)) }
    ensures missing_always { (words : List Name) (m : Contents) (old new said said' : Option (List ℕ)) (status faults faults' : ℕ)
        → Honestly words m old new status (Says said said' faults faults')
        (λ events told. (steps : ℕ) (commands : List Command) → IsJob words m (Reports steps commands)
        → (file : Name) → IsNamed commands file → get m file ≡ None
        → (status ≡ 3) ⊎ (status ≡ 4) ⊎ (status ≡ 5) ⊎ ((file : Name) × FailsLast file events)) }
    ensures write_fault { (words : List Name) (m : Contents) (old new said said' : Option (List ℕ)) (status faults faults' : ℕ)
        → Honestly words m old new status (Says said said' faults faults')
        (λ events told. status ≡ 4 → ReportedPart words m old new
        × Says said said' faults faults' (error_line Unwritten)) }
    ensures nothing_without_script { (words : List Name) (m : Contents) (old new said said' : Option (List ℕ)) (status faults faults' : ℕ)
        → Honestly words m old new status (Says said said' faults faults')
        (λ events told. (why : Reason) → IsJob words m (Stops why) → new ≡ old) }
    ensures prefix { (words : List Name) (m : Contents) (old new said said' : Option (List ℕ)) (status faults faults' : ℕ)
        → Honestly words m old new status (Says said said' faults faults')
        (λ events told. GainsPrefix words m old new) }
    ensures part_before { (words : List Name) (m : Contents) (old new said said' : Option (List ℕ)) (status faults faults' : ℕ)
        → Honestly words m old new status (Says said said' faults faults')
        (λ events told. (steps : ℕ) (before behind : List Command) (command : Command) (file : Name)
        → IsJob words m (Reports steps (before ++ command ∷ behind)) → file_of command ≡ Some file → get m file ≡ None
        → GainsLinesBefore m steps before old new) }
    ensures stands { (words : List Name) (m : Contents) (old new said said' : Option (List ℕ)) (status faults faults' : ℕ)
        → Honestly words m old new status (Says said said' faults faults') (λ events told. told ≡ Some m) }
{
    one_reading();
}
