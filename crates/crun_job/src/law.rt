// Laws of texts, of units that are refused, of calls, and of the job.
ghost use Rattle.std.specs.Prelude.{◌≡◌, ℕ, List};
ghost use Rattle.c_tree.specs.Tree as tree;
ghost use Rattle.crun_job.specs.declared.stop.Cause.{Cause};
ghost use Rattle.c_meaning.specs.Linking.{fits, Program, SymbolCall};
ghost use Rattle.crun_words.specs.CommandLine.{RunLine};
ghost use Rattle.crun_job.specs.Calls.{program_of};
ghost use Rattle.crun_job.specs.Job.{IsTextsJob, Job};
ghost use Rattle.crun_job.specs.Links.{AreLinked, IsRefusedUnit, Symbols};
ghost use Rattle.crun_job.specs.Texts.{AreUnitTexts, IsFirstRefusedText};

/// The law that texts are those of one list of units at most, and of none where one is refused.
pub fn one_list_of_units()
    ensures one { (texts : List (List ℕ)) (units others : List (List tree.Item)) → AreUnitTexts texts units → AreUnitTexts texts others → units ≡ others }
    ensures apart { (texts : List (List ℕ)) (number : ℕ) (why : Cause) (units : List (List tree.Item)) → IsFirstRefusedText texts number why
        → AreUnitTexts texts units → ⊥ }
{}

/// The law that at most one text is the first that is refused, for one reason.
pub fn one_refused_text()
    ensures number { (texts : List (List ℕ)) (k n : ℕ) (why other : Cause) → IsFirstRefusedText texts k why → IsFirstRefusedText texts n other → k ≡ n }
    ensures why { (texts : List (List ℕ)) (k n : ℕ) (why other : Cause) → IsFirstRefusedText texts k why → IsFirstRefusedText texts n other → why ≡ other }
{}

/// The law that texts are refused by at most one unit, for one reason, and not where they are those of linked units.
pub fn one_refused_unit()
    ensures number { (texts : List (List ℕ)) (symbols : Symbols) (k n : ℕ) (why other : Cause) → IsRefusedUnit texts symbols k why
        → IsRefusedUnit texts symbols n other → k ≡ n }
    ensures why { (texts : List (List ℕ)) (symbols : Symbols) (k n : ℕ) (why other : Cause) → IsRefusedUnit texts symbols k why
        → IsRefusedUnit texts symbols n other → why ≡ other }
    ensures apart { (texts : List (List ℕ)) (symbols : Symbols) (k : ℕ) (why : Cause) (units : List (List tree.Item))
        → IsRefusedUnit texts symbols k why → AreLinked texts symbols units → ⊥ }
{}

/// The law that which hosts units are linked with says nothing of the calls that fit.
pub fn hosts_say_nothing()
    ensures { (p : Program) (call : SymbolCall) → fits (program_of p.units) call ≡ fits p call }
{}

/// The law that the texts of a run's units and of its calls file come to one thing at most.
pub fn one_texts_job()
    ensures { (line : RunLine) (symbols : Symbols) (units : List (List ℕ)) (calls : List ℕ) (job other : Job)
        → IsTextsJob line symbols units calls job → IsTextsJob line symbols units calls other → job ≡ other }
{}
