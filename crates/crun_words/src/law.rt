// Laws of calls files and of the files that are read.
ghost use Rattle.std.specs.Prelude.{◌≡◌, List, ℕ};
ghost use Rattle.w2c_io.specs.Contents.{Contents, Name};
ghost use Rattle.crun_words.specs.CallLine.{Call, SaysCall};
ghost use Rattle.crun_words.specs.Inputs.{IsJournalReading, IsReading, IsUnitsReading, JournalReading, Reading, UnitsReading};

/// The law that a line says one call at most.
pub fn one_call()
    ensures { (line : List ℕ) (a b : Call) → SaysCall line a → SaysCall line b → a ≡ b }
{}

/// The law that reading the files of a line comes to one thing at most: all are read, or one file is the first that is not,
/// for one reason.
pub fn one_reading()
    ensures { (contents : Contents) (units : List Name) (calls : Name) (a b : Reading)
        → IsReading contents units calls a → IsReading contents units calls b → a ≡ b }
{}

/// The law that reading the files of units comes to one thing at most: all are read, or one is the first that is not, for one
/// reason.
pub fn one_units_reading()
    ensures { (contents : Contents) (units : List Name) (a b : UnitsReading)
        → IsUnitsReading contents units a → IsUnitsReading contents units b → a ≡ b }
{}

/// The law that reading a journal's file comes to one thing at most: its bytes, or one reason why there are none.
pub fn one_journal_reading()
    ensures { (contents : Contents) (name : Name) (a b : JournalReading)
        → IsJournalReading contents name a → IsJournalReading contents name b → a ≡ b }
{}
