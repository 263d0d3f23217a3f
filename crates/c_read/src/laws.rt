// What holds of every text: with it the clauses of the reader say which answer comes.
ghost use Rattle.std.specs.Prelude.{◌≡◌, ◌≢◌, ◌⊎◌, ℕ, List};
ghost use Rattle.c_tree.specs.declared.token.CReadFault.{CReadFault};
ghost use Rattle.c_tree.specs.declared.token.CReadFault.TheVariants.{UnitTooLong, Memory};
ghost use Rattle.c_tree.specs.Tree as tree;
ghost use Rattle.c_tree.specs.Spelled.{CSpells, CUpto};

/// The law that a text spells a unit or has a first fault.
pub fn unit_or_fault()
    ensures { (text : List ℕ) → ((u : List tree.Item) × CSpells u text) ⊎ ((fault : CReadFault) × CUpto text fault) }
{}

/// The law that a text has at most one first fault.
pub fn one_fault()
    ensures { (text : List ℕ) (f g : CReadFault) → CUpto text f → CUpto text g → f ≡ g }
{}

/// The law that the first fault of a text is one of a token.
pub fn faults_are_of_tokens()
    ensures not_too_long { (text : List ℕ) (f : CReadFault) → CUpto text f → f ≢ UnitTooLong }
    ensures not_memory { (text : List ℕ) (f : CReadFault) → CUpto text f → f ≢ Memory }
{}
