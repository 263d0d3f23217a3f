// What holds of printed texts. It is the contract of a function that does nothing.
ghost use Rattle.std.specs.Prelude.{◌≡◌, ℕ, List};
ghost use Rattle.c_tree.specs.declared.token.CReadFault.{CReadFault};
ghost use Rattle.c_tree.specs.Tree as tree;
ghost use Rattle.c_tree.specs.Spelled.{CSpells, CUpto, Formed};
ghost use Rattle.c_print.specs.Print.{print_of};

/// The law that the printed text of a well formed unit spells this unit, spells no other one and has
/// no fault: so it is read as this unit again.
pub fn printed_units_are_read_again()
    ensures spells { (u : List tree.Item) → Formed u → CSpells u (print_of u) }
    ensures no_other { (u v : List tree.Item) → Formed u → CSpells v (print_of u) → v ≡ u }
    ensures no_fault { (u : List tree.Item) (f : CReadFault) → Formed u → CUpto (print_of u) f → ⊥ }
{}
