// The laws of trimmed units.
ghost use Rattle.std.specs.Prelude.{◌≡◌, List};
ghost use Rattle.c_tree.specs.Tree as tree;
ghost use Rattle.c_tree.specs.FirstBroken.{KeepsRules};
ghost use Rattle.c_tree.specs.Spelled.{Formed};
ghost use Rattle.c_trim.specs.Runs.{RunsInPlaceOf};
ghost use Rattle.c_trim.specs.Trim.{IsTrimmed};

/// The law that a unit is trimmed in one way.
pub fn one_trimmed_unit()
    ensures { (unit t other : List tree.Item) → IsTrimmed unit t → IsTrimmed unit other → t ≡ other }
{}

/// The law that a trimmed unit is spelled by some text, and keeps the rules, where the unit is and does.
pub fn trimmed_units_are_checked()
    ensures formed { (unit t : List tree.Item) → IsTrimmed unit t → Formed unit → Formed t }
    ensures kept { (unit t : List tree.Item) → IsTrimmed unit t → KeepsRules unit → KeepsRules t }
{}

/// The law that trimming a trimmed unit leaves it as it is.
pub fn trimming_twice_is_trimming_once()
    ensures { (unit once twice : List tree.Item) → IsTrimmed unit once → IsTrimmed once twice → twice ≡ once }
{}

/// The law that a trimmed unit may stand in the place of the given one, at any place among units that keep the rules: they
/// link with the hosts as before, or are refused as before; the same calls fit; and the runs are the same, but for the
/// item's number where something is undefined in that unit.
pub fn trimmed_units_run_in_place()
    ensures { (unit t : List tree.Item) → IsTrimmed unit t → RunsInPlaceOf unit t }
{}
