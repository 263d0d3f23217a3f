// Laws of the rules of the subset and of the first that a unit breaks.
ghost use Rattle.std.specs.Prelude.{◌≡◌, List, Some};
ghost use Rattle.c_tree.specs.Tree as tree;
ghost use Rattle.c_tree.specs.FirstBroken.{BrokenAt, BrokenRule, IsFirstBroken, KeepsRules, first_broken};

/// The law that a unit breaks at most one rule first.
pub fn one_first_broken_rule()
    ensures { (unit : List tree.Item) (a b : BrokenAt) → IsFirstBroken unit a → IsFirstBroken unit b → a ≡ b }
{}

/// The law that the first broken rule is broken, and that a unit that has none breaks none.
pub fn first_broken_rule_is_broken()
    ensures broken { (unit : List tree.Item) (at : BrokenAt) → first_broken unit ≡ Some at → BrokenRule unit at }
    ensures none { (unit : List tree.Item) (at : BrokenAt) → KeepsRules unit → BrokenRule unit at → ⊥ }
{}

/// The law that the first broken rule is the one that no other comes before, by the item, the
/// statement and the rule's number, and that a unit which breaks a rule has one.
pub fn first_broken_rule_is_the_least()
    ensures first { (unit : List tree.Item) (at : BrokenAt) → first_broken unit ≡ Some at → IsFirstBroken unit at }
    ensures only { (unit : List tree.Item) (at : BrokenAt) → IsFirstBroken unit at → first_broken unit ≡ Some at }
    ensures one { (unit : List tree.Item) (at : BrokenAt) → BrokenRule unit at → (first : BrokenAt) × IsFirstBroken unit first }
{}
