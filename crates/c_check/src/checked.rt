// The checker: whether a unit keeps the rules, and the first one that it breaks.
ghost use Rattle.std.specs.Prelude.{◌≡◌, IfOk, IfErr};
ghost use Rattle.c_tree.specs.View.{unit_of};
ghost use Rattle.c_tree.specs.Spelled.{Formed};
ghost use Rattle.c_tree.specs.FirstBroken.{BrokenAt, BrokenRule};
ghost use Rattle.c_check.specs.Refusals.{IsFirstRule, IsFoundRule};

use crate::pass::first_broken;
use c_rules::CheckedUnit;
use c_tree::Unit;
use std::alloc::Global;
use w2c_base::Memory;

/// Why a unit is refused.
#[derive(Clone, Copy, Debug, Drop, PartialEq, Eq)]
pub enum CheckRefusal {
    /// The first rule that it breaks: the item from 0, in it the statement from 1, or 0 for the
    /// item itself, its parameters and its local variables, and the rule's number.
    Rule(usize, usize, u32),
    Memory,
}

impl From<Memory> for CheckRefusal {
    ghost use Rattle.c_check.specs.declared.checked.CheckRefusal.TheVariants as refusal;

    ghost from_gives = { λ _ e. e ≡ refusal.Memory };

    fn from(_: Memory) -> Self {
        CheckRefusal::Memory
    }
}

/// Units that are checked.
pub trait Check {
    /// Checks a unit that some text spells. It is refused by the first rule that it breaks.
    fn check(alloc: Global, u: Unit) -> Result<CheckedUnit, CheckRefusal>
        requires { Formed (unit_of u) }
        ensures unit { IfOk result (λ checked. checked ≡ u) }
        ensures kept { IfOk result (λ checked. (at : BrokenAt) → BrokenRule (unit_of checked) at → ⊥) }
        ensures rule { IfErr result (λ refusal. IsFirstRule (unit_of u) refusal) }
        ensures found { IfErr result (λ refusal. IsFoundRule (unit_of u) refusal) };
}

impl Check for CheckedUnit {
    fn check(alloc: Global, u: Unit) -> Result<CheckedUnit, CheckRefusal> {
        match first_broken(alloc, u.as_slice())? {
            Some(broken) => Err(CheckRefusal::Rule(broken.item, broken.statement, broken.rule)),
            None => Ok(CheckedUnit::known(alloc, u)?),
        }
    }
}
