// Units that keep the rules.
ghost use Rattle.std.specs.Prelude.{◌≡◌, IfOk};
ghost use Rattle.c_tree.specs.View.{unit_of};
ghost use Rattle.c_tree.specs.Spelled.{Formed};
ghost use Rattle.c_tree.specs.FirstBroken.{KeepsRules};

use c_tree::Unit;
use std::alloc::Global;
use std::marker::Model;
use std::rc::Rc;
use w2c_base::Memory;

/// A unit that some text spells, and that keeps every rule of the subset. It can be shared.
#[derive(Drop)]
pub struct CheckedUnit {
    unit: Rc<Unit>,
}

impl Model for CheckedUnit {
    ghost use Rattle.std.specs.Prelude.{List};
    ghost use Rattle.std.specs.Coded.{codes};
    ghost use Rattle.c_tree.specs.declared.tree.Item.{Item};
    ghost use Rattle.c_tree.specs.contracts.tree.Expr as expr;
    ghost use Rattle.c_tree.specs.View.{unit_of};
    ghost use Rattle.c_tree.specs.Spelled.{Formed};
    ghost use Rattle.c_tree.specs.FirstBroken.{KeepsRules};

    ghost Value = { List Item };

    ghost coded = { Prim.hlevel (codes, expr.the_row.coded) };

    ghost view = { λ checked. checked.unit.value };

    ghost invariant = { λ checked. Formed (unit_of checked.unit.value) × KeepsRules (unit_of checked.unit.value) };
}

impl CheckedUnit {
    /// A unit of which it is known that some text spells it and that it keeps the rules: nothing is checked again.
    pub fn known(alloc: Global, u: Unit) -> Result<CheckedUnit, Memory>
        requires formed { Formed (unit_of u) }
        requires kept { KeepsRules (unit_of u) }
        ensures { IfOk result (λ checked. checked ≡ u) }
    {
        match Rc::new(alloc, u) {
            Ok(unit) => Ok(CheckedUnit { unit }),
            Err(_) => Err(Memory),
        }
    }

    /// The unit that is known to keep the rules.
    pub fn unit(&self) -> &Unit
        ensures unit { result.now ≡ self.now }
        ensures formed { Formed (unit_of self.now) }
        ensures kept { KeepsRules (unit_of self.now) }
    {
        &self.unit
    }

    /// The same unit, not copied, to be kept beside this one.
    pub fn shared(&self) -> Result<Rc<Unit>, Memory>
        ensures { IfOk result (λ shared. shared.value ≡ self.now) }
    {
        Ok(Rc::clone(&self.unit)?)
    }
}
