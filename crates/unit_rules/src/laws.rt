// The law of the units of accepted modules, one by one.
ghost use Rattle.unit_rules.specs.Shape.{UnitsAreProper};

use body_rules::{bodies_are_formed, bodies_keep_the_rules};

/// The law that the unit of each accepted module is well formed, keeps the rules of C, and has the shape of the module.
pub fn units_are_proper()
    ensures { UnitsAreProper }
{
    bodies_keep_the_rules();
    bodies_are_formed();
}
