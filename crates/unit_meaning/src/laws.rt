// The laws of the units of a linked set.
ghost use Rattle.unit_meaning.specs.Instantiation.{UnitsAreInstantiatedAlike};
ghost use Rattle.unit_meaning.specs.Sets.{UnitsDoTheSame, UnitsLink, UnitsServe};

use body_meaning::bodies_follow;
use init_meaning::inits_follow;

/// The law that the units of a linked set link, and that bodies find in them what they ask for.
#[tactic(auto, using(crate::proofs::Linking::units_link, crate::proofs::Program::units_serve))]
pub fn units_of_a_linked_set_link()
    ensures link { UnitsLink }
    ensures serve { UnitsServe }
{}

/// The law that init functions follow the instantiation of their modules.
pub fn units_are_instantiated_alike()
    ensures { UnitsAreInstantiatedAlike }
{
    inits_follow();
    bodies_follow();
}

/// The law that the units of a linked set do what its modules do, both ways.
pub fn units_do_what_modules_do()
    ensures { UnitsDoTheSame }
{
    inits_follow();
    bodies_follow();
}
