// The law of bodies.
ghost use Rattle.body_meaning.specs.Bodies.{BodiesFollow};

use w2c_base::equal_numbers_have_equal_types;

/// The law that the functions of C do what the modules' functions do: in a program whose units serve the modules
/// of a linked set, each call of a function of the set is followed by the call of the function that stands for it,
/// to the same reply, trap or question, for about as many statements as the steps that it has.
pub fn bodies_follow()
    ensures { BodiesFollow }
{
    equal_numbers_have_equal_types();
}
