// The laws of bodies as items.
ghost use Rattle.body_rules.specs.BodiesAreProper.{BodiesAreFormed, BodiesKeepTheRules};

/// The law that the function of a typed body breaks no rule of C, in a unit that declares what the bodies of its module use.
pub fn bodies_keep_the_rules()
    ensures { BodiesKeepTheRules }
{}

/// The law that some text spells it: its names are names, and its numbers are within their types.
pub fn bodies_are_formed()
    ensures { BodiesAreFormed }
{}
