// The law of init functions.
ghost use Rattle.init_meaning.specs.InitFollows.{InitsFollow};

/// The law that in a program in which calls are followed, an init function follows the instantiation of its module.
pub fn inits_follow()
    ensures { InitsFollow }
{}
