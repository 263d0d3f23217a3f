// Which helpers are called.
ghost use Rattle.std.specs.Prelude.{◌≡◌, false, ◌||◌, Some};
ghost use Rattle.c_helpers.specs.Called.{marked};
ghost use Rattle.c_helpers.specs.Helpers.{helper_of};
ghost use Rattle.c_helpers.specs.Needed.{named_by};

use crate::operation::Helper;
use std::marker::Model;

/// A mark for each helper, with room for some more.
#[derive(Drop)]
pub(crate) struct Marks {
    list: [bool; 64],
}

impl Model for Marks {
    ghost use Rattle.std.specs.Prelude.{Bool, List};

    ghost Value = { List Bool };

    ghost view = { λ marks. marks.list };
}

impl Marks {
    pub(crate) fn none() -> Marks
        ensures { (q : Helper) → marked result q ≡ false }
    {
        Marks { list: [false; 64] }
    }

    pub(crate) fn mark(&mut self, which: Helper)
        ensures { (q : Helper) → marked self.new q ≡ (marked self.old q || named_by (helper_of q).name (Some which)) }
    {
        self.list[which.number()] = true;
    }

    pub(crate) fn has(&self, which: Helper) -> bool
        ensures { result ≡ marked self.now which }
    {
        self.list[which.number()]
    }
}
