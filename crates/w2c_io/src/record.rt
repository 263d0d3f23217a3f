// The calls that were made, which only clauses read. A record takes no memory, and its methods do nothing: that they note what
// they are given is proved by hand.
ghost use Rattle.std.specs.Prelude.{◌≡◌, List, [], ◌∷◌, ◌++◌};
ghost use Rattle.std.specs.Borrow.{ftrue};
ghost use Rattle.w2c_io.specs.Events.{Event};

use crate::{ReadAnswer, WriteAnswer};
use std::marker::Model;
use w2c_base::Bytes;

/// The calls so far, in order.
#[derive(Drop)]
pub struct Record {
    pub ghost events: { List Event },
}

impl Model for Record {
    ghost also_owns = { λ _. ftrue };
}

/// A call that was made, and its answer.
#[derive(Clone, Copy)]
pub enum Call<'a> {
    Read(&'a str, usize, &'a Result<Bytes, ReadAnswer>),
    Begin(&'a str, &'a Result<(), WriteAnswer>),
    Put(&'a [u8], &'a Result<(), WriteAnswer>),
    Finish(&'a Result<(), WriteAnswer>),
}

impl Record {
    ghost use Rattle.w2c_io.specs.Noted.{event_of};

    /// No call was made.
    pub fn new() -> Record
        ensures { result.events ≡ [] }
    {
        Record {}
    }

    /// One call more.
    pub fn then(&self, _call: &Call<'_>) -> Record
        ensures { result.events ≡ self.now.events ++ event_of _call.now ∷ [] }
    {
        Record {}
    }
}
