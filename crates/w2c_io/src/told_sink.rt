// A stream over another, which tells what it took.
ghost use Rattle.std.specs.Prelude.{◌≡◌, Some, []};
ghost use Rattle.w2c_io.specs.Said.{said};

use crate::record::{Call, Record};
use crate::{Sink, WriteAnswer};

/// A stream over another, also over one of the system, which tells the pieces that this took whole. It takes no memory for
/// them: only clauses read them. After an `Err` it tells that nothing of the piece was taken, where the system may have taken
/// a part.
#[derive(Drop)]
pub struct ToldSink<S> {
    sink: S,
    calls: Record,
}

impl<S: Sink> ToldSink<S> {
    /// Over a stream, of which nothing is told yet.
    pub fn new(sink: S) -> ToldSink<S>
        ensures nothing { said result.calls.events ≡ [] }
        ensures sink { result.sink ≡ sink }
    {
        ToldSink {
            sink,
            calls: Record::new(),
        }
    }
}

impl<S: Sink> Sink for ToldSink<S> {
    ghost told = { λ s. Some (said s.calls.events) };

    ghost faults = { λ s. S.faults s.sink };

    fn put(&mut self, piece: &[u8]) -> Result<(), WriteAnswer> {
        let result = self.sink.put(piece);
        self.calls = self.calls.then(&Call::Put(piece, &result));
        result
    }
}
