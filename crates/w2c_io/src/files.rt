// Files that are read and written by name.
ghost use Rattle.std.specs.Prelude.{◌≡◌, ◌≤◌, ◌⊎◌, ◌++◌, ◌∷◌, ℕ, List, [], length, Option, Some, None, IsSome, IfOk, OnOk, OnErr, IsErrOf};
ghost use Rattle.w2c_io.specs.declared.answers.ReadAnswer.TheVariants as reading;
ghost use Rattle.w2c_io.specs.Contents.{Told, Name, holding, appending, HasFile, HasNoFile, HasLongFile, IsPrefix};
ghost use Rattle.w2c_io.specs.Causes.{ReadCause, WriteCause, name_after_read, name_after_write};
ghost use Rattle.w2c_io.specs.Events.{Event, Read, Begin, Put, Finish};

use crate::{ReadAnswer, WriteAnswer};
use std::alloc::Global;
use w2c_base::Bytes;

/// Files by name. One file at a time is current: it was begun, and what is put goes to its end.
///
/// A call answers Failed only where a count rose in it, or stands at the last value of a `u64`.
pub trait Files {
    /// What the files hold, by name. None where they don't tell it.
    ghost told: { Self → Told };

    /// The file that was begun and isn't finished.
    ghost current: { Self → Option Name };

    /// How often a read has failed.
    ghost read_faults: { Self → ℕ };

    /// How often a call that writes has failed.
    ghost write_faults: { Self → ℕ };

    /// The file of the last call that answered Failed.
    ghost fault_name: { Self → Option Name };

    /// The calls that were made, in order, with their answers. It is told by the files of the system too.
    ghost trace: { Self → List Event };

    /// The whole file, of at most `limit` bytes. Absent where no file has the name, TooLong where
    /// the file has more bytes.
    fn read(&mut self, alloc: Global, name: &str, limit: usize) -> Result<Bytes, ReadAnswer>
        ensures whole { IfOk result (λ bytes. HasFile (told self.old) name.now bytes) }
        ensures fits { IfOk result (λ bytes. length bytes ≤ limit) }
        ensures absent { IsErrOf result reading.Absent → HasNoFile (told self.old) name.now }
        ensures too_long { IsErrOf result reading.TooLong → HasLongFile (told self.old) name.now limit }
        ensures told { told self.new ≡ told self.old }
        ensures current { current self.new ≡ current self.old }
        ensures cause { ReadCause (read_faults self.old) (read_faults self.new) result }
        ensures named { fault_name self.new ≡ name_after_read result (Some name.now) (fault_name self.old) }
        ensures writes { write_faults self.new ≡ write_faults self.old }
        ensures traced { trace self.new ≡ trace self.old ++ Read name.now limit result ∷ [] };

    /// Makes a file empty and current. A file that was current stays as it stands. After an `Err`
    /// the file is as it was or empty, and none is current.
    fn begin(&mut self, name: &str) -> Result<(), WriteAnswer>
        ensures begun { OnOk result (told self.new ≡ holding (told self.old) name.now []) }
        ensures current { OnOk result (current self.new ≡ Some name.now) }
        ensures untouched { OnErr result ((told self.new ≡ told self.old)
            ⊎ (told self.new ≡ holding (told self.old) name.now [])) }
        ensures none_current { OnErr result (current self.new ≡ None) }
        ensures cause { WriteCause (write_faults self.old) (write_faults self.new) result }
        ensures named { fault_name self.new ≡ name_after_write result (Some name.now) (fault_name self.old) }
        ensures reads { read_faults self.new ≡ read_faults self.old }
        ensures traced { trace self.new ≡ trace self.old ++ Begin name.now result ∷ [] };

    /// Appends a piece to the current file. After an `Err` a prefix of it was appended.
    fn put(&mut self, piece: &[u8]) -> Result<(), WriteAnswer>
        requires { IsSome (current self.old) }
        ensures written { OnOk result (told self.new ≡ appending (told self.old) (current self.old) piece.now) }
        ensures part { OnErr result ((part : List ℕ) × IsPrefix part piece.now
            × (told self.new ≡ appending (told self.old) (current self.old) part)) }
        ensures current { current self.new ≡ current self.old }
        ensures cause { WriteCause (write_faults self.old) (write_faults self.new) result }
        ensures named { fault_name self.new ≡ name_after_write result (current self.old) (fault_name self.old) }
        ensures reads { read_faults self.new ≡ read_faults self.old }
        ensures traced { trace self.new ≡ trace self.old ++ Put piece.now result ∷ [] };

    /// Ends the current file. After an `Err` it stands as it is, and none is current.
    fn finish(&mut self) -> Result<(), WriteAnswer>
        requires { IsSome (current self.old) }
        ensures told { told self.new ≡ told self.old }
        ensures none_current { current self.new ≡ None }
        ensures cause { WriteCause (write_faults self.old) (write_faults self.new) result }
        ensures named { fault_name self.new ≡ name_after_write result (current self.old) (fault_name self.old) }
        ensures reads { read_faults self.new ≡ read_faults self.old }
        ensures traced { trace self.new ≡ trace self.old ++ Finish result ∷ [] };
}
