// Files in memory that never fail. Each call is noted with its answer.
ghost use Rattle.std.specs.Prelude.{◌≡◌, ◌≤◌, ◌<◌, [], true, Some, None, OnOk, OnErr, MatchOption, IfOk, IsErrOf, length};
ghost use Rattle.std.specs.FinMap as map;
ghost use Rattle.w2c_io.specs.Contents.{appending, HasFile, HasNoFile, HasLongFile};
ghost use Rattle.w2c_io.specs.declared.answers.ReadAnswer.TheVariants as reading;
ghost use Rattle.w2c_io.specs.declared.answers.WriteAnswer.TheVariants as writing;
ghost use Rattle.w2c_io.specs.Stored.{stored, open_name};

use crate::record::{Call, Record};
use crate::store::{Entry, add, add_copy, find, grow};
use crate::{Files, ReadAnswer, WriteAnswer};
use std::alloc::Global;
use w2c_base::{Bytes, Memory};

/// Files in memory. No call on them ever answers Failed.
#[derive(Drop)]
pub struct SureFiles {
    alloc: Global,
    entries: Vec<Entry>,
    begun: bool,
    calls: Record,
}

impl SureFiles {
    ghost use Rattle.w2c_io.specs.InMemory.{sure_contents, sure_current, sure_trace};

    /// No files.
    pub fn new(alloc: Global) -> Self
        ensures contents { sure_contents result ≡ map.empty }
        ensures current { sure_current result ≡ None }
        ensures trace { sure_trace result ≡ [] }
    {
        SureFiles {
            alloc,
            entries: Vec::new(alloc),
            begun: false,
            calls: Record::new(),
        }
    }

    /// Adds a file, or replaces the one of this name; then no file is the current one.
    pub fn add(&mut self, name: &str, bytes: &[u8]) -> Result<(), Memory>
        ensures ok { OnOk result (sure_contents self.new ≡ map.insert (sure_contents self.old) name.now bytes.now) }
        ensures closed { OnOk result (sure_current self.new ≡ None) }
        ensures err { OnErr result (sure_contents self.new ≡ sure_contents self.old) }
        ensures current { OnErr result (sure_current self.new ≡ sure_current self.old) }
        ensures trace { sure_trace self.new ≡ sure_trace self.old }
    {
        add_copy(self.alloc, &mut self.entries, &mut self.begun, name, bytes)
    }

    /// The bytes of a file, None where no file has the name.
    pub fn get(&self, name: &str) -> Option<&[u8]>
        ensures { MatchOption result (map.get (sure_contents self.now) name.now ≡ None)
            (λ bytes. map.get (sure_contents self.now) name.now ≡ Some bytes.now) }
    {
        find(self.entries.as_slice(), name)
    }
}

impl Files for SureFiles {
    ghost use Rattle.w2c_io.specs.InMemory.{sure_contents, sure_current, sure_trace};

    ghost told = { λ s. Some (sure_contents s) };

    ghost current = { sure_current };

    ghost read_faults = { λ s. 0 };

    ghost write_faults = { λ s. 0 };

    ghost fault_name = { λ s. None };

    ghost trace = { sure_trace };

    fn read(&mut self, alloc: Global, name: &str, limit: usize) -> Result<Bytes, ReadAnswer> {
        let result = read_stored(alloc, self.entries.as_slice(), name, limit);
        self.calls = self.calls.then(&Call::Read(name, limit, &result));
        result
    }

    fn begin(&mut self, name: &str) -> Result<(), WriteAnswer> {
        let result = begin_entry(self.alloc, &mut self.entries, name);
        self.begun = result.is_ok();
        self.calls = self.calls.then(&Call::Begin(name, &result));
        result
    }

    fn put(&mut self, piece: &[u8]) -> Result<(), WriteAnswer> {
        let result = put_entry(&mut self.entries, piece);
        self.calls = self.calls.then(&Call::Put(piece, &result));
        result
    }

    fn finish(&mut self) -> Result<(), WriteAnswer> {
        self.begun = false;
        let result = Ok(());
        self.calls = self.calls.then(&Call::Finish(&result));
        result
    }
}

// A newest entry of this name, with no bytes.
fn begin_entry(alloc: Global, entries: &mut Vec<Entry>, name: &str) -> Result<(), WriteAnswer>
    ensures stored { OnOk result (stored entries.new.items ≡ map.insert (stored entries.old.items) name.now []) }
    ensures open { OnOk result (open_name true entries.new.items ≡ Some name.now) }
    ensures err { OnErr result (entries.new.items ≡ entries.old.items) }
    ensures sure { IsErrOf result writing.Failed → ⊥ }
{
    let name = String::from_str(alloc, name)?;
    add(entries, name, Vec::new(alloc))?;
    Ok(())
}

// A piece at the end of the newest entry.
fn put_entry(entries: &mut Vec<Entry>, piece: &[u8]) -> Result<(), WriteAnswer>
    requires { 0 < length entries.old.items }
    ensures ok { OnOk result (Some (stored entries.new.items)
        ≡ appending (Some (stored entries.old.items)) (open_name true entries.old.items) piece.now) }
    ensures err { OnErr result (stored entries.new.items ≡ stored entries.old.items) }
    ensures open { open_name true entries.new.items ≡ open_name true entries.old.items }
    ensures sure { IsErrOf result writing.Failed → ⊥ }
{
    grow(entries, piece)?;
    Ok(())
}

/// Reads a file among entries. It never answers Failed.
pub fn read_stored(
    alloc: Global,
    entries: &[Entry],
    name: &str,
    limit: usize,
) -> Result<Bytes, ReadAnswer>
    ensures whole { IfOk result (λ bytes. HasFile (Some (stored entries.now)) name.now bytes) }
    ensures fits { IfOk result (λ bytes. length bytes ≤ limit) }
    ensures absent { IsErrOf result reading.Absent → HasNoFile (Some (stored entries.now)) name.now }
    ensures too_long { IsErrOf result reading.TooLong → HasLongFile (Some (stored entries.now)) name.now limit }
    ensures sure { IsErrOf result reading.Failed → ⊥ }
{
    match find(entries, name) {
        None => Err(ReadAnswer::Absent),
        Some(bytes) => {
            if bytes.len() > limit {
                return Err(ReadAnswer::TooLong);
            }
            Ok(Bytes::from_vec(bytes.to_vec(alloc)?))
        }
    }
}
