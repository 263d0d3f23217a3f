// The files of the system. They tell nothing of what they hold, and note each call with its answer.
ghost use Rattle.std.specs.Prelude.{◌≡◌, ◌≤◌, [], Some, None, IsSome, IfOk, OnOk, OnErr, IsErrOf, length};
ghost use Rattle.w2c_io.specs.Causes.{ReadCause, WriteCause, name_after_read, name_after_write};
ghost use Rattle.w2c_io.specs.declared.answers.ReadAnswer.TheVariants as reading;

use crate::reading::{read_answer, read_whole};
use crate::record::{Call, Record};
use crate::writing::{write_answer, write_piece};
use crate::{Files, ReadAnswer, WriteAnswer};
use std::alloc::Global;
use std::fs::File;
use std::io::Write;
use w2c_base::Bytes;

/// A file that was begun, and its name.
#[derive(Drop)]
pub struct Begun {
    file: File,
    name: String,
}

/// The files of the system. Each call that fails raises the count of its kind; a file that cannot
/// be opened, also one that is not there, is Failed.
#[derive(Drop)]
pub struct StdFiles<'a> {
    rt: &'a HostRuntime,
    alloc: Global,
    begun: Option<Begun>,
    read_faults: u64,
    write_faults: u64,
    fault_name: Option<String>,
    calls: Record,
}

impl<'a> StdFiles<'a> {
    ghost use Rattle.w2c_io.specs.Stored.{name_bytes, written_name};

    /// No file is current, and no call has failed.
    pub fn new(rt: &'a HostRuntime, alloc: Global) -> StdFiles<'a>
        ensures current { written_name result.begun ≡ None }
        ensures read_faults { result.read_faults ≡ 0 }
        ensures write_faults { result.write_faults ≡ 0 }
        ensures fault_name { name_bytes result.fault_name ≡ None }
        ensures trace { result.calls.events ≡ [] }
    {
        StdFiles {
            rt,
            alloc,
            begun: None,
            read_faults: 0,
            write_faults: 0,
            fault_name: None,
            calls: Record::new(),
        }
    }
}

// The whole file, or why it was not read. It is never Absent: the system does not say so.
fn read_file(rt: &HostRuntime, alloc: Global, name: &str, limit: usize) -> Result<Bytes, ReadAnswer>
    ensures fits { IfOk result (λ bytes. length bytes ≤ limit) }
    ensures not_absent { IsErrOf result reading.Absent → ⊥ }
{
    match File::open(rt, name) {
        Ok(mut file) => read_whole(alloc, &mut file, limit),
        Err(e) => Err(read_answer(&e)),
    }
}

impl Files for StdFiles<'_> {
    ghost use Rattle.w2c_io.specs.Stored.{name_bytes, written_name};

    ghost told = { λ s. None };

    ghost current = { λ s. written_name s.begun };

    ghost read_faults = { λ s. s.read_faults };

    ghost write_faults = { λ s. s.write_faults };

    ghost fault_name = { λ s. name_bytes s.fault_name };

    ghost trace = { λ s. s.calls.events };

    fn read(&mut self, alloc: Global, name: &str, limit: usize) -> Result<Bytes, ReadAnswer> {
        let result = self.read_now(alloc, name, limit);
        self.calls = self.calls.then(&Call::Read(name, limit, &result));
        result
    }

    fn begin(&mut self, name: &str) -> Result<(), WriteAnswer> {
        let result = self.begin_now(name);
        self.calls = self.calls.then(&Call::Begin(name, &result));
        result
    }

    fn put(&mut self, piece: &[u8]) -> Result<(), WriteAnswer> {
        let result = self.put_now(piece);
        self.calls = self.calls.then(&Call::Put(piece, &result));
        result
    }

    fn finish(&mut self) -> Result<(), WriteAnswer> {
        let result = self.finish_now();
        self.calls = self.calls.then(&Call::Finish(&result));
        result
    }
}

// Each call, before it is noted.
impl StdFiles<'_> {
    ghost use Rattle.w2c_io.specs.Stored.{name_bytes, written_name};

    fn read_now(&mut self, alloc: Global, name: &str, limit: usize) -> Result<Bytes, ReadAnswer>
        ensures fits { IfOk result (λ bytes. length bytes ≤ limit) }
        ensures absent { IsErrOf result reading.Absent → ⊥ }
        ensures current { written_name self.new.begun ≡ written_name self.old.begun }
        ensures cause { ReadCause self.old.read_faults self.new.read_faults result }
        ensures named { name_bytes self.new.fault_name ≡ name_after_read result (Some name.now) (name_bytes self.old.fault_name) }
        ensures writes { self.new.write_faults ≡ self.old.write_faults }
        ensures calls { self.new.calls ≡ self.old.calls }
    {
        let kept = String::from_str(self.alloc, name)?;
        match read_file(self.rt, alloc, name, limit) {
            Ok(bytes) => Ok(bytes),
            Err(ReadAnswer::Failed) => {
                self.fault_name = Some(kept);
                self.read_faults = self.read_faults.saturating_add(1);
                Err(ReadAnswer::Failed)
            }
            Err(answer) => Err(answer),
        }
    }

    fn begin_now(&mut self, name: &str) -> Result<(), WriteAnswer>
        ensures current { OnOk result (written_name self.new.begun ≡ Some name.now) }
        ensures none_current { OnErr result (written_name self.new.begun ≡ None) }
        ensures cause { WriteCause self.old.write_faults self.new.write_faults result }
        ensures named { name_bytes self.new.fault_name ≡ name_after_write result (Some name.now) (name_bytes self.old.fault_name) }
        ensures reads { self.new.read_faults ≡ self.old.read_faults }
        ensures calls { self.new.calls ≡ self.old.calls }
    {
        self.begun = None;
        let kept = String::from_str(self.alloc, name)?;
        match File::create(self.rt, name) {
            Ok(file) => {
                self.begun = Some(Begun { file, name: kept });
                Ok(())
            }
            Err(e) => {
                let answer = write_answer(&e);
                if answer == WriteAnswer::Failed {
                    self.fault_name = Some(kept);
                    self.write_faults = self.write_faults.saturating_add(1);
                }
                Err(answer)
            }
        }
    }

    fn put_now(&mut self, piece: &[u8]) -> Result<(), WriteAnswer>
        requires { IsSome (written_name self.old.begun) }
        ensures current { written_name self.new.begun ≡ written_name self.old.begun }
        ensures cause { WriteCause self.old.write_faults self.new.write_faults result }
        ensures named { name_bytes self.new.fault_name ≡ name_after_write result (written_name self.old.begun) (name_bytes self.old.fault_name) }
        ensures reads { self.new.read_faults ≡ self.old.read_faults }
        ensures calls { self.new.calls ≡ self.old.calls }
    {
        let Some(begun) = self.begun.take() else {
            return Err(WriteAnswer::Memory);
        };
        let Begun { mut file, name } = begun;
        let wrote = write_piece(&mut file, piece);
        match wrote {
            Ok(()) => {
                self.begun = Some(Begun { file, name });
                Ok(())
            }
            Err(WriteAnswer::Memory) => {
                self.begun = Some(Begun { file, name });
                Err(WriteAnswer::Memory)
            }
            Err(WriteAnswer::Failed) => {
                let kept = String::from_str(self.alloc, name.as_str());
                self.begun = Some(Begun { file, name });
                self.fault_name = Some(kept?);
                self.write_faults = self.write_faults.saturating_add(1);
                Err(WriteAnswer::Failed)
            }
        }
    }

    fn finish_now(&mut self) -> Result<(), WriteAnswer>
        requires { IsSome (written_name self.old.begun) }
        ensures none_current { written_name self.new.begun ≡ None }
        ensures cause { WriteCause self.old.write_faults self.new.write_faults result }
        ensures named { name_bytes self.new.fault_name ≡ name_after_write result (written_name self.old.begun) (name_bytes self.old.fault_name) }
        ensures reads { self.new.read_faults ≡ self.old.read_faults }
        ensures calls { self.new.calls ≡ self.old.calls }
    {
        let Some(begun) = self.begun.take() else {
            return Err(WriteAnswer::Memory);
        };
        let Begun { mut file, name } = begun;
        match file.flush() {
            Ok(()) => Ok(()),
            Err(_) => {
                self.fault_name = Some(name);
                self.write_faults = self.write_faults.saturating_add(1);
                Err(WriteAnswer::Failed)
            }
        }
    }
}
