// Files in memory. Chosen calls fail, and each call is noted with its answer.
ghost use Rattle.std.specs.Prelude.{◌≡◌, ◌≤◌, ◌⊎◌, ◌++◌, ◌∷◌, ◌/◌, take, ℕ, List, [], IsTrue, IsSome, Option, Some, None, OnOk, OnErr, MatchOption, IfOk, IsErrOf, length};
ghost use Rattle.std.specs.FinMap as map;
ghost use Rattle.w2c_io.specs.Contents.{holding, appending, HasFile, HasNoFile, HasLongFile, IsPrefix};
ghost use Rattle.w2c_io.specs.Causes.{ReadCause, WriteCause, name_after_read, name_after_write, count_after_read, count_after_write};
ghost use Rattle.w2c_io.specs.Events.{Read, Begin, Put, Finish};
ghost use Rattle.w2c_io.specs.declared.answers.ReadAnswer.TheVariants as reading;
ghost use Rattle.w2c_io.specs.declared.answers.WriteAnswer.TheVariants as writing;

use crate::plan::FaultPlan;
use crate::record::{Call, Record};
use crate::store::{Entry, add, add_copy, find, grow, newest_name};
use crate::sure_files::read_stored;
use crate::writing::first_half;
use crate::{Files, ReadAnswer, WriteAnswer};
use std::alloc::Global;
use w2c_base::{Bytes, Memory};

/// The kinds of calls that can be made to fail.
#[derive(Clone, Copy, Debug, PartialEq, Eq)]
pub enum FileCall {
    Read,
    Begin,
    Put,
    Finish,
}

/// Files in memory. A put that is to fail appends the first half of its piece, rounded down.
#[derive(Drop)]
pub struct MemFiles {
    alloc: Global,
    entries: Vec<Entry>,
    begun: bool,
    reads: FaultPlan,
    begins: FaultPlan,
    puts: FaultPlan,
    finishes: FaultPlan,
    read_faults: u64,
    write_faults: u64,
    fault_name: Option<String>,
    calls: Record,
}

impl MemFiles {
    ghost use Rattle.w2c_io.specs.declared.mem_files.FileCall.{FileCall};
    ghost use Rattle.w2c_io.specs.InMemory.{mem_contents, mem_told, mem_current, mem_read_faults, mem_write_faults, mem_fault_name, mem_trace, plan_of, PlansCall};

    /// No files, and no call is to fail.
    pub fn new(alloc: Global) -> Self
        ensures contents { mem_contents result ≡ map.empty }
        ensures calls { (call : FileCall) → (plan_of call result).calls ≡ 0 }
        ensures planned { (call : FileCall) → (plan_of call result).planned.items ≡ [] }
        ensures current { mem_current result ≡ None }
        ensures read_faults { mem_read_faults result ≡ 0 }
        ensures write_faults { mem_write_faults result ≡ 0 }
        ensures fault_name { mem_fault_name result ≡ None }
        ensures trace { mem_trace result ≡ [] }
    {
        MemFiles {
            alloc,
            entries: Vec::new(alloc),
            begun: false,
            reads: FaultPlan::new(alloc),
            begins: FaultPlan::new(alloc),
            puts: FaultPlan::new(alloc),
            finishes: FaultPlan::new(alloc),
            read_faults: 0,
            write_faults: 0,
            fault_name: None,
            calls: Record::new(),
        }
    }

    /// Adds a file, or replaces the one of this name; then no file is the current one.
    pub fn add(&mut self, name: &str, bytes: &[u8]) -> Result<(), Memory>
        ensures ok { OnOk result (mem_contents self.new ≡ map.insert (mem_contents self.old) name.now bytes.now) }
        ensures closed { OnOk result (mem_current self.new ≡ None) }
        ensures err { OnErr result (mem_contents self.new ≡ mem_contents self.old) }
        ensures current { OnErr result (mem_current self.new ≡ mem_current self.old) }
        ensures plans { (call : FileCall) → plan_of call self.new ≡ plan_of call self.old }
        ensures read_faults { mem_read_faults self.new ≡ mem_read_faults self.old }
        ensures write_faults { mem_write_faults self.new ≡ mem_write_faults self.old }
        ensures fault_name { mem_fault_name self.new ≡ mem_fault_name self.old }
        ensures trace { mem_trace self.new ≡ mem_trace self.old }
    {
        add_copy(self.alloc, &mut self.entries, &mut self.begun, name, bytes)
    }

    /// The bytes of a file, None where no file has the name.
    pub fn get(&self, name: &str) -> Option<&[u8]>
        ensures { MatchOption result (map.get (mem_contents self.now) name.now ≡ None)
            (λ bytes. map.get (mem_contents self.now) name.now ≡ Some bytes.now) }
    {
        find(self.entries.as_slice(), name)
    }

    /// The nth call of a kind fails, counted from 1.
    pub fn fail(&mut self, call: FileCall, nth: u64) -> Result<(), Memory>
        ensures ok { OnOk result (PlansCall call self.old self.new nth) }
        ensures err { OnErr result ((each : FileCall) → (plan_of each self.new).planned.items ≡ (plan_of each self.old).planned.items) }
        ensures calls { (each : FileCall) → (plan_of each self.new).calls ≡ (plan_of each self.old).calls }
        ensures contents { mem_contents self.new ≡ mem_contents self.old }
        ensures current { mem_current self.new ≡ mem_current self.old }
        ensures read_faults { mem_read_faults self.new ≡ mem_read_faults self.old }
        ensures write_faults { mem_write_faults self.new ≡ mem_write_faults self.old }
        ensures fault_name { mem_fault_name self.new ≡ mem_fault_name self.old }
        ensures trace { mem_trace self.new ≡ mem_trace self.old }
    {
        match call {
            FileCall::Read => self.reads.plan(nth)?,
            FileCall::Begin => self.begins.plan(nth)?,
            FileCall::Put => self.puts.plan(nth)?,
            FileCall::Finish => self.finishes.plan(nth)?,
        }
        Ok(())
    }
}

impl Files for MemFiles {
    ghost use Rattle.w2c_io.specs.declared.mem_files.FileCall.TheVariants as calls;
    ghost use Rattle.w2c_io.specs.InMemory.{mem_told, mem_current, mem_read_faults, mem_write_faults, mem_fault_name, mem_trace, plan_of, CountsCall};
    ghost use Rattle.w2c_io.specs.Planned.{is_planned};

    ghost told = { mem_told };

    ghost current = { mem_current };

    ghost read_faults = { mem_read_faults };

    ghost write_faults = { mem_write_faults };

    ghost fault_name = { mem_fault_name };

    ghost trace = { mem_trace };

    fn read(&mut self, alloc: Global, name: &str, limit: usize) -> Result<Bytes, ReadAnswer>
        ensures whole { IfOk result (λ bytes. HasFile (mem_told self.old) name.now bytes) }
        ensures fits { IfOk result (λ bytes. length bytes ≤ limit) }
        ensures absent { IsErrOf result reading.Absent → HasNoFile (mem_told self.old) name.now }
        ensures too_long { IsErrOf result reading.TooLong → HasLongFile (mem_told self.old) name.now limit }
        ensures told { mem_told self.new ≡ mem_told self.old }
        ensures current { mem_current self.new ≡ mem_current self.old }
        ensures cause { ReadCause (mem_read_faults self.old) (mem_read_faults self.new) result }
        ensures named { mem_fault_name self.new ≡ name_after_read result (Some name.now) (mem_fault_name self.old) }
        ensures writes { mem_write_faults self.new ≡ mem_write_faults self.old }
        ensures traced { mem_trace self.new ≡ mem_trace self.old ++ Read name.now limit result ∷ [] }

        // Exactly the planned calls fail, whatever the files hold, and each is counted.
        ensures only_planned { IsErrOf result reading.Failed → IsTrue (is_planned (plan_of calls.Read self.old)) }
        ensures all_planned { IsTrue (is_planned (plan_of calls.Read self.old))
            → IsErrOf result reading.Failed ⊎ IsErrOf result reading.Memory }
        ensures counted { CountsCall calls.Read self.old self.new }
        ensures faults { mem_read_faults self.new ≡ count_after_read result (mem_read_faults self.old) }
    {
        let result = self.read_now(alloc, name, limit);
        self.calls = self.calls.then(&Call::Read(name, limit, &result));
        result
    }

    fn begin(&mut self, name: &str) -> Result<(), WriteAnswer>
        ensures begun { OnOk result (mem_told self.new ≡ holding (mem_told self.old) name.now []) }
        ensures current { OnOk result (mem_current self.new ≡ Some name.now) }
        ensures untouched { OnErr result ((mem_told self.new ≡ mem_told self.old)
            ⊎ (mem_told self.new ≡ holding (mem_told self.old) name.now [])) }
        ensures none_current { OnErr result (mem_current self.new ≡ None) }
        ensures cause { WriteCause (mem_write_faults self.old) (mem_write_faults self.new) result }
        ensures named { mem_fault_name self.new ≡ name_after_write result (Some name.now) (mem_fault_name self.old) }
        ensures reads { mem_read_faults self.new ≡ mem_read_faults self.old }
        ensures traced { mem_trace self.new ≡ mem_trace self.old ++ Begin name.now result ∷ [] }

        // Exactly the planned calls fail, and each is counted.
        ensures only_planned { IsErrOf result writing.Failed → IsTrue (is_planned (plan_of calls.Begin self.old)) }
        ensures all_planned { IsTrue (is_planned (plan_of calls.Begin self.old)) → OnOk result ⊥ }
        ensures counted { CountsCall calls.Begin self.old self.new }
        ensures faults { mem_write_faults self.new ≡ count_after_write result (mem_write_faults self.old) }
    {
        let result = self.begin_now(name);
        self.calls = self.calls.then(&Call::Begin(name, &result));
        result
    }

    fn put(&mut self, piece: &[u8]) -> Result<(), WriteAnswer>
        requires { IsSome (mem_current self.old) }
        ensures written { OnOk result (mem_told self.new ≡ appending (mem_told self.old) (mem_current self.old) piece.now) }
        ensures part { OnErr result ((part : List ℕ) × IsPrefix part piece.now
            × (mem_told self.new ≡ appending (mem_told self.old) (mem_current self.old) part)) }
        ensures current { mem_current self.new ≡ mem_current self.old }
        ensures cause { WriteCause (mem_write_faults self.old) (mem_write_faults self.new) result }
        ensures named { mem_fault_name self.new ≡ name_after_write result (mem_current self.old) (mem_fault_name self.old) }
        ensures reads { mem_read_faults self.new ≡ mem_read_faults self.old }
        ensures traced { mem_trace self.new ≡ mem_trace self.old ++ Put piece.now result ∷ [] }

        // Exactly the planned calls fail, append the first half, and each is counted.
        ensures only_planned { IsErrOf result writing.Failed → IsTrue (is_planned (plan_of calls.Put self.old)) }
        ensures all_planned { IsTrue (is_planned (plan_of calls.Put self.old)) → OnOk result ⊥ }
        ensures counted { CountsCall calls.Put self.old self.new }
        ensures half { IsErrOf result writing.Failed
            → mem_told self.new ≡ appending (mem_told self.old) (mem_current self.old) (take (length piece.now / 2) piece.now) }
        ensures faults { mem_write_faults self.new ≡ count_after_write result (mem_write_faults self.old) }
    {
        let result = self.put_now(piece);
        self.calls = self.calls.then(&Call::Put(piece, &result));
        result
    }

    fn finish(&mut self) -> Result<(), WriteAnswer>
        requires { IsSome (mem_current self.old) }
        ensures told { mem_told self.new ≡ mem_told self.old }
        ensures none_current { mem_current self.new ≡ None }
        ensures cause { WriteCause (mem_write_faults self.old) (mem_write_faults self.new) result }
        ensures named { mem_fault_name self.new ≡ name_after_write result (mem_current self.old) (mem_fault_name self.old) }
        ensures reads { mem_read_faults self.new ≡ mem_read_faults self.old }
        ensures traced { mem_trace self.new ≡ mem_trace self.old ++ Finish result ∷ [] }

        // Exactly the planned calls fail, and each is counted.
        ensures only_planned { IsErrOf result writing.Failed → IsTrue (is_planned (plan_of calls.Finish self.old)) }
        ensures all_planned { IsTrue (is_planned (plan_of calls.Finish self.old)) → OnOk result ⊥ }
        ensures counted { CountsCall calls.Finish self.old self.new }
        ensures faults { mem_write_faults self.new ≡ count_after_write result (mem_write_faults self.old) }
    {
        let result = self.finish_now();
        self.calls = self.calls.then(&Call::Finish(&result));
        result
    }
}

// Each call, before it is noted.
impl MemFiles {
    ghost use Rattle.w2c_io.specs.declared.mem_files.FileCall.TheVariants as calls;
    ghost use Rattle.w2c_io.specs.InMemory.{mem_told, mem_current, mem_read_faults, mem_write_faults, mem_fault_name, plan_of, CountsCall};
    ghost use Rattle.w2c_io.specs.Planned.{is_planned};

    fn read_now(&mut self, alloc: Global, name: &str, limit: usize) -> Result<Bytes, ReadAnswer>
        ensures whole { IfOk result (λ bytes. HasFile (mem_told self.old) name.now bytes) }
        ensures fits { IfOk result (λ bytes. length bytes ≤ limit) }
        ensures absent { IsErrOf result reading.Absent → HasNoFile (mem_told self.old) name.now }
        ensures too_long { IsErrOf result reading.TooLong → HasLongFile (mem_told self.old) name.now limit }
        ensures told { mem_told self.new ≡ mem_told self.old }
        ensures current { mem_current self.new ≡ mem_current self.old }
        ensures cause { ReadCause (mem_read_faults self.old) (mem_read_faults self.new) result }
        ensures named { mem_fault_name self.new ≡ name_after_read result (Some name.now) (mem_fault_name self.old) }
        ensures writes { mem_write_faults self.new ≡ mem_write_faults self.old }
        // Exactly the planned calls fail, whatever the files hold, and each is counted.
        ensures only_planned { IsErrOf result reading.Failed → IsTrue (is_planned (plan_of calls.Read self.old)) }
        ensures all_planned { IsTrue (is_planned (plan_of calls.Read self.old))
            → IsErrOf result reading.Failed ⊎ IsErrOf result reading.Memory }
        ensures counted { CountsCall calls.Read self.old self.new }
        ensures faults { mem_read_faults self.new ≡ count_after_read result (mem_read_faults self.old) }
        ensures trace { self.new.calls ≡ self.old.calls }
    {
        if self.reads.call() {
            let name = String::from_str(self.alloc, name)?;
            self.fault_name = Some(name);
            self.read_faults = self.read_faults.saturating_add(1);
            return Err(ReadAnswer::Failed);
        }
        Ok(read_stored(alloc, self.entries.as_slice(), name, limit)?)
    }

    fn begin_now(&mut self, name: &str) -> Result<(), WriteAnswer>
        ensures begun { OnOk result (mem_told self.new ≡ holding (mem_told self.old) name.now []) }
        ensures current { OnOk result (mem_current self.new ≡ Some name.now) }
        ensures untouched { OnErr result ((mem_told self.new ≡ mem_told self.old)
            ⊎ (mem_told self.new ≡ holding (mem_told self.old) name.now [])) }
        ensures none_current { OnErr result (mem_current self.new ≡ None) }
        ensures cause { WriteCause (mem_write_faults self.old) (mem_write_faults self.new) result }
        ensures named { mem_fault_name self.new ≡ name_after_write result (Some name.now) (mem_fault_name self.old) }
        ensures reads { mem_read_faults self.new ≡ mem_read_faults self.old }
        // Exactly the planned calls fail, and each is counted.
        ensures only_planned { IsErrOf result writing.Failed → IsTrue (is_planned (plan_of calls.Begin self.old)) }
        ensures all_planned { IsTrue (is_planned (plan_of calls.Begin self.old)) → OnOk result ⊥ }
        ensures counted { CountsCall calls.Begin self.old self.new }
        ensures faults { mem_write_faults self.new ≡ count_after_write result (mem_write_faults self.old) }
        ensures trace { self.new.calls ≡ self.old.calls }
    {
        self.begun = false;
        let fails = self.begins.call();
        let name = String::from_str(self.alloc, name)?;
        if fails {
            self.fault_name = Some(name);
            self.write_faults = self.write_faults.saturating_add(1);
            return Err(WriteAnswer::Failed);
        }
        add(&mut self.entries, name, Vec::new(self.alloc))?;
        self.begun = true;
        Ok(())
    }

    fn put_now(&mut self, piece: &[u8]) -> Result<(), WriteAnswer>
        requires { IsSome (mem_current self.old) }
        ensures written { OnOk result (mem_told self.new ≡ appending (mem_told self.old) (mem_current self.old) piece.now) }
        ensures part { OnErr result ((part : List ℕ) × IsPrefix part piece.now
            × (mem_told self.new ≡ appending (mem_told self.old) (mem_current self.old) part)) }
        ensures current { mem_current self.new ≡ mem_current self.old }
        ensures cause { WriteCause (mem_write_faults self.old) (mem_write_faults self.new) result }
        ensures named { mem_fault_name self.new ≡ name_after_write result (mem_current self.old) (mem_fault_name self.old) }
        ensures reads { mem_read_faults self.new ≡ mem_read_faults self.old }
        // Exactly the planned calls fail, append the first half, and each is counted.
        ensures only_planned { IsErrOf result writing.Failed → IsTrue (is_planned (plan_of calls.Put self.old)) }
        ensures all_planned { IsTrue (is_planned (plan_of calls.Put self.old)) → OnOk result ⊥ }
        ensures counted { CountsCall calls.Put self.old self.new }
        ensures half { IsErrOf result writing.Failed
            → mem_told self.new ≡ appending (mem_told self.old) (mem_current self.old) (take (length piece.now / 2) piece.now) }
        ensures faults { mem_write_faults self.new ≡ count_after_write result (mem_write_faults self.old) }
        ensures trace { self.new.calls ≡ self.old.calls }
    {
        if self.puts.call() {
            let name = newest_name(self.alloc, self.entries.as_slice())?;
            let half = first_half(piece);
            grow(&mut self.entries, half)?;
            self.fault_name = Some(name);
            self.write_faults = self.write_faults.saturating_add(1);
            return Err(WriteAnswer::Failed);
        }
        grow(&mut self.entries, piece)?;
        Ok(())
    }

    fn finish_now(&mut self) -> Result<(), WriteAnswer>
        requires { IsSome (mem_current self.old) }
        ensures told { mem_told self.new ≡ mem_told self.old }
        ensures none_current { mem_current self.new ≡ None }
        ensures cause { WriteCause (mem_write_faults self.old) (mem_write_faults self.new) result }
        ensures named { mem_fault_name self.new ≡ name_after_write result (mem_current self.old) (mem_fault_name self.old) }
        ensures reads { mem_read_faults self.new ≡ mem_read_faults self.old }
        // Exactly the planned calls fail, and each is counted.
        ensures only_planned { IsErrOf result writing.Failed → IsTrue (is_planned (plan_of calls.Finish self.old)) }
        ensures all_planned { IsTrue (is_planned (plan_of calls.Finish self.old)) → OnOk result ⊥ }
        ensures counted { CountsCall calls.Finish self.old self.new }
        ensures faults { mem_write_faults self.new ≡ count_after_write result (mem_write_faults self.old) }
        ensures trace { self.new.calls ≡ self.old.calls }
    {
        self.begun = false;
        if self.finishes.call() {
            let name = newest_name(self.alloc, self.entries.as_slice())?;
            self.fault_name = Some(name);
            self.write_faults = self.write_faults.saturating_add(1);
            return Err(WriteAnswer::Failed);
        }
        Ok(())
    }
}
