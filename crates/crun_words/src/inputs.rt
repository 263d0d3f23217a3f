// Reads the files that a line names.
ghost use Rattle.std.specs.Prelude.{◌≡◌, ◌∷◌, ◌<◌, ◌≤◌, [], length, slice_get, Ok, Some, IfOk, IfErr, string_bytes, OnOk};
ghost use Rattle.std.specs.FinMap.{get};
ghost use Rattle.std.specs.List.{AllByRecursion};
ghost use Rattle.w2c_io.specs.Events.{Read};
ghost use Rattle.w2c_io.specs.Passed.{Passes};
ghost use Rattle.w2c_io.specs.Telling.{Tells};
ghost use Rattle.w2c_files.specs.Words.{names_of};
ghost use Rattle.crun_words.specs.declared.inputs.InputStop.TheVariants.{Memory as memory_wanted};
ghost use Rattle.crun_words.specs.declared.inputs.FileStop.TheVariants.{Memory as file_memory_wanted};
ghost use Rattle.crun_words.specs.Inputs.{most_calls_bytes, most_journal_bytes, most_unit_bytes, AllRead, AreInputs, AreUnits, Held, StopsCalls, StopsFile, StopsInputs, StopsJournal, StopsUnits, UnitsRead};
ghost use Rattle.crun_words.specs.Passing.{GivesInputs, GivesJournal, GivesUnits, TriesCalls, TriesFile, TriesInputs, TriesJournal, TriesUnits};

use crate::line::UNITS;
use c_tree::UNIT_BYTES;
use std::alloc::{AllocError, Global};
use w2c_base::Bytes;
use w2c_files::{Limits, ReadStop, name_at, read_files};
use w2c_io::{Files, ReadAnswer};

// The most bytes of a calls file.
const CALLS_BYTES: usize = 1_048_576;

// The most bytes of a journal's file.
const JOURNAL_BYTES: usize = 67_108_864;

/// The bytes of the units' files, in the order of the words, and of the calls file.
#[derive(Drop)]
pub struct Inputs {
    pub units: Vec<Bytes>,
    pub calls: Bytes,
}

/// Why the files are not all read.
#[derive(Debug, Drop)]
pub enum InputStop {
    /// The file of this name is not there, or cannot be read.
    Unread(String),
    /// The unit of this name has more than 67,108,864 bytes.
    UnitTooLong(String),
    /// The calls file has more than 1,048,576 bytes.
    CallsTooLong,
    /// The file of a journal has more than 67,108,864 bytes.
    JournalTooLong,
    Memory,
}

impl From<AllocError> for InputStop {
    ghost from_gives = { λ _ e. e ≡ memory_wanted };

    fn from(_: AllocError) -> Self {
        InputStop::Memory
    }
}

/// The bytes of the files of 16 units at most, one after another, and then of the calls file; or why the first that is
/// not read is not.
pub fn read_inputs<F: Files>(
    alloc: Global,
    units: &[&str],
    calls: &str,
    files: &mut F,
) -> Result<Inputs, InputStop>
    requires { length units.now ≤ 16 }
    ensures told { F.told files.new ≡ F.told files.old }
    ensures current { F.current files.new ≡ F.current files.old }
    ensures writes { F.write_faults files.new ≡ F.write_faults files.old }
    ensures later { F.read_faults files.old ≤ F.read_faults files.new }
    ensures kept { OnOk result (F.read_faults files.new ≡ F.read_faults files.old) }
    ensures read { IfOk result (λ inputs. Tells (F.told files.old)
        (λ contents. AreInputs contents (names_of units.now) calls.now inputs.units.items inputs.calls)) }
    ensures many { IfOk result (λ inputs. length inputs.units.items ≡ length units.now) }
    ensures units_fit { IfOk result (λ inputs. AllByRecursion (λ text. length text ≤ most_unit_bytes) inputs.units.items) }
    ensures calls_fit { IfOk result (λ inputs. length inputs.calls ≤ most_calls_bytes) }
    ensures stop { IfErr result (StopsInputs (F.told files.old) (names_of units.now) calls.now
        (F.read_faults files.old) (F.read_faults files.new) (F.fault_name files.new)) }
    // What passed through the files, those of the system too.
    ensures passed { IfOk result (λ inputs. Passes (F.trace files.old) (F.trace files.new)
        (GivesInputs (names_of units.now) calls.now (AllRead inputs.units.items inputs.calls))) }
    ensures tried { IfErr result (λ stop. Passes (F.trace files.old) (F.trace files.new)
        (TriesInputs (names_of units.now) calls.now stop)) }
{
    let texts = match read_units(alloc, units, files) {
        Ok(texts) => texts,
        Err(stop) => return Err(stop),
    };
    let text = match read_calls(alloc, calls, files) {
        Ok(text) => text,
        Err(stop) => return Err(stop),
    };
    Ok(Inputs {
        units: texts,
        calls: text,
    })
}

/// The bytes of the files of 16 units at most, one after another, each 67,108,864 at most; or why the first that is not
/// read is not: it is not there or cannot be read (`Unread`), it has more bytes (`UnitTooLong`), or memory is wanting.
pub fn read_units<F: Files>(
    alloc: Global,
    units: &[&str],
    files: &mut F,
) -> Result<Vec<Bytes>, InputStop>
    requires { length units.now ≤ 16 }
    ensures told { F.told files.new ≡ F.told files.old }
    ensures current { F.current files.new ≡ F.current files.old }
    ensures writes { F.write_faults files.new ≡ F.write_faults files.old }
    ensures later { F.read_faults files.old ≤ F.read_faults files.new }
    ensures kept { OnOk result (F.read_faults files.new ≡ F.read_faults files.old) }
    ensures read { IfOk result (λ all. Tells (F.told files.old) (λ contents. AreUnits contents (names_of units.now) all.items)) }
    ensures many { IfOk result (λ all. length all.items ≡ length units.now) }
    ensures fit { IfOk result (λ all. AllByRecursion (λ text. length text ≤ most_unit_bytes) all.items) }
    ensures stop { IfErr result (StopsUnits (F.told files.old) (names_of units.now)
        (F.read_faults files.old) (F.read_faults files.new) (F.fault_name files.new)) }
    ensures passed { IfOk result (λ all. Passes (F.trace files.old) (F.trace files.new)
        (GivesUnits (names_of units.now) (UnitsRead all.items))) }
    ensures tried { IfErr result (λ stop. Passes (F.trace files.old) (F.trace files.new) (TriesUnits (names_of units.now) stop)) }
{
    // No 16 units pass the second limit.
    let limits = Limits {
        each: UNIT_BYTES,
        all: UNITS * UNIT_BYTES,
    };
    match read_files(alloc, units, limits, files) {
        Ok(all) => Ok(all),
        Err(ReadStop::Unread(k)) => Err(InputStop::Unread(named(alloc, units, k)?)),
        Err(ReadStop::TooLong(k)) => Err(InputStop::UnitTooLong(named(alloc, units, k)?)),
        Err(ReadStop::Past(k, place)) => {
            let _ = place;
            Err(InputStop::UnitTooLong(named(alloc, units, k)?))
        }
        Err(ReadStop::Memory) => Err(InputStop::Memory),
    }
}

// The name of the unit with a number, counted from 0.
fn named(alloc: Global, units: &[&str], k: usize) -> Result<String, AllocError>
    requires { k < length units.now }
    ensures { IfOk result (λ name. slice_get (names_of units.now) k ≡ Some (string_bytes name)) }
{
    String::from_str(alloc, name_at(units, k))
}

fn read_calls<F: Files>(alloc: Global, calls: &str, files: &mut F) -> Result<Bytes, InputStop>
    ensures told { F.told files.new ≡ F.told files.old }
    ensures current { F.current files.new ≡ F.current files.old }
    ensures writes { F.write_faults files.new ≡ F.write_faults files.old }
    ensures later { F.read_faults files.old ≤ F.read_faults files.new }
    ensures kept { OnOk result (F.read_faults files.new ≡ F.read_faults files.old) }
    ensures read { IfOk result (λ text. Tells (F.told files.old) (λ contents. get contents calls.now ≡ Some text)) }
    ensures fit { IfOk result (λ text. length text ≤ most_calls_bytes) }
    ensures stop { IfErr result (StopsCalls (F.told files.old) calls.now
        (F.read_faults files.old) (F.read_faults files.new) (F.fault_name files.new)) }
    ensures passed { IfOk result (λ text. Passes (F.trace files.old) (F.trace files.new)
        (λ events. events ≡ Read calls.now most_calls_bytes (Ok text) ∷ [])) }
    ensures tried { IfErr result (λ stop. Passes (F.trace files.old) (F.trace files.new) (TriesCalls calls.now stop)) }
{
    match read_file(alloc, calls, CALLS_BYTES, files) {
        Ok(text) => Ok(text),
        Err(FileStop::Unread(name)) => Err(InputStop::Unread(name)),
        Err(FileStop::TooLong) => Err(InputStop::CallsTooLong),
        Err(FileStop::Memory) => Err(InputStop::Memory),
    }
}

/// The bytes of a journal's file, 67,108,864 at most; or why they are not read: it is not there or cannot be read
/// (`Unread`), it has more bytes (`JournalTooLong`), or memory is wanting.
pub fn read_journal_file<F: Files>(
    alloc: Global,
    name: &str,
    files: &mut F,
) -> Result<Bytes, InputStop>
    ensures told { F.told files.new ≡ F.told files.old }
    ensures current { F.current files.new ≡ F.current files.old }
    ensures writes { F.write_faults files.new ≡ F.write_faults files.old }
    ensures later { F.read_faults files.old ≤ F.read_faults files.new }
    ensures kept { OnOk result (F.read_faults files.new ≡ F.read_faults files.old) }
    ensures read { IfOk result (λ text. Tells (F.told files.old) (λ contents. get contents name.now ≡ Some text)) }
    ensures fit { IfOk result (λ text. length text ≤ most_journal_bytes) }
    ensures stop { IfErr result (StopsJournal (F.told files.old) name.now
        (F.read_faults files.old) (F.read_faults files.new) (F.fault_name files.new)) }
    ensures passed { IfOk result (λ text. Passes (F.trace files.old) (F.trace files.new) (GivesJournal name.now (Held text))) }
    ensures tried { IfErr result (λ stop. Passes (F.trace files.old) (F.trace files.new) (TriesJournal name.now stop)) }
{
    match read_file(alloc, name, JOURNAL_BYTES, files) {
        Ok(text) => Ok(text),
        Err(FileStop::Unread(name)) => Err(InputStop::Unread(name)),
        Err(FileStop::TooLong) => Err(InputStop::JournalTooLong),
        Err(FileStop::Memory) => Err(InputStop::Memory),
    }
}

// Why one file is not read.
#[derive(Drop)]
enum FileStop {
    Unread(String),
    TooLong,
    Memory,
}

impl From<AllocError> for FileStop {
    ghost from_gives = { λ _ e. e ≡ file_memory_wanted };

    fn from(_: AllocError) -> Self {
        FileStop::Memory
    }
}

// The bytes of one file, which may have so many.
fn read_file<F: Files>(
    alloc: Global,
    name: &str,
    most: usize,
    files: &mut F,
) -> Result<Bytes, FileStop>
    ensures told { F.told files.new ≡ F.told files.old }
    ensures current { F.current files.new ≡ F.current files.old }
    ensures writes { F.write_faults files.new ≡ F.write_faults files.old }
    ensures later { F.read_faults files.old ≤ F.read_faults files.new }
    ensures kept { OnOk result (F.read_faults files.new ≡ F.read_faults files.old) }
    ensures read { IfOk result (λ text. Tells (F.told files.old) (λ contents. get contents name.now ≡ Some text)) }
    ensures fit { IfOk result (λ text. length text ≤ most) }
    ensures stop { IfErr result (StopsFile most (F.told files.old) name.now
        (F.read_faults files.old) (F.read_faults files.new) (F.fault_name files.new)) }
    ensures passed { IfOk result (λ text. Passes (F.trace files.old) (F.trace files.new)
        (λ events. events ≡ Read name.now most (Ok text) ∷ [])) }
    ensures tried { IfErr result (λ stop. Passes (F.trace files.old) (F.trace files.new) (TriesFile most name.now stop)) }
{
    match files.read(alloc, name, most) {
        Ok(text) => Ok(text),
        Err(ReadAnswer::Absent) => Err(FileStop::Unread(String::from_str(alloc, name)?)),
        Err(ReadAnswer::Failed) => Err(FileStop::Unread(String::from_str(alloc, name)?)),
        Err(ReadAnswer::TooLong) => Err(FileStop::TooLong),
        Err(ReadAnswer::Memory) => Err(FileStop::Memory),
    }
}
