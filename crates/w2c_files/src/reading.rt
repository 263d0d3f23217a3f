// Reads files one after another.
ghost use Rattle.std.specs.Prelude.{◌≡◌, ◌<◌, ◌≤◌, length, slice_get, Some, IfOk, IfErr, OnOk};
ghost use Rattle.std.specs.FinMap.{get};
ghost use Rattle.std.specs.List.{AllByRecursion};
ghost use Rattle.w2c_io.specs.Passed.{Passes};
ghost use Rattle.w2c_io.specs.Telling.{Tells};
ghost use Rattle.w2c_files.specs.declared.reading.ReadStop.TheVariants.{Memory as memory_wanted};
ghost use Rattle.w2c_files.specs.Passing.{ReadsAll, ReadsOne, ReadsSome};
ghost use Rattle.w2c_files.specs.Reading.{AreRead, total};
ghost use Rattle.w2c_files.specs.Stopping.{StopsAt, StopsFile};
ghost use Rattle.w2c_files.specs.Words.{names_of};

use std::alloc::{AllocFailed, Global};
use w2c_base::Bytes;
use w2c_io::{Files, ReadAnswer};

/// How many bytes each file may have, and how many all of them together.
#[derive(Clone, Copy, Debug, PartialEq, Eq)]
pub struct Limits {
    pub each: usize,
    pub all: usize,
}

/// Why files are not all read, with the number of the first that is not, counted from 0.
#[derive(Clone, Copy, Debug, PartialEq, Eq)]
pub enum ReadStop {
    /// It is not there, or cannot be read.
    Unread(usize),
    /// It has more bytes than a file may have.
    TooLong(usize),
    /// It passes the limit of all files together, at this place in it.
    Past(usize, usize),
    Memory,
}

impl<T: Drop> From<AllocFailed<T>> for ReadStop {
    ghost from_gives = { λ _ e. e ≡ memory_wanted };

    fn from(_: AllocFailed<T>) -> Self {
        ReadStop::Memory
    }
}

/// The bytes of each file, read in order until one cannot be read or passes a limit.
pub fn read_files<F: Files>(
    alloc: Global,
    names: &[&str],
    limits: Limits,
    files: &mut F,
) -> Result<Vec<Bytes>, ReadStop>
    ensures told { F.told files.new ≡ F.told files.old }
    ensures current { F.current files.new ≡ F.current files.old }
    ensures writes { F.write_faults files.new ≡ F.write_faults files.old }
    ensures later { F.read_faults files.old ≤ F.read_faults files.new }
    ensures kept { OnOk result (F.read_faults files.new ≡ F.read_faults files.old) }
    ensures read { IfOk result (λ all. Tells (F.told files.old) (λ contents. AreRead limits.each limits.all contents (names_of names.now) all.items)) }
    ensures many { IfOk result (λ all. length all.items ≡ length names.now) }
    ensures fit { IfOk result (λ all. AllByRecursion (λ bytes. length bytes ≤ limits.each) all.items) }
    ensures together { IfOk result (λ all. total all.items ≤ limits.all) }
    ensures stop { IfErr result (StopsAt limits.each limits.all (F.told files.old) (names_of names.now)
        (F.read_faults files.old) (F.read_faults files.new) (F.fault_name files.new)) }
    // What passed through the files, those of the system too: each was read once, in order, and gave these bytes.
    ensures passed { IfOk result (λ all. Passes (F.trace files.old) (F.trace files.new) (ReadsAll limits.each (names_of names.now) all.items)) }
    ensures tried { IfErr result (λ stop. Passes (F.trace files.old) (F.trace files.new)
        (ReadsSome limits.each limits.all (names_of names.now) stop)) }
{
    let mut all = Vec::new(alloc);
    let mut left = limits.all;
    for k in 0..names.len() {
        let name = name_at(names, k);
        let bytes = match read_file(alloc, name, k, limits.each, left, files) {
            Ok(bytes) => bytes,
            Err(stop) => return Err(stop),
        };
        left -= bytes.len();
        all.push(bytes)?;
    }
    Ok(all)
}

/// The name with a number, counted from 0.
pub fn name_at<'a>(names: &[&'a str], k: usize) -> &'a str
    requires { k < length names.now }
    ensures { slice_get (names_of names.now) k ≡ Some result.now }
{
    names[k]
}

// The file with a number, which may have so many bytes, and with those in front of it so many.
fn read_file<F: Files>(
    alloc: Global,
    name: &str,
    k: usize,
    each: usize,
    left: usize,
    files: &mut F,
) -> Result<Bytes, ReadStop>
    ensures told { F.told files.new ≡ F.told files.old }
    ensures current { F.current files.new ≡ F.current files.old }
    ensures writes { F.write_faults files.new ≡ F.write_faults files.old }
    ensures later { F.read_faults files.old ≤ F.read_faults files.new }
    ensures kept { OnOk result (F.read_faults files.new ≡ F.read_faults files.old) }
    ensures held { IfOk result (λ bytes. Tells (F.told files.old) (λ contents. get contents name.now ≡ Some bytes)) }
    ensures fit { IfOk result (λ bytes. length bytes ≤ each) }
    ensures room { IfOk result (λ bytes. length bytes ≤ left) }
    ensures stop { IfErr result (StopsFile each left (F.told files.old) name.now k
        (F.read_faults files.old) (F.read_faults files.new) (F.fault_name files.new)) }
    ensures passed { Passes (F.trace files.old) (F.trace files.new) (ReadsOne each left name.now k result) }
{
    match files.read(alloc, name, each) {
        Ok(bytes) => {
            if bytes.len() > left {
                Err(ReadStop::Past(k, left))
            } else {
                Ok(bytes)
            }
        }
        Err(ReadAnswer::Absent) => Err(ReadStop::Unread(k)),
        Err(ReadAnswer::Failed) => Err(ReadStop::Unread(k)),
        Err(ReadAnswer::TooLong) => Err(ReadStop::TooLong(k)),
        Err(ReadAnswer::Memory) => Err(ReadStop::Memory),
    }
}
