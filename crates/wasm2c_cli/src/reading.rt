// Reads the files that a line names.
ghost use Rattle.std.specs.Prelude.{◌≡◌, ◌<◌, ◌≤◌, length, slice_get, Some, IfOk, IfErr, OnOk, string_bytes};
ghost use Rattle.std.specs.List.{AllByRecursion};
ghost use Rattle.w2c_io.specs.Passed.{Passes};
ghost use Rattle.w2c_io.specs.Telling.{Tells};
ghost use Rattle.w2c_files.specs.Passing.{ReadsAll};
ghost use Rattle.w2c_files.specs.Reading.{AreRead, total};
ghost use Rattle.w2c_files.specs.Words.{names_of};
ghost use Rattle.wasm_tree.specs.Limits.{most_module_bytes};
ghost use Rattle.wasm2c_cli.specs.Parts.{IsAtFile, StopsAtRead, StopsReading};
ghost use Rattle.wasm2c_cli.specs.PartsPassing.{TriesReading};
ghost use Rattle.wasm2c_cli.specs.Plan.{most_set_bytes};

use crate::stop::{Reason, Stop};
use std::alloc::{AllocError, Global};
use w2c_base::{Bytes, MODULE_BYTES, SET_BYTES};
use w2c_files::{Limits, ReadStop, read_files};
use w2c_io::Files;
use wasm_spelling::Which;

/// The bytes of each file. Each has the limit of a module, and all together that of a set.
pub fn read_modules<F: Files>(
    alloc: Global,
    inputs: &[&str],
    files: &mut F,
) -> Result<Vec<Bytes>, Stop>
    ensures told { F.told files.new ≡ F.told files.old }
    ensures current { F.current files.new ≡ F.current files.old }
    ensures writes { F.write_faults files.new ≡ F.write_faults files.old }
    ensures later { F.read_faults files.old ≤ F.read_faults files.new }
    ensures kept { OnOk result (F.read_faults files.new ≡ F.read_faults files.old) }
    ensures read { IfOk result (λ all. Tells (F.told files.old)
        (λ contents. AreRead most_module_bytes most_set_bytes contents (names_of inputs.now) all.items)) }
    ensures many { IfOk result (λ all. length all.items ≡ length inputs.now) }
    ensures fit { IfOk result (λ all. AllByRecursion (λ bytes. length bytes ≤ most_module_bytes) all.items) }
    ensures together { IfOk result (λ all. total all.items ≤ most_set_bytes) }
    ensures stop { IfErr result (StopsReading (F.told files.old) (names_of inputs.now)
        (F.read_faults files.old) (F.read_faults files.new) (F.fault_name files.new)) }
    ensures passed { IfOk result (λ all. Passes (F.trace files.old) (F.trace files.new)
        (ReadsAll most_module_bytes (names_of inputs.now) all.items)) }
    ensures tried { IfErr result (λ stop. Passes (F.trace files.old) (F.trace files.new) (TriesReading (names_of inputs.now) stop)) }
{
    let limits = Limits {
        each: MODULE_BYTES,
        all: SET_BYTES,
    };
    match read_files(alloc, inputs, limits, files) {
        Ok(all) => Ok(all),
        Err(why) => Err(stop_for(alloc, inputs, why)),
    }
}

// Why the work stops where not all files are read.
fn stop_for(alloc: Global, inputs: &[&str], why: ReadStop) -> Stop
    requires { IsAtFile (names_of inputs.now) why }
    ensures { StopsAtRead why (names_of inputs.now) result }
{
    match why {
        ReadStop::Unread(k) => match named(alloc, inputs, k) {
            Ok(name) => Stop::Unread(name),
            Err(_) => Stop::Memory,
        },
        ReadStop::TooLong(k) => match named(alloc, inputs, k) {
            Ok(name) => Stop::Refused(name, Reason::Limit(MODULE_BYTES as u32, Which::ModuleBytes)),
            Err(_) => Stop::Memory,
        },
        ReadStop::Past(k, place) => match named(alloc, inputs, k) {
            Ok(name) => Stop::Refused(name, Reason::Limit(place as u32, Which::SetBytes)),
            Err(_) => Stop::Memory,
        },
        ReadStop::Memory => Stop::Memory,
    }
}

/// The name of the file with a number, counted from 0.
pub fn named(alloc: Global, inputs: &[&str], k: usize) -> Result<String, AllocError>
    requires { k < length inputs.now }
    ensures { IfOk result (λ name. slice_get (names_of inputs.now) k ≡ Some (string_bytes name)) }
{
    String::from_str(alloc, inputs[k])
}
