// Writes a file whole, or gives it up.
ghost use Rattle.std.specs.Prelude.{◌≡◌, ◌≤◌, Some, None, IsSome, OnOk, OnErr, IfErr, IsErrOf};
ghost use Rattle.w2c_io.specs.declared.answers.WriteAnswer.TheVariants as writing;
ghost use Rattle.w2c_io.specs.Contents.{holding};
ghost use Rattle.w2c_io.specs.Causes.{WriteCause};
ghost use Rattle.w2c_io.specs.Passed.{Passes, WritesFile, BreaksOff, Finishes};
ghost use Rattle.w2c_files.specs.Standing.{IsBegun};

use w2c_io::{Files, WriteAnswer};

// How many bytes a put is given at most.
const PIECE: usize = 4096;

/// Writes a file: begins it, puts its text, and finishes it.
pub fn write_file<F: Files>(name: &str, text: &[u8], files: &mut F) -> Result<(), WriteAnswer>
    ensures whole { OnOk result (F.told files.new ≡ holding (F.told files.old) name.now text.now) }
    ensures begun { OnErr result (IsBegun (F.told files.old) (F.told files.new) name.now text.now) }
    ensures reads { F.read_faults files.new ≡ F.read_faults files.old }
    ensures cause { WriteCause (F.write_faults files.old) (F.write_faults files.new) result }
    ensures named { IsErrOf result writing.Failed → F.fault_name files.new ≡ Some name.now }
    // What passed through the files, those of the system too.
    ensures passed { OnOk result (Passes (F.trace files.old) (F.trace files.new) (WritesFile name.now text.now)) }
    ensures tried { IfErr result (λ why. Passes (F.trace files.old) (F.trace files.new) (BreaksOff name.now text.now why)) }
{
    files.begin(name)?;
    let mut rest = text;
    while !rest.is_empty() {
        let (piece, after) = rest.split_at(rest.len().min(PIECE));
        if let Err(answer) = files.put(piece) {
            give_up(files);
            return Err(answer);
        }
        rest = after;
    }
    files.finish()?;
    Ok(())
}

/// Ends the current file, of which a part is written. Left open it would take what the program writes to a standard
/// stream, where that was closed and the file has its descriptor.
pub fn give_up<F: Files>(files: &mut F)
    requires { IsSome (F.current files.old) }
    ensures told { F.told files.new ≡ F.told files.old }
    ensures closed { F.current files.new ≡ None }
    ensures later { F.write_faults files.old ≤ F.write_faults files.new }
    ensures named { F.fault_name files.old ≡ F.current files.old → F.fault_name files.new ≡ F.current files.old }
    ensures reads { F.read_faults files.new ≡ F.read_faults files.old }
    ensures passed { Passes (F.trace files.old) (F.trace files.new) Finishes }
{
    let _ = files.finish();
}
