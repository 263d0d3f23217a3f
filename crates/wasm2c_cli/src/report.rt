// The line on the error stream, and the status.
ghost use Rattle.std.specs.Prelude.{◌≡◌, ◌⊎◌, ◌++◌, codes, decimal, IfOk, OnOk, string_bytes};
ghost use Rattle.w2c_io.specs.Telling.{Says, SaysPart};
ghost use Rattle.wasm2c_cli.specs.Lines.{line_for, reason_text, refused_line, status_of, summary_line};
ghost use Rattle.wasm2c_cli.specs.Parts.{SumsUp, SumsUpPart};

use crate::stop::{Reason, Stop};
use crate::work::Finished;
use program_words::{put_counted, say};
use std::alloc::Global;
use w2c_base::{Bytes, Memory};
use w2c_io::Sink;

/// Says why the work stopped, and gives the status.
pub fn report<E: Sink>(alloc: Global, stop: Stop, err: &mut E) -> u8
    ensures status { (result ≡ status_of stop) ⊎ (result ≡ 5) }
    ensures says { (result ≡ status_of stop) → Says (E.told err.old) (E.told err.new) (E.faults err.old) (E.faults err.new) (line_for stop) ⊎ (result ≡ 5) }
    ensures part { SaysPart (E.told err.old) (E.told err.new) (line_for stop) }
{
    say(line_of(alloc, &stop), status(&stop), err)
}

/// Says what was generated, where a module was, and gives the status.
pub fn summarize<E: Sink>(alloc: Global, finished: Finished, err: &mut E) -> u8
    ensures status { (result ≡ 0) ⊎ (result ≡ 5) }
    ensures says { result ≡ 0 → SumsUp (E.told err.old) (E.told err.new) (E.faults err.old) (E.faults err.new) finished }
    ensures part { SumsUpPart (E.told err.old) (E.told err.new) finished }
{
    let Finished::Generated(count, bytes) = finished else {
        return 0;
    };
    say(summary(alloc, count, bytes), 0, err)
}

fn summary(alloc: Global, count: u32, bytes: usize) -> Result<Bytes, Memory>
    ensures { IfOk result (λ line. line ≡ summary_line count bytes) }
{
    let mut line = Bytes::new(alloc);
    put_counted(&mut line, b"wasm2c: gen ", u64::from(count))?;
    put_counted(&mut line, b": ", bytes as u64)?;
    put_counted(&mut line, b" bytes, ", u64::from(count))?;
    line.extend(b" functions\n")?;
    Ok(line)
}

fn status(stop: &Stop) -> u8
    ensures { result ≡ status_of stop.now }
{
    match stop {
        Stop::Usage => 2,
        Stop::Refused(_, _) => 1,
        Stop::Unread(_) => 3,
        Stop::Unwritten(_) => 4,
        Stop::Memory => 5,
    }
}

fn line_of(alloc: Global, stop: &Stop) -> Result<Bytes, Memory>
    ensures { IfOk result (λ line. line ≡ line_for stop.now) }
{
    let mut line = Bytes::new(alloc);
    put_stop(&mut line, stop)?;
    Ok(line)
}

fn put_stop(line: &mut Bytes, stop: &Stop) -> Result<(), Memory>
    ensures { OnOk result (line.new ≡ line.old ++ line_for stop.now) }
{
    match stop {
        Stop::Usage => line.extend(b"wasm2c: bad command line\n"),
        Stop::Refused(name, reason) => put_refused(line, name, *reason),
        Stop::Unread(name) => put_named(line, name, b": read fault\n"),
        Stop::Unwritten(name) => put_named(line, name, b": write fault\n"),
        Stop::Memory => line.extend(b"wasm2c: want of memory\n"),
    }
}

fn put_refused(line: &mut Bytes, name: &String, reason: Reason) -> Result<(), Memory>
    ensures { OnOk result (line.new ≡ line.old ++ refused_line (string_bytes name.now) reason) }
{
    put_named(line, name, b": ")?;
    put_reason(line, reason)?;
    line.extend(b"\n")
}

fn put_reason(line: &mut Bytes, reason: Reason) -> Result<(), Memory>
    ensures { OnOk result (line.new ≡ line.old ++ reason_text reason) }
{
    match reason {
        Reason::Malformed(place, cause) => put_placed(line, b"malformed at ", place, cause.text()),
        Reason::Float(place) => put_counted(line, b"float at ", u64::from(place)),
        Reason::Limit(place, which) => put_placed(line, b"limit at ", place, which.text()),
        Reason::Invalid(place, cause) => put_placed(line, b"invalid at ", place, cause.text()),
    }
}

fn put_placed(line: &mut Bytes, what: &[u8], place: u32, text: &str) -> Result<(), Memory>
    ensures { OnOk result (line.new ≡ line.old ++ (what.now ++ decimal place ++ codes ": " ++ text.now)) }
{
    put_counted(line, what, u64::from(place))?;
    line.extend(b": ")?;
    line.extend(text.as_bytes())
}

fn put_named(line: &mut Bytes, name: &String, end: &[u8]) -> Result<(), Memory>
    ensures { OnOk result (line.new ≡ line.old ++ (codes "wasm2c: " ++ string_bytes name.now ++ end.now)) }
{
    line.extend(b"wasm2c: ")?;
    line.extend(name.as_bytes())?;
    line.extend(end)
}
