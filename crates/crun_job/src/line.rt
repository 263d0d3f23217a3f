// The line on the error stream, and the status.
ghost use Rattle.std.specs.Prelude.{◌≡◌, ◌⊎◌, ◌++◌, codes, IfOk, OnOk, string_bytes};
ghost use Rattle.w2c_io.specs.Telling.{Says, SaysPart};
ghost use Rattle.crun_job.specs.declared.stop.Cause.TheVariants as WhichCause;
ghost use Rattle.crun_job.specs.Lines.{cause_text, error_line, part_text, reason_text, status_of, token_text, wanted_text};
ghost use Rattle.crun_job.specs.Seen.{reason_of};

use crate::stop::{Cause, Stop};
use c_tree::{Part, Tok, Wanted};
use program_words::{put_counted, say};
use std::alloc::Global;
use w2c_base::{Bytes, Memory};
use w2c_io::Sink;

/// Says why the program stops, in one line, and gives the status. A line that is not written whole
/// leaves the status; where memory is wanting for it, that is 5.
pub fn report<E: Sink>(alloc: Global, stop: &Stop, err: &mut E) -> u8
    ensures status { (result ≡ status_of (reason_of stop.now)) ⊎ (result ≡ 5) }
    ensures says { Says (E.told err.old) (E.told err.new) (E.faults err.old) (E.faults err.new) (error_line (reason_of stop.now)) ⊎ (result ≡ 5) }
    ensures part { SaysPart (E.told err.old) (E.told err.new) (error_line (reason_of stop.now)) }
{
    say(stop.line(alloc), stop.status(), err)
}

impl Stop {
    /// The program's exit status: 2 for words without a reading, for the calls file and for a journal, 3 for a
    /// file that is not read, 4 for a line of the run or a file that is not written, 5 for want of memory, 6 for
    /// a unit that is refused.
    pub fn status(&self) -> u8
        ensures { result ≡ status_of (reason_of self.now) }
    {
        match self {
            Stop::Usage | Stop::CallsTooLong | Stop::CallsLine(_) => 2,
            Stop::JournalTooLong | Stop::JournalLine(_) => 2,
            Stop::Unread(_) => 3,
            Stop::Unwritten => 4,
            Stop::Memory => 5,
            Stop::Refused(_, _) => 6,
        }
    }

    /// The one line that says it, with the newline.
    pub fn line(&self, alloc: Global) -> Result<Bytes, Memory>
        ensures { IfOk result (λ line. line ≡ error_line (reason_of self.now)) }
    {
        let mut line = Bytes::new(alloc);
        line.extend(b"crun: ")?;
        put_reason(&mut line, self)?;
        line.push(b'\n')?;
        Ok(line)
    }
}

fn put_reason(line: &mut Bytes, stop: &Stop) -> Result<(), Memory>
    ensures { OnOk result (line.new ≡ line.old ++ reason_text (reason_of stop.now)) }
{
    match stop {
        Stop::Usage => line.extend(b"bad command line"),
        Stop::CallsTooLong => line.extend(b"calls file too long"),
        Stop::CallsLine(number) => put_counted(line, b"calls line ", *number as u64),
        Stop::JournalTooLong => line.extend(b"journal too long"),
        Stop::JournalLine(number) => put_counted(line, b"journal line ", u64::from(*number)),
        Stop::Refused(name, cause) => put_refusal(line, name, cause),
        Stop::Unread(name) => {
            line.extend(name.as_bytes())?;
            line.extend(b": read fault")
        }
        Stop::Unwritten => line.extend(b"write fault"),
        Stop::Memory => line.extend(b"want of memory"),
    }
}

fn put_refusal(line: &mut Bytes, name: &String, cause: &Cause) -> Result<(), Memory>
    ensures { OnOk result (line.new ≡ line.old ++ (string_bytes name.now ++ codes ": " ++ cause_text cause.now)) }
{
    line.extend(name.as_bytes())?;
    line.extend(b": ")?;
    put_cause(line, cause)
}

fn put_cause(line: &mut Bytes, cause: &Cause) -> Result<(), Memory>
    ensures { OnOk result (line.new ≡ line.old ++ cause_text cause.now) }
{
    match cause {
        Cause::TooLong => line.extend(b"unit too long"),
        Cause::Unexpected(place, wanted) => put_unexpected(line, *place, *wanted),
        Cause::NumberTooLarge(place) => put_counted(line, b"number too large at ", *place),
        Cause::TooDeep(place) => put_counted(line, b"too deep at ", *place),
        Cause::Rule(item, statement, rule) => put_rule(line, *item, *statement, *rule),
        Cause::Undefined(symbol) => put_two(line, b"undefined ", symbol.as_slice()),
        Cause::Twice(symbol) => put_two(line, b"twice ", symbol.as_slice()),
        Cause::TypeDiffers(symbol) => put_two(line, b"type differs ", symbol.as_slice()),
    }
}

fn put_unexpected(line: &mut Bytes, place: u64, wanted: Wanted) -> Result<(), Memory>
    ensures { OnOk result (line.new ≡ line.old ++ cause_text (WhichCause.Unexpected place wanted)) }
{
    put_counted(line, b"unexpected at ", place)?;
    put_two(line, b": wanted ", text_of_wanted(wanted))
}

fn put_rule(line: &mut Bytes, item: usize, statement: usize, rule: u32) -> Result<(), Memory>
    ensures { OnOk result (line.new ≡ line.old ++ cause_text (WhichCause.Rule item statement rule)) }
{
    put_counted(line, b"rule ", u64::from(rule))?;
    put_counted(line, b" item ", item as u64)?;
    put_counted(line, b" statement ", statement as u64)
}

fn put_two(line: &mut Bytes, first: &[u8], second: &[u8]) -> Result<(), Memory>
    ensures { OnOk result (line.new ≡ line.old ++ (first.now ++ second.now)) }
{
    line.extend(first)?;
    line.extend(second)
}

fn text_of_wanted(wanted: Wanted) -> &'static [u8]
    ensures { result.now ≡ wanted_text wanted }
{
    match wanted {
        Wanted::Token(token) => text_of_token(token),
        Wanted::Part(part) => text_of_part(part),
    }
}

fn text_of_token(token: Tok) -> &'static [u8]
    ensures { result.now ≡ token_text token }
{
    match token {
        Tok::Include => b"include line",
        Tok::End => b"end",
        Tok::Name => b"name",
        Tok::Plain => b"plain number",
        other => other.text(),
    }
}

fn text_of_part(part: Part) -> &'static [u8]
    ensures { result.now ≡ part_text part }
{
    match part {
        Part::InUnit => b"unit",
        Part::InItems => b"items",
        Part::InItem => b"item",
        Part::InInner => b"inner",
        Part::InMore => b"more",
        Part::InRest => b"rest",
        Part::InType => b"type",
        Part::InStar => b"star",
        Part::InFunction => b"function",
        Part::InParameters => b"parameters",
        Part::InPname => b"pname",
        Part::InPtail => b"ptail",
        Part::InClose => b"close",
        Part::InBody => b"body",
        Part::InDeclaration => b"declaration",
        Part::InStatements => b"statements",
        Part::InStatement => b"statement",
        Part::InAfter => b"after",
        Part::InRight => b"right",
        Part::InRname => b"rname",
        Part::InRgroup => b"rgroup",
        Part::InRstar => b"rstar",
        Part::InThrough => b"through",
        Part::InTypes => b"types",
        Part::InTtail => b"ttail",
        Part::InArguments => b"arguments",
        Part::InArgument => b"argument",
        Part::InAtail => b"atail",
        Part::InAgroup => b"agroup",
        Part::InResult => b"result",
        Part::InCases => b"cases",
        Part::InExpr => b"expr",
        Part::InIndex => b"index",
        Part::InGroup => b"group",
        Part::InOperator => b"operator",
        Part::InNumber => b"number",
    }
}
