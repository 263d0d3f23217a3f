// From the lines of a calls file to calls of linked units' functions.
ghost use Rattle.std.specs.Prelude.{map, IfOk, IfErr, IfSome, IfNone};
ghost use Rattle.c_tree.specs.View.{unit_of};
ghost use Rattle.c_meaning.specs.Linking.{SymbolCall};
ghost use Rattle.crun_words.specs.CallsFile.{call_lines_of};
ghost use Rattle.crun_job.specs.Calls.{AreCalls, Names};
ghost use Rattle.crun_job.specs.Refusals.{RefusesCalls};
ghost use Rattle.crun_job.specs.Seen.{call_seen, calls_seen, AllFit};

use crate::refusal::CallsRefusal;
use c_link::Linked;
use crun_words::{arguments, call_line, call_lines};
use std::alloc::Global;
use w2c_base::{Bytes, Memory, Values};

/// A call of the function of a symbol.
#[derive(Drop)]
pub struct NamedCall {
    pub symbol: Bytes,
    pub args: Values,
}

/// The calls that the lines of a text name, in order; empty lines are passed over. The first line
/// that is not empty and names no call is refused by its number: it is not of the form of a line,
/// or no unit defines its symbol, or a function of this type takes no such numbers.
pub fn read_calls(
    alloc: Global,
    linked: &Linked,
    text: &[u8],
) -> Result<Vec<NamedCall>, CallsRefusal>
    ensures calls { IfOk result (λ calls. AreCalls (map unit_of linked.now.0) (call_lines_of text.now) (calls_seen calls.items)) }
    ensures fit { IfOk result (λ calls. AllFit (map unit_of linked.now.0) calls.items) }
    ensures first { IfErr result (RefusesCalls (map unit_of linked.now.0) (call_lines_of text.now)) }
{
    let lines = call_lines(alloc, text)?;
    let mut calls = Vec::new(alloc);
    for line in &lines {
        match named_call(alloc, linked, line.text)? {
            Some(call) => calls.push(call)?,
            None => return Err(CallsRefusal::Line(line.number)),
        }
    }
    Ok(calls)
}

// The call that a line names. None exactly where it names none.
fn named_call(alloc: Global, linked: &Linked, line: &[u8]) -> Result<Option<NamedCall>, Memory>
    ensures some { IfOk result (λ named. IfSome named (λ call. Names (map unit_of linked.now.0) line.now (call_seen call))) }
    ensures none { IfOk result (λ named. IfNone named ((call : SymbolCall) → Names (map unit_of linked.now.0) line.now call → ⊥)) }
{
    let Some(said) = call_line(alloc, line)? else {
        return Ok(None);
    };
    let Some(ty) = linked.signature(said.symbol.as_slice()) else {
        return Ok(None);
    };
    let Some(args) = arguments(alloc, ty.params.as_slice(), said.numbers.as_slice())? else {
        return Ok(None);
    };
    if !linked.fits(said.symbol.as_slice(), args.as_slice()) {
        return Ok(None);
    }
    Ok(Some(NamedCall {
        symbol: said.symbol,
        args,
    }))
}
