// What a line says, word by word.
ghost use Rattle.std.specs.Prelude.{◌≡◌, ◌∷◌, List, ℕ, codes, IfOk, IfSome, IfNone};
ghost use Rattle.std.specs.List.{AllByRecursion};
ghost use Rattle.w2c_base.specs.declared.signature.FuncType.{FuncType as AnyType};
ghost use Rattle.w2c_base.specs.declared.value.Value.{Value as AnyValue};
ghost use Rattle.w2c_base.specs.Values.{IsNumber};
ghost use Rattle.c_meaning.specs.declared.reply.HostReply.{HostReply as AnyReply};
ghost use Rattle.crun_lines.specs.Views.{texts};
ghost use Rattle.journal_lines.specs.declared.line.FunctionLine.{FunctionLine as AnyFunction};
ghost use Rattle.journal_lines.specs.declared.line.HostLine.{HostLine as AnyHost};
ghost use Rattle.journal_lines.specs.declared.line.JournalLine.{JournalLine as AnyLine};
ghost use Rattle.journal_lines.specs.Lines.{IsGiven, IsLine};
ghost use Rattle.journal_lines.specs.Words.{call_words, type_words, SayCall, SayFunction, SayLine, SayName};

use crate::cuts::parts;
use crate::line::{FunctionLine, HostLine, JournalLine};
use crate::lists::around_equals;
use crate::names::name_of;
use crate::types::{result_of, types_of};
use crate::values::{reply_of, values_of};
use crun_lines::HostReply;
use std::alloc::Global;
use w2c_base::{Bytes, FuncType, Memory, Values};

/// What a line of a journal says, given without the newline that ends it. None exactly where it says nothing.
pub fn read_line(alloc: Global, text: &[u8]) -> Result<Option<JournalLine>, Memory>
    ensures some { IfOk result (λ found. IfSome found (IsLine text.now)) }
    ensures none { IfOk result (λ found. IfNone found ((l : AnyLine) → IsLine text.now l → ⊥)) }
{
    let words = parts(alloc, text, b' ')?;
    line_of(alloc, words.as_slice())
}

fn line_of(alloc: Global, words: &[&[u8]]) -> Result<Option<JournalLine>, Memory>
    ensures some { IfOk result (λ found. IfSome found (SayLine (texts words.now))) }
    ensures none { IfOk result (λ found. IfNone found ((l : AnyLine) → SayLine (texts words.now) l → ⊥)) }
{
    let Some((kind, rest)) = words.split_first() else {
        return Ok(None);
    };
    if *kind == b"module".as_slice() {
        return module_of(alloc, rest);
    }
    if *kind == b"function".as_slice() {
        return function_of(alloc, rest);
    }
    if *kind == b"host".as_slice() {
        return host_of(alloc, rest);
    }
    Ok(None)
}

fn module_of(alloc: Global, words: &[&[u8]]) -> Result<Option<JournalLine>, Memory>
    ensures some { IfOk result (λ found. IfSome found (SayLine (codes "module" ∷ texts words.now))) }
    ensures none { IfOk result (λ found. IfNone found ((name : List ℕ) → SayName (texts words.now) name → ⊥)) }
{
    let Some((word, rest)) = words.split_first() else {
        return Ok(None);
    };
    if !rest.is_empty() {
        return Ok(None);
    }
    let Some(name) = name_of(alloc, *word)? else {
        return Ok(None);
    };
    Ok(Some(JournalLine::Module(name)))
}

fn function_of(alloc: Global, words: &[&[u8]]) -> Result<Option<JournalLine>, Memory>
    ensures some { IfOk result (λ found. IfSome found (SayLine (codes "function" ∷ texts words.now))) }
    ensures none { IfOk result (λ found. IfNone found ((f : AnyFunction) → SayFunction (texts words.now) f → ⊥)) }
{
    let Some((word, rest)) = words.split_first() else {
        return Ok(None);
    };
    let Some(name) = name_of(alloc, *word)? else {
        return Ok(None);
    };
    let Some(ty) = type_of(alloc, rest)? else {
        return Ok(None);
    };
    Ok(Some(JournalLine::Function(FunctionLine { name, ty })))
}

// The type of a function: its parameters, =, and its result.
fn type_of(alloc: Global, words: &[&[u8]]) -> Result<Option<FuncType>, Memory>
    ensures some { IfOk result (λ found. IfSome found (λ ty. texts words.now ≡ type_words ty)) }
    ensures none { IfOk result (λ found. IfNone found ((ty : AnyType) → texts words.now ≡ type_words ty → ⊥)) }
{
    let Some((front, last)) = around_equals(words) else {
        return Ok(None);
    };
    let Some(result) = result_of(last) else {
        return Ok(None);
    };
    let Some(params) = types_of(alloc, front)? else {
        return Ok(None);
    };
    Ok(Some(FuncType { params, result }))
}

fn host_of(alloc: Global, words: &[&[u8]]) -> Result<Option<JournalLine>, Memory>
    ensures some { IfOk result (λ found. IfSome found (SayLine (codes "host" ∷ texts words.now))) }
    ensures none { IfOk result (λ found. IfNone found ((h : AnyHost) → SayCall (texts words.now) h → ⊥)) }
{
    let Some((host_word, more)) = words.split_first() else {
        return Ok(None);
    };
    let Some((function_word, rest)) = more.split_first() else {
        return Ok(None);
    };
    let Some(host) = name_of(alloc, *host_word)? else {
        return Ok(None);
    };
    let Some(function) = name_of(alloc, *function_word)? else {
        return Ok(None);
    };
    let Some((args, reply)) = call_of(alloc, rest)? else {
        return Ok(None);
    };
    Ok(Some(JournalLine::Host(HostLine {
        host,
        function,
        args,
        reply,
    })))
}

// The arguments of a call, =, and the reply.
fn call_of(alloc: Global, words: &[&[u8]]) -> Result<Option<(Values, HostReply)>, Memory>
    ensures some { IfOk result (λ found. IfSome found (λ p. AllByRecursion IsNumber p.0 × IsGiven p.1
        × (texts words.now ≡ call_words p.0 p.1))) }
    ensures none { IfOk result (λ found. IfNone found ((args : List AnyValue) (reply : AnyReply)
        → AllByRecursion IsNumber args → IsGiven reply → texts words.now ≡ call_words args reply → ⊥)) }
{
    let Some((front, last)) = around_equals(words) else {
        return Ok(None);
    };
    let Some(reply) = reply_of(last) else {
        return Ok(None);
    };
    let Some(args) = values_of(alloc, front)? else {
        return Ok(None);
    };
    Ok(Some((args, reply)))
}
