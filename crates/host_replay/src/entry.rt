// Calls in a journal.
ghost use Rattle.std.specs.Prelude.{◌≡◌, ◌++◌, IfOk, OnOk};
ghost use Rattle.std.specs.List.{AllByRecursion};
ghost use Rattle.w2c_base.specs.Values.{IsNumber};
ghost use Rattle.crun_lines.specs.HostLines.{function_name, host_name};
ghost use Rattle.host_replay.specs.Modules.{modules_of};
ghost use Rattle.host_replay.specs.Texts.{entry_text};
ghost use Rattle.host_replay.specs.Writable.{HasNumbers};

use crate::module::JournalModule;
use c_hosts::Asked;
use crun_lines::host_line;
use std::alloc::Global;
use w2c_base::{Bytes, Memory, Value};

/// Equal calls.
pub(crate) fn copies(alloc: Global, asks: &[Asked]) -> Result<Vec<Asked>, Memory>
    ensures { IfOk result (λ copied. copied.items ≡ asks.now) }
{
    let mut copied = Vec::new(alloc);
    for asked in asks {
        copied.push(copy(alloc, asked)?)?;
    }
    Ok(copied)
}

/// An equal call.
pub(crate) fn copy(alloc: Global, asked: &Asked) -> Result<Asked, Memory>
    ensures { IfOk result (λ a. a ≡ asked.now) }
{
    Ok(Asked {
        host: asked.host,
        function: asked.function,
        args: asked.args.copy(alloc)?,
        reply: asked.reply,
    })
}

/// Puts the line of a call at the end of a text.
pub(crate) fn put_entry(
    alloc: Global,
    text: &mut Bytes,
    modules: &[JournalModule],
    asked: &Asked,
) -> Result<(), Memory>
    ensures text { OnOk result (text.new ≡ text.old ++ entry_text (modules_of modules.now) asked.now) }
    ensures numbers { OnOk result (HasNumbers asked.now) }
{
    are_numbers(asked.args.as_slice());
    let host = name_of_host(modules, asked.host);
    let function = name_of_function(modules, asked.host, asked.function);
    let line = host_line(alloc, host, function, asked.args.as_slice(), asked.reply)?;
    text.extend(line.as_slice())
}

fn name_of_host(modules: &[JournalModule], host: usize) -> &[u8]
    ensures { result.now ≡ host_name (modules_of modules.now) host }
{
    match modules.get(host) {
        Some(module) => module.name.as_slice(),
        None => &[],
    }
}

fn name_of_function(modules: &[JournalModule], host: usize, function: usize) -> &[u8]
    ensures { result.now ≡ function_name (modules_of modules.now) host function }
{
    let Some(module) = modules.get(host) else {
        return &[];
    };
    match module.functions.get(function) {
        Some(function) => function.name.as_slice(),
        None => &[],
    }
}

// Values are numbers of their types, which is known of a parameter alone.
fn are_numbers(values: &[Value])
    ensures { AllByRecursion IsNumber values.now }
{
    for value in values {
        is_number(*value);
    }
}

fn is_number(value: Value)
    ensures { IsNumber value }
{
    match value {
        Value::I32(_number) => {}
        Value::I64(_number) => {}
    }
}
