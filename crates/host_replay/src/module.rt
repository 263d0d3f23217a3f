// A host module in a journal: its name and its functions.
ghost use Rattle.std.specs.Prelude.{◌≡◌, ◌<◌, ◌∷◌, ◌++◌, [], List, vec_len, IfOk, OnOk, map};
ghost use Rattle.c_hosts.specs.Asking.{function_of, host_of};
ghost use Rattle.std.specs.List.{AllByRecursion};
ghost use Rattle.w2c_base.specs.Run.{Host};
ghost use Rattle.journal_lines.specs.Lines.{IsBytes};
ghost use Rattle.host_replay.specs.Modules.{module_of as module_seen, modules_of};
ghost use Rattle.host_replay.specs.Reading.{named_function, with_function};
ghost use Rattle.host_replay.specs.Texts.{function_text, function_texts, module_text};
ghost use Rattle.host_replay.specs.Writable.{HasName, HasNames};

use c_hosts::{HostFunction, HostModule};
use journal_lines::{FunctionLine, function_line, module_line};
use std::alloc::Global;
use w2c_base::{Bytes, Memory};

/// A host module, as a journal names it.
#[derive(Drop)]
pub(crate) struct JournalModule {
    pub(crate) name: Bytes,
    pub(crate) functions: Vec<HostFunction>,
}

/// The name and the functions of a host.
pub(crate) fn module_of<H: HostModule>(alloc: Global, host: &H) -> Result<JournalModule, Memory>
    ensures { IfOk result (λ m. module_seen m ≡ host_of H.HostModule host.now) }
{
    let name = Bytes::from_vec(Vec::from_slice(alloc, host.name())?);
    let mut functions = Vec::new(alloc);
    for i in 0..host.count() {
        functions.push(function_copy(alloc, host.function(i))?)?;
    }
    Ok(JournalModule { name, functions })
}

/// Equal functions.
pub(crate) fn functions_copy(
    alloc: Global,
    functions: &[HostFunction],
) -> Result<Vec<HostFunction>, Memory>
    ensures { IfOk result (λ copied. copied.items ≡ functions.now) }
{
    let mut copied = Vec::new(alloc);
    for function in functions {
        copied.push(function_copy(alloc, function)?)?;
    }
    Ok(copied)
}

fn function_copy(alloc: Global, function: &HostFunction) -> Result<HostFunction, Memory>
    ensures { IfOk result (λ f. f ≡ function.now) }
{
    Ok(HostFunction {
        name: function.name.copy(alloc)?,
        ty: function.ty.copy(alloc)?,
    })
}

/// Puts a function at the end of the last module.
pub(crate) fn push_function(modules: &mut Vec<JournalModule>, f: FunctionLine) -> Result<(), Memory>
    requires { 0 < vec_len modules.old }
    ensures { OnOk result ((front : List Host) (last : Host) → modules_of modules.old.items ≡ front ++ last ∷ []
        → modules_of modules.new.items ≡ front ++ with_function last (named_function f) ∷ []) }
{
    let last = modules.len() - 1;
    modules[last].functions.push(HostFunction {
        name: f.name,
        ty: f.ty,
    })?;
    Ok(())
}

/// Puts the lines of a module at the end of a text: its own, and those of its functions.
pub(crate) fn put_module(alloc: Global, text: &mut Bytes, of: &JournalModule) -> Result<(), Memory>
    ensures text { OnOk result (text.new ≡ text.old ++ module_text (module_seen of.now)) }
    ensures names { OnOk result (HasNames (module_seen of.now)) }
{
    is_name(of.name.as_slice());
    let line = module_line(alloc, of.name.as_slice())?;
    text.extend(line.as_slice())?;
    put_functions(alloc, text, of.functions.as_slice())
}

fn put_functions(alloc: Global, text: &mut Bytes, functions: &[HostFunction]) -> Result<(), Memory>
    ensures text { OnOk result (text.new ≡ text.old ++ function_texts (map function_of functions.now)) }
    ensures names { OnOk result (AllByRecursion HasName (map function_of functions.now)) }
{
    for function in functions {
        put_function(alloc, text, function)?;
    }
    Ok(())
}

fn put_function(alloc: Global, text: &mut Bytes, function: &HostFunction) -> Result<(), Memory>
    ensures text { OnOk result (text.new ≡ text.old ++ function_text (function_of function.now)) }
    ensures name { OnOk result (HasName (function_of function.now)) }
{
    is_name(function.name.as_slice());
    let line = function_line(alloc, function.name.as_slice(), &function.ty)?;
    text.extend(line.as_slice())
}

// The numbers of a slice are bytes, which is known of a parameter alone.
fn is_name(name: &[u8])
    ensures { IsBytes name.now }
{}
