// The command that a JSON object stands for.
ghost use Rattle.std.specs.Prelude.{◌≡◌, option_map, string_bytes, IfOk};
ghost use Rattle.serde_json.specs.View.{view};
ghost use Rattle.wast_script.specs.Forms.{call_in, call_with, cause_in, command_by, command_of, expected_in, expected_of, module_in, module_with};
ghost use Rattle.wast_script.specs.declared.kind.Kind.TheVariants as TheKind;
ghost use Rattle.wast_script.specs.Seen.{seen_call, seen_command, seen_module};

use crate::command::{Call, Command, ModuleFile};
use crate::kind::{Kind, cause_named};
use crate::members::{own_text, text};
use crate::value::values;
use program_words::is_module_name;
use serde_json::Value as Json;
use std::alloc::Global;
use w2c_base::{Memory, TrapKind, Value, Values};

/// The command that an object stands for. None exactly where it is not of the form of one.
pub(crate) fn command(alloc: Global, object: &Json) -> Result<Option<Command>, Memory>
    ensures { IfOk result (λ found. option_map seen_command found ≡ command_of (view object.now)) }
{
    let Some(name) = text(object, "type") else {
        return Ok(None);
    };
    match Kind::named(name) {
        Some(kind) => command_of_kind(alloc, object, kind),
        None => Ok(None),
    }
}

fn command_of_kind(alloc: Global, object: &Json, kind: Kind) -> Result<Option<Command>, Memory>
    ensures { IfOk result (λ found. option_map seen_command found ≡ command_by (view object.now) kind) }
{
    match kind {
        Kind::Module => Ok(module_file(alloc, object)?.map(Command::Module)),
        Kind::Call => Ok(call(alloc, object)?.map(Command::Call)),
        Kind::AssertReturn => assert_return(alloc, object),
        Kind::AssertTrap => assert_trap(alloc, object),
        Kind::AssertInvalid => {
            Ok(own_text(alloc, object, "filename")?.map(Command::AssertInvalid))
        }
        Kind::AssertMalformed => {
            Ok(own_text(alloc, object, "filename")?.map(Command::AssertMalformed))
        }
    }
}

fn module_file(alloc: Global, object: &Json) -> Result<Option<ModuleFile>, Memory>
    ensures { IfOk result (λ found. option_map seen_module found ≡ module_in (view object.now)) }
{
    let name = own_text(alloc, object, "name")?;
    let filename = own_text(alloc, object, "filename")?;
    Ok(module_by(name, filename))
}

fn module_by(name: Option<String>, filename: Option<String>) -> Option<ModuleFile>
    ensures { option_map seen_module result ≡ module_with (option_map string_bytes name) (option_map string_bytes filename) }
{
    let Some(name) = name else {
        return None;
    };
    let Some(filename) = filename else {
        return None;
    };
    if !is_module_name(name.as_bytes()) {
        return None;
    }
    Some(ModuleFile { name, filename })
}

fn call(alloc: Global, object: &Json) -> Result<Option<Call>, Memory>
    ensures { IfOk result (λ found. option_map seen_call found ≡ call_in (view object.now)) }
{
    let module_name = own_text(alloc, object, "module")?;
    let field_name = own_text(alloc, object, "field")?;
    let args = values(alloc, object, "args")?;
    Ok(call_by(module_name, field_name, args))
}

fn call_by(
    module_name: Option<String>,
    field_name: Option<String>,
    args: Option<Values>,
) -> Option<Call>
    ensures { option_map seen_call result
        ≡ call_with (option_map string_bytes module_name) (option_map string_bytes field_name) args }
{
    let Some(module_name) = module_name else {
        return None;
    };
    let Some(field_name) = field_name else {
        return None;
    };
    let Some(args) = args else {
        return None;
    };
    Some(Call {
        module_name,
        field_name,
        args,
    })
}

fn assert_return(alloc: Global, object: &Json) -> Result<Option<Command>, Memory>
    ensures { IfOk result (λ found. option_map seen_command found ≡ command_by (view object.now) TheKind.AssertReturn) }
{
    let Some(call) = call(alloc, object)? else {
        return Ok(None);
    };
    let Some(expected) = expected(alloc, object)? else {
        return Ok(None);
    };
    Ok(Some(Command::AssertReturn(call, expected)))
}

// The value that is expected, or that none is. None where it is neither.
fn expected(alloc: Global, object: &Json) -> Result<Option<Option<Value>>, Memory>
    ensures { IfOk result (λ found. found ≡ expected_in (view object.now)) }
{
    match values(alloc, object, "expected")? {
        Some(values) => Ok(one_at_most(values.as_slice())),
        None => Ok(None),
    }
}

fn one_at_most(values: &[Value]) -> Option<Option<Value>>
    ensures { result ≡ expected_of values.now }
{
    match values {
        [] => Some(None),
        [value] => Some(Some(*value)),
        _ => None,
    }
}

fn assert_trap(alloc: Global, object: &Json) -> Result<Option<Command>, Memory>
    ensures { IfOk result (λ found. option_map seen_command found ≡ command_by (view object.now) TheKind.AssertTrap) }
{
    let Some(call) = call(alloc, object)? else {
        return Ok(None);
    };
    let Some(cause) = cause(object) else {
        return Ok(None);
    };
    Ok(Some(Command::AssertTrap(call, cause)))
}

fn cause(object: &Json) -> Option<TrapKind>
    ensures { result ≡ cause_in (view object.now) }
{
    match text(object, "text") {
        Some(text) => cause_named(text),
        None => None,
    }
}
