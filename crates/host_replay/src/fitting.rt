// Whether a call fits the functions of modules.
ghost use Rattle.std.specs.Prelude.{◌≡◌, Some};
ghost use Rattle.w2c_base.specs.Values.{is_result};
ghost use Rattle.c_hosts.specs.Asking.{function_of};
ghost use Rattle.host_replay.specs.Fitting.{fits as fits_hosts, fits_function as fits_found, is_reply as is_reply_of};
ghost use Rattle.host_replay.specs.Modules.{modules_of};

use crate::module::JournalModule;
use c_hosts::{Asked, HostFunction, HostReply};
use w2c_base::{ValType, Value, are_of_types, is_of_type};

/// Whether a call is of a function that is there, with arguments and a reply of its types.
pub(crate) fn fits(modules: &[JournalModule], asked: &Asked) -> bool
    ensures { result ≡ fits_hosts (modules_of modules.now) asked.now }
{
    let Some(module) = modules.get(asked.host) else {
        return false;
    };
    match module.functions.get(asked.function) {
        Some(function) => fits_function(function, asked),
        None => false,
    }
}

fn fits_function(function: &HostFunction, asked: &Asked) -> bool
    ensures { result ≡ fits_found (Some (function_of function.now)) asked.now }
{
    are_of_types(function.ty.params.as_slice(), asked.args.as_slice())
        && is_reply(function.ty.result, asked.reply)
}

fn is_reply(ty: Option<ValType>, reply: HostReply) -> bool
    ensures { result ≡ is_reply_of ty reply }
{
    match reply {
        HostReply::Value(value) => is_result_value(ty, value),
        HostReply::Trap => true,
    }
}

fn is_result_value(ty: Option<ValType>, value: Option<Value>) -> bool
    ensures { result ≡ is_result ty value }
{
    match (ty, value) {
        (None, None) => true,
        (Some(ty), Some(value)) => is_of_type(ty, value),
        (None, Some(_)) => false,
        (Some(_), None) => false,
    }
}
