// Where functions of a journal stand.
ghost use Rattle.std.specs.Prelude.{◌≡◌, [], IfOk, IfSome, IfNone};
ghost use Rattle.host_replay.specs.Modules.{modules_of};
ghost use Rattle.host_replay.specs.NewFunctions.{IsNewIn};

use crate::module::JournalModule;
use journal_lines::FunctionLine;
use std::alloc::Global;
use w2c_base::{Bytes, Memory};
use w2c_mangle::{SymbolKind, export_symbol};

/// The number of a module, and of a function of it, both from 0.
#[derive(Clone, Copy)]
pub(crate) struct Place {
    pub(crate) host: usize,
    pub(crate) function: usize,
}

/// The symbol of a function that is to come, and its place.
#[derive(Drop)]
pub(crate) struct NewFunction {
    pub(crate) symbol: Bytes,
    pub(crate) place: Place,
}

/// The symbol and the place of a function that comes behind those of the last module. None where there is no module.
pub(crate) fn new_function(
    alloc: Global,
    modules: &[JournalModule],
    f: &FunctionLine,
) -> Result<Option<NewFunction>, Memory>
    ensures some { IfOk result (λ found. IfSome found (IsNewIn (modules_of modules.now) f.now)) }
    ensures none { IfOk result (λ found. IfNone found (modules_of modules.now ≡ [])) }
{
    let Some((last, front)) = modules.split_last() else {
        return Ok(None);
    };
    let symbol = export_symbol(
        alloc,
        last.name.as_slice(),
        SymbolKind::Func,
        f.name.as_slice(),
    )?;
    let place = Place {
        host: front.len(),
        function: last.functions.len(),
    };
    Ok(Some(NewFunction { symbol, place }))
}
