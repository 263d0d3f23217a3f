// What a module offers under each name.
ghost use Rattle.std.specs.Prelude.{IfOk};
ghost use Rattle.wasm_set.specs.Tables.{Tells};

use crate::offer::OfferTable;
use crate::spaces::offer;
use body_check::Spaces;
use name_table::{NameTable, Salted};
use std::alloc::Global;
use w2c_base::Memory;
use wasm_tree::Module;

// The key of the names that a module exports.
fn salt_of_exports(m: &Module) -> Salted {
    let mut salt = Salted::new();
    for export in m.exports.as_slice() {
        salt.absorb(export.name.as_slice());
    }
    salt.sealed()
}

/// A table of what a module offers under each name.
pub(crate) fn offers_of(alloc: Global, m: &Module) -> Result<OfferTable, Memory>
    ensures { IfOk result (λ table. Tells table m.now) }
{
    let spaces = Spaces::new(alloc, m)?;
    let mut table = NameTable::new(alloc, salt_of_exports(m));
    for export in m.exports.as_slice() {
        table.enter(alloc, export.name.as_slice(), offer(&spaces, export))?;
    }
    Ok(table)
}
