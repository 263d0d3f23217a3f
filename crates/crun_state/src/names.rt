// The names of a unit's objects, in the order in which they are told.
ghost use Rattle.std.specs.Prelude.{◌≡◌, map, IfOk};
ghost use Rattle.c_tree.specs.View.{unit_of};
ghost use Rattle.crun_startup.specs.Names.{names_in};
ghost use Rattle.crun_lines.specs.NameOrder.{in_order, numbered_from};
ghost use Rattle.crun_lines.specs.Views.{entry_of};

use c_tree::Item;
use crun_lines::{Numbered, names_in_order};
use crun_startup::{ObjectKind, object_names};
use std::alloc::Global;
use w2c_base::Memory;

/// The names of the objects of a kind that items declare, by their length, then by their bytes.
pub fn ordered_names(
    alloc: Global,
    kind: ObjectKind,
    items: &[Item],
) -> Result<Vec<Numbered<'_>>, Memory>
    ensures { IfOk result (λ order. map entry_of order.items ≡ in_order (numbered_from 0 (names_in kind (unit_of items.now)))) }
{
    let names = object_names(alloc, kind, items)?;
    let order = names_in_order(alloc, names.as_slice())?;
    Ok(order)
}
