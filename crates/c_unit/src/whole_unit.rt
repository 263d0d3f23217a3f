// The unit of a module, whole.
ghost use Rattle.std.specs.Prelude.{◌≡◌, IfOk};
ghost use Rattle.c_tree.specs.View.{unit_of};
ghost use Rattle.unit_definition.specs.Items.{header_of, items_of};
ghost use Rattle.c_unit.specs.Left.{left_of};

use crate::heading::header;
use crate::unit_items::UnitItems;
use c_tree::{Header, Unit};
use std::alloc::Global;
use w2c_base::Memory;
use wasm_typing::ValidModule;

/// The unit of a module under a name, and its header. `UnitItems` gives the same an item at a time.
pub fn unit(alloc: Global, m: &ValidModule, name: &[u8]) -> Result<(Unit, Header), Memory>
    ensures unit { IfOk result (λ made. unit_of made.0 ≡ items_of m.now name.now) }
    ensures header { IfOk result (λ made. made.1 ≡ header_of m.now name.now) }
{
    let unit = all_items(alloc, m, name)?;
    let header = header(alloc, m, name)?;
    Ok((unit, header))
}

// The unit alone.
fn all_items(alloc: Global, m: &ValidModule, name: &[u8]) -> Result<Unit, Memory>
    ensures { IfOk result (λ unit. unit_of unit ≡ items_of m.now name.now) }
{
    let mut items = UnitItems::new(alloc, m, name)?;
    unit_of_rest(alloc, &mut items)
}

// The unit of the items that were not given yet.
fn unit_of_rest(alloc: Global, items: &mut UnitItems) -> Result<Unit, Memory>
    ensures { IfOk result (λ unit. unit_of unit ≡ left_of items.old) }
{
    let mut unit = Unit::new(alloc);
    'more: while let Some(item) = items.next(alloc)? {
        unit.push(item)?;
    }
    Ok(unit)
}
