// The order in which the objects of a unit are told.
ghost use Rattle.std.specs.Prelude.{◌≡◌, map, IfOk};
ghost use Rattle.crun_lines.specs.NameOrder.{in_order, numbered_from};
ghost use Rattle.crun_lines.specs.Views.{entry_of, texts};

use std::alloc::Global;
use std::collections::BTreeMap;
use w2c_base::Memory;

/// A name, with its number from 0 among the names that were given.
#[derive(Clone, Copy)]
pub struct Numbered<'a> {
    pub name: &'a [u8],
    pub number: usize,
}

/// Names by their length, then by their bytes, each with its number. Of equal names the last one stands.
pub fn names_in_order<'a>(alloc: Global, names: &[&'a [u8]]) -> Result<Vec<Numbered<'a>>, Memory>
    ensures { IfOk result (λ order. map entry_of order.items ≡ in_order (numbered_from 0 (texts names.now))) }
{
    let mut places = BTreeMap::new(alloc);
    for (number, name) in names.iter().enumerate() {
        let _ = places.insert((name.len(), *name), number)?;
    }
    let mut order = Vec::new(alloc);
    for (key, number) in places {
        order.push(Numbered {
            name: key.1,
            number,
        })?;
    }
    Ok(order)
}
