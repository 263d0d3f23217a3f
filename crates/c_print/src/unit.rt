// The whole unit.
ghost use Rattle.std.specs.Prelude.{◌≡◌, OnOk, IfOk, map};
ghost use Rattle.c_tree.specs.Spelled.{CSpells, Formed};
ghost use Rattle.c_tree.specs.View.{item_of, unit_of};
ghost use Rattle.c_print.specs.Page.{items_onto};
ghost use Rattle.c_print.specs.Print.{print_of};

use crate::item::put_line;
use crate::page::Page;
use c_tree::{Item, Tok, Unit};
use std::alloc::Global;
use w2c_base::{Bytes, Memory};

fn put_items(page: &mut Page, items: &[Item]) -> Result<(), Memory>
    ensures { OnOk result (page.new ≡ items_onto page.old (map item_of items.now)) }
{
    for item in items {
        put_line(page, item)?;
    }
    Ok(())
}

/// The text of a unit: the include line, then each item in order. It spells the unit.
pub fn print_unit(alloc: Global, u: &Unit) -> Result<Bytes, Memory>
    requires { Formed (unit_of u.now) }
    ensures printed { IfOk result (λ text. text ≡ print_of (unit_of u.now)) }
    ensures spells { IfOk result (λ text. CSpells (unit_of u.now) text) }
{
    let mut page = Page::new(alloc);
    page.fixed(Tok::Include)?;
    put_items(&mut page, u.as_slice())?;
    Ok(page.text)
}
