// What an export is of, by the index spaces of its module.
ghost use Rattle.std.specs.Prelude.{◌≡◌, option_map, slice_get};
ghost use Rattle.wasm_tree.specs.declared.tree.Module.{Module as Tree};
ghost use Rattle.body_check.specs.Seen.{AreSpacesOf};
ghost use Rattle.wasm_set.specs.declared.offer.Offer.TheVariants.{Func, Global as OfGlobal};
ghost use Rattle.wasm_set.specs.Offers.{offer_of};

use crate::offer::Offer;
use body_check::Spaces;
use wasm_tree::{Export, ExportKind, Limits};

/// What an export of the module of these index spaces is of. None where its index is out of range.
pub(crate) fn offer(spaces: &Spaces<'_>, export: &Export) -> Option<Offer>
    ensures { (m : Tree) → AreSpacesOf spaces.now m → result ≡ offer_of m export.now }
{
    match export.kind {
        ExportKind::Func => of_func(spaces, export.index),
        ExportKind::Table => of_limits(spaces.tables.as_slice(), export.index, Offer::Table),
        ExportKind::Memory => of_limits(spaces.memories.as_slice(), export.index, Offer::Memory),
        ExportKind::Global => of_global(spaces, export.index),
    }
}

fn of_func(spaces: &Spaces<'_>, index: u32) -> Option<Offer>
    ensures { result ≡ option_map Func (slice_get spaces.now.funcs.items index) }
{
    match spaces.type_index(index) {
        Some(type_index) => Some(Offer::Func(type_index)),
        None => None,
    }
}

fn of_global(spaces: &Spaces<'_>, index: u32) -> Option<Offer>
    ensures { result ≡ option_map (λ g. OfGlobal g.0 g.1) (slice_get spaces.now.globals.items index) }
{
    match spaces.global(index) {
        Some((ty, mutable)) => Some(Offer::Global(ty, mutable)),
        None => None,
    }
}

// What is offered where an index is in range.
fn of_limits(space: &[Limits], index: u32, offer: Offer) -> Option<Offer>
    ensures { result ≡ option_map (λ limits. offer) (slice_get space.now index) }
{
    match space.get(index as usize) {
        Some(_) => Some(offer),
        None => None,
    }
}
