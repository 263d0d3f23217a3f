// The rules of an item.
ghost use Rattle.std.specs.Prelude.{◌≡◌, IfOk};
ghost use Rattle.c_scope.specs.FileItems.{declared};
ghost use Rattle.c_rules.specs.FirstRule.{item_breaks};
ghost use Rattle.c_check.specs.Places.{item_place};
ghost use Rattle.c_rules.specs.UnitNames.{FindsFirst};

use crate::declarations::{is_declared_once, is_defined_if_static};
use crate::ours::{local_names, names_are_free, own_names_are_distinct};
use crate::progress::Progress;
use crate::shapes::{body_is_not_empty, first_values_suit, types_are_proper};
use c_tree::Item;
use std::alloc::Global;
use w2c_base::Memory;

/// The first rule that an item breaks by itself, a parameter or a local variable.
#[tactic(auto, unfolding(c_rules::specs::FirstRule::item_breaks))]
pub fn item_rule(alloc: Global, progress: &Progress, item: &Item) -> Result<Option<u32>, Memory>
    requires { FindsFirst progress.now.earlier.first (declared progress.now.file) }
    ensures { IfOk result (λ r. r ≡ item_breaks (item_place progress.now.file item.now)) }
{
    let file = &progress.file;
    let own = local_names(alloc, item)?;
    let distinct = own_names_are_distinct(alloc, file, &progress.names, item, own.as_slice())?;
    if !is_declared_once(file, &progress.earlier, item) {
        return Ok(Some(1));
    }
    if !names_are_free(item, own.as_slice()) {
        return Ok(Some(2));
    }
    if !types_are_proper(item) {
        return Ok(Some(3));
    }
    if !first_values_suit(item) {
        return Ok(Some(4));
    }
    if !is_defined_if_static(file, &progress.defined, item) {
        return Ok(Some(5));
    }
    if !distinct {
        return Ok(Some(6));
    }
    if !body_is_not_empty(item) {
        return Ok(Some(12));
    }
    Ok(None)
}
