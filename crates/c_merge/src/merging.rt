// Linked units as one unit.
ghost use Rattle.std.specs.Prelude.{◌≡◌, [], ◌∷◌, IfOk, map};
ghost use Rattle.c_tree.specs.View.{unit_of};
ghost use Rattle.c_meaning.specs.Linking.{Program};
ghost use Rattle.c_link.specs.Programs.{IsProgramOf};
ghost use Rattle.c_renaming.specs.Merging.{joined};
ghost use Rattle.c_merge.specs.Merge.{RunsAsUnits, merged, new_names};

use crate::items::put_items;
use c_link::Linked;
use c_rules::CheckedUnit;
use c_tree::Unit;
use std::alloc::Global;
use w2c_base::Memory;

/// The items of all linked units in their order, in those of unit j each name s of a static variable,
/// an array, a static function, a parameter, a local variable and a label as `u<j>_s`. The one unit
/// keeps the rules, links with the same hosts, and runs as the units do.
pub fn merge(alloc: Global, linked: &Linked) -> Result<CheckedUnit, Memory>
    ensures merged { IfOk result (λ one. unit_of one ≡ merged (map unit_of linked.now.0)) }
    ensures runs { IfOk result (λ one. (p : Program) → IsProgramOf p (map unit_of linked.now.0) linked.now.1
        → RunsAsUnits p (record { units = unit_of one ∷ []; hosts = p.hosts })) }
{
    // That each unit keeps the rules, and that they link, are clauses of this.
    let _ = linked.units();
    let one = merged_items(alloc, linked)?;
    let checked = CheckedUnit::known(alloc, one)?;
    Ok(checked)
}

#[tactic(auto, using(crate::proofs::Joined::units_all))]
pub(crate) fn merged_items(alloc: Global, linked: &Linked) -> Result<Unit, Memory>
    ensures { IfOk result (λ one. unit_of one ≡ joined new_names 0 (map unit_of linked.now.0)) }
{
    let mut one = Unit::new(alloc);
    for unit in 0..linked.unit_count() {
        put_items(alloc, &mut one, unit, linked.unit(unit).unit().as_slice())?;
    }
    Ok(one)
}
