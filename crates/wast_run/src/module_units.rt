// The units of modules, and units linked.
ghost use Rattle.std.specs.Prelude.{◌≡◌, ◌≤◌, ◌<◌, [], length, map, All, None, IfOk};
ghost use Rattle.c_tree.specs.View.{unit_of};
ghost use Rattle.c_meaning.specs.Linking.{link_refusal};
ghost use Rattle.unit_definition.specs.Items.{items};
ghost use Rattle.unit_definition.specs.Accepted.{IsAccepted};
ghost use Rattle.wast_run.specs.Ran.{alone};

use c_link::{LinkRefusal, Linked, link};
use c_rules::CheckedUnit;
use c_tree::{Unit, well_formed_units_are_spelled};
use c_unit::unit;
use std::alloc::Global;
use unit_rules::units_are_proper;
use w2c_base::Memory;
use wasm_typing::ValidModule;

/// The unit of a module under a name. It keeps the rules.
pub(crate) fn checked_unit(
    alloc: Global,
    module: &ValidModule,
    name: &[u8],
) -> Result<CheckedUnit, Memory>
    requires { (1 ≤ length name.now) × (length name.now ≤ 1024) }
    ensures unit { IfOk result (λ made. unit_of made ≡ items (record { name = name.now; tree = «module».now })) }
    ensures accepted { IsAccepted (record { name = name.now; tree = «module».now }) }
{
    units_are_proper();
    well_formed_units_are_spelled();
    is_accepted(module, name);
    let made = match module_unit(alloc, module, name) {
        Ok(made) => made,
        Err(Memory) => return Err(Memory),
    };
    let checked = CheckedUnit::known(alloc, made)?;
    Ok(checked)
}

fn module_unit(alloc: Global, module: &ValidModule, name: &[u8]) -> Result<Unit, Memory>
    ensures { IfOk result (λ made. unit_of made ≡ items (record { name = name.now; tree = «module».now })) }
{
    let (made, _header) = unit(alloc, module, name)?;
    Ok(made)
}

// A module that was checked is valid and within the limits.
fn is_accepted(module: &ValidModule, name: &[u8])
    requires { (1 ≤ length name.now) × (length name.now ≤ 1024) }
    ensures { IsAccepted (record { name = name.now; tree = «module».now }) }
{
    are_bytes(name);
    let _ = module.module();
}

fn are_bytes(text: &[u8])
    ensures { All (λ b. b < 256) text.now }
{}

/// Units that link without hosts, linked.
pub(crate) fn linked_alone(alloc: Global, units: Vec<CheckedUnit>) -> Result<Linked, Memory>
    requires { link_refusal (alone (map unit_of units.items)) ≡ None }
    ensures units { IfOk result (λ linked. linked.0 ≡ units.items) }
    ensures no_hosts { IfOk result (λ linked. linked.1 ≡ []) }
{
    match link(alloc, units, &[]) {
        Ok(linked) => Ok(linked),
        Err(LinkRefusal::Memory) => Err(Memory),
        Err(LinkRefusal::Undefined(_, _)) => unreachable!(),
        Err(LinkRefusal::Twice(_, _)) => unreachable!(),
        Err(LinkRefusal::TypeDiffers(_, _)) => unreachable!(),
    }
}
