// From texts to linked units.
ghost use Rattle.std.specs.Prelude.{◌≡◌, length, map, IfOk, IfErr};
ghost use Rattle.c_tree.specs.View.{unit_of};
ghost use Rattle.c_link.specs.Offers.{c_symbols};
ghost use Rattle.crun_job.specs.Texts.{AreShort};
ghost use Rattle.crun_job.specs.Links.{AreLinked};
ghost use Rattle.crun_job.specs.Refusals.{IsWithin, RefusesUnits, refusal_for};

use crate::checking::check_units;
use crate::refusal::UnitsRefusal;
use crate::stop::Cause;
use c_link::{HostSymbol, LinkRefusal, Linked, link};
use std::alloc::Global;
use w2c_base::Bytes;

/// The units that texts spell and that keep the rules, in order, linked with the symbols of hosts.
/// The first refusal ends it: that of the texts in order, then that of the linker.
pub fn link_units(
    alloc: Global,
    texts: &[Bytes],
    hosts: &[HostSymbol],
) -> Result<Linked, UnitsRefusal>
    requires { AreShort texts.now }
    ensures units { IfOk result (λ linked. AreLinked texts.now (c_symbols hosts.now) (map unit_of linked.0)) }
    ensures hosts { IfOk result (λ linked. linked.1 ≡ hosts.now) }
    ensures first { IfErr result (RefusesUnits texts.now (c_symbols hosts.now)) }
    ensures within { IfErr result (IsWithin (length texts.now)) }
{
    let units = match check_units(alloc, texts) {
        Ok(units) => units,
        Err(refusal) => return Err(refusal),
    };
    match link(alloc, units, hosts) {
        Ok(linked) => Ok(linked),
        Err(refusal) => Err(refusal_of(refusal)),
    }
}

// The refusal of the unit that the linker names.
fn refusal_of(refusal: LinkRefusal) -> UnitsRefusal
    ensures { result ≡ refusal_for refusal }
{
    match refusal {
        LinkRefusal::Undefined(unit, symbol) => UnitsRefusal::Unit(unit, Cause::Undefined(symbol)),
        LinkRefusal::Twice(unit, symbol) => UnitsRefusal::Unit(unit, Cause::Twice(symbol)),
        LinkRefusal::TypeDiffers(unit, symbol) => {
            UnitsRefusal::Unit(unit, Cause::TypeDiffers(symbol))
        }
        LinkRefusal::Memory => UnitsRefusal::Memory,
    }
}
