// From texts to units that keep the rules.
ghost use Rattle.std.specs.Prelude.{◌≡◌, ◌≢◌, ◌≤◌, ℕ, List, length, map, IfOk, IfErr};
ghost use Rattle.c_tree.specs.declared.token.CReadFault.{CReadFault as Fault};
ghost use Rattle.c_tree.specs.Spelled.{CUpto};
ghost use Rattle.c_tree.specs.View.{unit_of};
ghost use Rattle.crun_job.specs.Texts.{AreShort, AreUnitTexts, IsUnitText, most_unit_bytes};
ghost use Rattle.crun_job.specs.Refusals.{RefusesText, RefusesTexts};

use crate::refusal::UnitsRefusal;
use crate::stop::Cause;
use c_check::{Check, CheckRefusal, CheckedUnit};
use c_read::read_unit;
use c_tree::CReadFault;
use std::alloc::Global;
use w2c_base::Bytes;

/// The units that texts spell and that keep the rules, in order. The first text that spells none, or
/// whose unit breaks a rule, is refused by its first fault or by the first rule.
pub fn check_units(alloc: Global, texts: &[Bytes]) -> Result<Vec<CheckedUnit>, UnitsRefusal>
    requires { AreShort texts.now }
    ensures units { IfOk result (λ units. AreUnitTexts texts.now (map unit_of units.items)) }
    ensures first { IfErr result (RefusesTexts texts.now) }
{
    let mut units = Vec::new(alloc);
    for (number, text) in texts.iter().enumerate() {
        let unit = match check_text(alloc, number, text.as_slice()) {
            Ok(unit) => unit,
            Err(refusal) => return Err(refusal),
        };
        units.push(unit)?;
    }
    Ok(units)
}

// The unit of the text with a number.
fn check_text(alloc: Global, number: usize, text: &[u8]) -> Result<CheckedUnit, UnitsRefusal>
    requires { length text.now ≤ most_unit_bytes }
    ensures unit { IfOk result (λ unit. IsUnitText text.now (unit_of unit)) }
    ensures refused { IfErr result (RefusesText number text.now) }
{
    let unit = match read_unit(alloc, text) {
        Ok(unit) => unit,
        Err(fault) => return Err(refusal_by(number, fault)),
    };
    match CheckedUnit::check(alloc, unit) {
        Ok(checked) => Ok(checked),
        Err(CheckRefusal::Rule(item, statement, rule)) => Err(UnitsRefusal::Unit(
            number,
            Cause::Rule(item, statement, rule),
        )),
        Err(CheckRefusal::Memory) => Err(UnitsRefusal::Memory),
    }
}

// The refusal by a fault of the text.
fn refusal_by(number: usize, fault: CReadFault) -> UnitsRefusal
    requires { fault ≢ Fault.UnitTooLong }
    ensures { (text : List ℕ) → (fault ≢ Fault.Memory → CUpto text fault) → RefusesText number text result }
{
    match fault {
        CReadFault::Unexpected(place, wanted) => {
            UnitsRefusal::Unit(number, Cause::Unexpected(place, wanted))
        }
        CReadFault::NumberTooLarge(place) => {
            UnitsRefusal::Unit(number, Cause::NumberTooLarge(place))
        }
        CReadFault::TooDeep(place) => UnitsRefusal::Unit(number, Cause::TooDeep(place)),
        CReadFault::UnitTooLong => unreachable!(),
        CReadFault::Memory => UnitsRefusal::Memory,
    }
}
