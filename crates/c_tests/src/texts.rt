// The units of the tests, by the texts that spell them.
use c_check::{Check, CheckedUnit};
use c_read::read_unit;
use c_tree::Unit;
use std::alloc::Global;
use std::test::Fail;

/// The unit that a text spells.
pub fn read(alloc: Global, text: &str) -> Result<Unit, Fail> {
    match read_unit(alloc, text.as_bytes()) {
        Ok(unit) => Ok(unit),
        Err(_) => Err(Fail::new("the text spells a unit")),
    }
}

/// The unit that a text spells, which keeps the rules.
pub fn checked(alloc: Global, text: &str) -> Result<CheckedUnit, Fail> {
    let unit = read(alloc, text)?;
    if !unit.formed() {
        return Err(Fail::new("the unit is well formed"));
    }
    match CheckedUnit::check(alloc, unit) {
        Ok(unit) => Ok(unit),
        Err(_) => Err(Fail::new("the unit keeps the rules")),
    }
}
