// The names that the items of a unit get in the one unit.
ghost use Rattle.std.specs.Prelude.{◌≡◌, IfOk};
ghost use Rattle.c_renaming.specs.NewNames.{is_outside, name_in};
ghost use Rattle.c_merge.specs.Merge.{new_names};

use c_tree::{Name, is_depth, is_own_name, name_of};
use itoa::Buffer;
use std::alloc::Global;
use w2c_base::{Bytes, Memory};

/// `u`, the unit's number, `_` and the name, as of a label.
pub(crate) fn new_name(alloc: Global, unit: usize, name: &[u8]) -> Result<Name, Memory>
    ensures { IfOk result (λ new. new ≡ name_in unit name.now) }
{
    let mut new = Bytes::new(alloc);
    let mut buffer = Buffer::new();
    new.extend(b"u")?;
    new.extend(buffer.format(unit).as_bytes())?;
    new.extend(b"_")?;
    new.extend(name)?;
    let made = Name::from_bytes(alloc, new)?;
    Ok(made)
}

/// The name of a variable, an array, a parameter or a local variable: w2c_depth stays.
pub(crate) fn new_variable(alloc: Global, unit: usize, name: &[u8]) -> Result<Name, Memory>
    ensures { IfOk result (λ new. new ≡ new_names.var unit name.now) }
{
    if is_depth(name) {
        name_of(alloc, name)
    } else {
        new_name(alloc, unit, name)
    }
}

/// The name of a function: one of the runtime or that other units see stays.
pub(crate) fn new_function(alloc: Global, unit: usize, name: &[u8]) -> Result<Name, Memory>
    ensures { IfOk result (λ new. new ≡ new_names.func unit name.now) }
{
    if is_outside(name) {
        name_of(alloc, name)
    } else {
        new_name(alloc, unit, name)
    }
}

fn is_outside(name: &[u8]) -> bool
    ensures { result ≡ is_outside name.now }
{
    !is_own_name(name)
}
