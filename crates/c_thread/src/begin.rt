// Functions of linked units as they begin.
ghost use Rattle.std.specs.Prelude.{◌≡◌, ℕ, List, length, map, option_map, IfOk};
ghost use Rattle.c_meaning.specs.State.{Machine, Frame as Waiting};
ghost use Rattle.c_meaning.specs.Linking.{Program};
ghost use Rattle.c_meaning.specs.Machine.{initial_of};
ghost use Rattle.c_meaning.specs.Step.{begin as begin_of};
ghost use Rattle.c_objects.specs.Views.{value_of, Naming};
ghost use Rattle.c_thread.specs.Linked.{begun_in, items_at, IsLinked};
ghost use Rattle.c_machine.specs.Threads.{definition_in, WithLocals};

use crate::control::{LinkedUnit, unit_at};
use crate::linked::LinkedFrame;
use crate::types::fit_params;
use c_objects::Held;
use c_tree::{CType, Name, Num};
use w2c_base::{Memory, Value};

impl LinkedFrame {
    /// The function that an item of a unit defines, as it begins: its parameters have the values
    /// that are given (C11, 6.5.2.2), its locals their first values. None where the item defines
    /// none, or one whose parameters have other types or are more or fewer.
    pub fn begin(
        units: &[LinkedUnit],
        unit: usize,
        item: usize,
        values: Vec<Held>,
    ) -> Result<Option<LinkedFrame>, Memory>
        ensures { IfOk result (λ f. (names : Naming) (p : Program) (m : Machine) (below : List Waiting) → IsLinked names p units.now
            → begin_of (definition_in (items_at p unit) item) unit m (map (value_of names) values.items) below ≡ begun_in names p m f below) }
    {
        let Some(own) = unit_at(units, unit) else {
            return Ok(None);
        };
        let Some((f, body)) = own.definition(item) else {
            return Ok(None);
        };
        if !fit_params(f.params.as_slice(), values.as_slice()) {
            return Ok(None);
        }
        match with_first_values(body.locals.as_slice(), values)? {
            Some(values) => Ok(Some(LinkedFrame {
                unit,
                item,
                at: 0,
                values,
            })),
            None => Ok(None),
        }
    }
}

// The values with the first values of locals behind them.
fn with_first_values(
    locals: &[(CType, Name, Num)],
    values: Vec<Held>,
) -> Result<Option<Vec<Held>>, Memory>
    ensures { IfOk result (λ o. (names : Naming) (params : List (List ℕ)) → length params ≡ length values.items
        → WithLocals (value_of names) params values.items locals.now (option_map (λ vs. vs.items) o)) }
{
    let mut values = values;
    for local in locals {
        match initial_value(local.0, local.2) {
            Some(value) => values.push(value)?,
            None => return Ok(None),
        }
    }
    Ok(Some(values))
}

/// What a variable of this type holds at first whose declaration gives this number (C11, 6.7.9): a pointer is null. None where
/// the type takes no such number.
pub fn initial_value(ty: CType, number: Num) -> Option<Held>
    ensures { (names : Naming) → option_map (value_of names) result ≡ initial_of ty number }
{
    match ty {
        CType::U32 => match number {
            Num::N32(n) => Some(Held::Number(Value::I32(n))),
            _ => None,
        },
        CType::U64 => match number {
            Num::N64(n) => Some(Held::Number(Value::I64(n))),
            _ => None,
        },
        CType::PtrU32 | CType::PtrU64 | CType::PtrMem | CType::PtrTab => match number {
            Num::Plain(_) => Some(Held::Pointer(None)),
            _ => None,
        },
        CType::FnPtr => match number {
            Num::Plain(_) => Some(Held::FuncPointer(None)),
            _ => None,
        },
        CType::Void | CType::Mem | CType::Tab => None,
    }
}
