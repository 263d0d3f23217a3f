// The types of functions, and calls through pointers.
ghost use Rattle.std.specs.Prelude.{◌≡◌, ◌∷◌, IfOk, map, option_map, option_copied, slice_get};
ghost use Rattle.w2c_base.specs.Run.{Trail};
ghost use Rattle.c_tree.specs.Runtime.{same_func_type, same_types};
ghost use Rattle.c_tree.specs.View.{func_type_of};
ghost use Rattle.c_meaning.specs.Linking.{func_type, Program};
ghost use Rattle.c_meaning.specs.Step.{call_through as call_through_of};
ghost use Rattle.c_objects.specs.Stores.{AreStored};
ghost use Rattle.c_objects.specs.Views.{func_of, value_of, Naming};
ghost use Rattle.c_thread.specs.Linked.{below_in, machine_in, place_in, step_in, waiting_in, IsLinked};
ghost use Rattle.c_thread.specs.FuncTypes.{agree_at, type_at, AreFuncTypes};

use crate::control::LinkedUnit;
use crate::linked::{LinkedStep, LinkedThread};
use c_objects::{FuncId, Held};
use c_rules::same_type;
use c_tree::{CFuncType, CType};
use std::alloc::Global;
use w2c_base::Memory;

// The kinds of what is undefined.
const NULL_POINTER: u32 = 4;

const OTHER_TYPE: u32 = 5;

/// The types of the functions of a unit or a host by number, none where no function is.
#[derive(Drop)]
pub struct TypeList {
    pub types: Vec<Option<CFuncType>>,
}

/// The types of functions, made once.
#[derive(Drop)]
pub struct FuncTypes {
    pub units: Vec<TypeList>,
    pub hosts: Vec<TypeList>,
}

impl FuncTypes {
    /// The type of a function.
    pub fn find(&self, func: FuncId) -> Option<&CFuncType>
        ensures { option_copied result ≡ type_at self.now func }
    {
        match func {
            FuncId::Unit(unit, item) => self.units.get(unit)?.types.get(item)?.as_ref(),
            FuncId::Host(host, function) => self.hosts.get(host)?.types.get(function)?.as_ref(),
        }
    }
}

impl LinkedThread {
    /// The call of a function that a pointer points to, of the type that is written (6.5.2.2).
    pub fn call_through(
        &mut self,
        alloc: Global,
        units: &[LinkedUnit],
        types: &FuncTypes,
        pointer: Option<Held>,
        want: &CFuncType,
        values: Vec<Held>,
    ) -> Result<LinkedStep, Memory>
        ensures step { IfOk result (λ o. (names : Naming) (p : Program) (trail : Trail) → IsLinked names p units.now → AreFuncTypes names p types.now
            → call_through_of p (option_map (value_of names) pointer) (func_type_of want.now) (place_in self.old.top)
            (machine_in names trail self.old) (map (value_of names) values.items)
            (waiting_in names p self.old.top ∷ below_in names p self.old.below.items)
            ≡ step_in names p trail o self.new) }
        ensures stored { IfOk result (λ o. (names : Naming) → AreStored names self.old.store.units.items → AreStored names self.new.store.units.items) }
    {
        match pointer {
            Some(Held::FuncPointer(Some(func))) => match has_type(types, func, want) {
                Some(true) => Ok(self.call_function(alloc, units, Some(func), values)?),
                Some(false) => Ok(LinkedStep::Undefined(OTHER_TYPE)),
                None => Ok(LinkedStep::Stuck),
            },
            Some(Held::FuncPointer(None)) => Ok(LinkedStep::Undefined(NULL_POINTER)),
            Some(Held::Number(_)) => Ok(LinkedStep::Stuck),
            Some(Held::Pointer(_)) => Ok(LinkedStep::Stuck),
            None => Ok(LinkedStep::Stuck),
        }
    }
}

// Whether a function has a type, None where there is no function.
fn has_type(types: &FuncTypes, func: FuncId, want: &CFuncType) -> Option<bool>
    ensures { (names : Naming) (p : Program) → AreFuncTypes names p types.now
        → option_map (λ ty. same_func_type ty (func_type_of want.now)) (func_type p (func_of names func)) ≡ result }
{
    match types.find(func) {
        Some(ty) => Some(is_type(ty, want)),
        None => None,
    }
}

fn is_type(ty: &CFuncType, want: &CFuncType) -> bool
    ensures { result ≡ same_func_type (func_type_of ty.now) (func_type_of want.now) }
{
    are_types(ty.params.as_slice(), want.params.as_slice()) && same_type(ty.result, want.result)
}

fn are_types(types: &[CType], others: &[CType]) -> bool
    ensures { result ≡ same_types types.now others.now }
{
    if types.len() != others.len() {
        return false;
    }
    for i in 0..types.len() {
        if !agree(types, others, i) {
            return false;
        }
    }
    true
}

// Whether the types at a place are one.
fn agree(types: &[CType], others: &[CType], i: usize) -> bool
    ensures { result ≡ agree_at (slice_get types.now i) (slice_get others.now i) }
{
    match types.get(i) {
        Some(one) => match others.get(i) {
            Some(other) => same_type(*one, *other),
            None => false,
        },
        None => false,
    }
}
