// The checker of modules (WebAssembly Core 1.0, 3.4.10).
ghost use Rattle.std.specs.Prelude.{◌≡◌, ◌≢◌, Ok, Err, IfOk, OnOk};
ghost use Rattle.wasm_spelling.specs.Places.{IsFormed};
ghost use Rattle.wasm_typing.specs.declared.fault.Fault.{Fault as OneFault};
ghost use Rattle.wasm_typing.specs.declared.fault.ValidRefusal.TheVariants.{Invalid as refused_by, Memory as memory_wanted};
ghost use Rattle.wasm_typing.specs.Verdict.{Verdict, Invalid, IsValid, bodies_of};
ghost use Rattle.wasm_valid.specs.SaysVerdict.{SaysVerdict};
ghost use Rattle.body_check.specs.Seen.{AreSpacesOf};
ghost use Rattle.wasm_valid.specs.EnteredBodies.{body_context_seen, EntersBody, EntersBodies};

use crate::first::FirstFault;
use crate::rows::enter_module_faults;
use body_check::{Spaces, check_body};
use std::alloc::Global;
use w2c_base::Memory;
use wasm_tree::{BodyEntry, FuncEntry, Module};
use wasm_typing::{ValidModule, ValidRefusal};

/// Modules that are checked.
pub trait Check {
    /// Checks a module. The checker calls itself for each block in a block: in a module that has a file they are at
    /// most 500 deep.
    ///
    /// # Errors
    ///
    /// `Invalid` where the module is not valid, with its first fault: the one with the least place, and of several there
    /// the one of the earliest row of the table of causes. `Memory` where memory was wanting, which may come in any case.
    /// The module is dropped.
    fn check(alloc: Global, m: Module) -> Result<ValidModule, ValidRefusal>
        // Some file spells it, places aside.
        requires { IsFormed m }
        // What is accepted is this module,
        ensures found { IfOk result (λ checked. checked ≡ m) }
        // and it is valid.
        ensures valid { OnOk result (IsValid m) }
        // What is valid is accepted.
        ensures only { IsValid m → result ≢ Err memory_wanted → result ≡ Ok m }
        // A fault is the first one.
        ensures first { (fault : OneFault) → result ≡ Err (refused_by fault.place fault.cause) → Verdict m (Invalid fault) }
        // The first fault is given.
        ensures first_only { (fault : OneFault) → Verdict m (Invalid fault) → result ≢ Err memory_wanted
            → result ≡ Err (refused_by fault.place fault.cause) };
}

impl Check for ValidModule {
    fn check(alloc: Global, m: Module) -> Result<ValidModule, ValidRefusal> {
        match refuse_faults(alloc, &m) {
            Ok(()) => Ok(ValidModule::known(m)),
            Err(refusal) => Err(refusal),
        }
    }
}

fn refuse_faults(alloc: Global, m: &Module) -> Result<(), ValidRefusal>
    ensures { SaysVerdict result m.now }
{
    let spaces = Spaces::new(alloc, m)?;
    refuse_first(alloc, m, &spaces)
}

// Refuses a module of these index spaces by its first fault.
fn refuse_first(alloc: Global, m: &Module, spaces: &Spaces) -> Result<(), ValidRefusal>
    requires { AreSpacesOf spaces.now m.now }
    ensures { SaysVerdict result m.now }
{
    let mut first = FirstFault::new();
    enter_module_faults(alloc, m, spaces, &mut first)?;
    enter_body_faults(alloc, m, spaces, &mut first)?;
    match first.found() {
        Some(fault) => Err(ValidRefusal::Invalid(fault.place, fault.cause)),
        None => Ok(()),
    }
}

fn enter_body_faults(
    alloc: Global,
    m: &Module,
    spaces: &Spaces,
    first: &mut FirstFault,
) -> Result<(), Memory>
    requires { AreSpacesOf spaces.now m.now }
    ensures { OnOk result (EntersBodies m.now (bodies_of m.now) first.old.found first.new.found) }
{
    for (func, body) in m.funcs.as_slice().iter().zip(m.bodies.as_slice()) {
        enter_body_fault(alloc, spaces, func, body, first)?;
    }
    Ok(())
}

// The body of a function. Where the function has no type nothing is asked of the body.
fn enter_body_fault(
    alloc: Global,
    spaces: &Spaces,
    func: &FuncEntry,
    body: &BodyEntry,
    first: &mut FirstFault,
) -> Result<(), Memory>
    ensures { OnOk result (EntersBody (body_context_seen spaces.now func.now body.now) body.now first.old.found first.new.found) }
{
    let Some(ty) = spaces.func_type(func.type_index) else {
        return Ok(());
    };
    match check_body(alloc, spaces, ty, body) {
        Ok(()) => Ok(()),
        Err(ValidRefusal::Invalid(place, cause)) => {
            first.enter(place, cause);
            Ok(())
        }
        Err(ValidRefusal::Memory) => Err(Memory),
    }
}
