// The modules that joined, with their units.
ghost use Rattle.std.specs.Prelude.{◌≡◌, ◌≤◌, ◌∷◌, ◌++◌, [], length, map, true, false, None, IfOk, OnOk};
ghost use Rattle.std.specs.List.{AllByRecursion};
ghost use Rattle.c_tree.specs.View.{unit_of};
ghost use Rattle.c_meaning.specs.Linking.{link_refusal};
ghost use Rattle.wasm_meaning.specs.LinkedSet.{IsLinked};
ghost use Rattle.wasm_meaning.specs.Run.{Fits};
ghost use Rattle.wasm_set.specs.Sets.{set_of};
ghost use Rattle.wast_run.specs.Ran.{alone};
ghost use Rattle.wast_run.specs.Runs.{listed_call, listed_calls, HasCome};
ghost use Rattle.wast_run.specs.Joined.{units_in, HaveUnits};

use crate::module_units::{checked_unit, linked_alone};
use crate::no_host::NoHost;
use crate::runs::{Came, came_of, units_come_to_what_modules_come_to};
use crate::session_runs::run_again;
use c_rules::CheckedUnit;
use crun::Session;
use std::alloc::Global;
use std::mem::replace;
use unit_meaning::{units_do_what_modules_do, units_of_a_linked_set_link};
use w2c_base::{Bytes, Memory, Value};
use wasm_set::ModuleSet;
use wasm_typing::ValidModule;
use wast_script::Call;

/// The modules that joined, in order, and a session of their units, which were translated once, each when its module joined,
/// and are linked. No session where no module joined; after want of memory it may be gone.
#[derive(Drop)]
pub(crate) struct LinkedModules {
    set: ModuleSet,
    session: Option<Session<NoHost>>,
}

impl LinkedModules {
    /// No modules.
    pub(crate) fn new(alloc: Global) -> LinkedModules
        ensures none { result.set ≡ [] }
        ensures units { HaveUnits result }
    {
        LinkedModules {
            set: ModuleSet::new(alloc),
            session: None,
        }
    }

    /// Lets a module join under a name, where the modules are a linked set with it, as `ModuleSet` does, and links its unit
    /// with the others.
    ///
    /// # Errors
    ///
    /// `Memory` where memory was wanting.
    pub(crate) fn join(
        &mut self,
        alloc: Global,
        name: Bytes,
        module: ValidModule,
    ) -> Result<bool, Memory>
        requires units { HaveUnits self.old }
        requires named { (1 ≤ length name) × (length name ≤ 1024) }
        ensures joined { IfOk result (λ joined. joined ≡ true
            → self.new.set ≡ self.old.set ++ record { name = name; «module» = «module» } ∷ []) }
        ensures linked { IfOk result (λ joined. joined ≡ true
            → IsLinked (set_of (self.old.set ++ record { name = name; «module» = «module» } ∷ []))) }
        ensures unlinked { IfOk result (λ joined. joined ≡ false
            → IsLinked (set_of (self.old.set ++ record { name = name; «module» = «module» } ∷ [])) → ⊥) }
        ensures unchanged { IfOk result (λ joined. joined ≡ false → self.new.set ≡ self.old.set) }
        ensures units { OnOk result (HaveUnits self.new) }
    {
        units_of_a_linked_set_link();
        let unit = match checked_unit(alloc, &module, name.as_slice()) {
            Ok(unit) => unit,
            Err(Memory) => {
                drop(module);
                return Err(Memory);
            }
        };
        match self.set.join(alloc, name, module) {
            Ok(true) => {
                let session = match session_with(alloc, self.session.take(), unit) {
                    Ok(session) => session,
                    Err(Memory) => return Err(Memory),
                };
                drop(replace(&mut self.session, Some(session)));
                Ok(true)
            }
            Ok(false) => {
                drop(unit);
                Ok(false)
            }
            Err(Memory) => {
                drop(unit);
                Err(Memory)
            }
        }
    }

    /// Whether a call of an export of a module fits, as `ModuleSet` has it.
    pub(crate) fn fits(&self, module_name: &[u8], export_name: &[u8], args: &[Value]) -> bool
        ensures fits { result ≡ true
            → Fits (set_of self.now.set) (record { module_name = module_name.now; export_name = export_name.now; args = args.now }) }
        ensures misfits { result ≡ false
            → Fits (set_of self.now.set) (record { module_name = module_name.now; export_name = export_name.now; args = args.now }) → ⊥ }
    {
        self.set.fits(module_name, export_name, args)
    }

    /// Runs the units from fresh objects, without hosts and with at most so many statements: the init functions, the calls
    /// that were kept, and a last one.
    ///
    /// # Errors
    ///
    /// `Memory` where memory was wanting; the units are gone then.
    pub(crate) fn run_last(
        &mut self,
        alloc: Global,
        kept: &[&Call],
        last: &Call,
        steps: u64,
    ) -> Result<Came, Memory>
        requires units { HaveUnits self.old }
        requires fit { AllByRecursion (Fits (set_of self.old.set)) (listed_calls kept.now ++ listed_call last.now ∷ []) }
        ensures came { IfOk result (HasCome (set_of self.old.set) (listed_calls kept.now ++ listed_call last.now ∷ []) steps) }
        ensures units { OnOk result (HaveUnits self.new) }
        ensures set { self.new.set ≡ self.old.set }
    {
        units_do_what_modules_do();
        units_come_to_what_modules_come_to();
        let session = match self.session.take() {
            Some(session) => session,
            None => unreachable!(),
        };
        let (ran, session) = match run_again(alloc, session, kept, last, steps) {
            Ok(ran) => ran,
            Err(Memory) => return Err(Memory),
        };
        drop(replace(&mut self.session, Some(session)));
        match came_of(ran) {
            Some(came) => Ok(came),
            None => unreachable!(),
        }
    }
}

// A session of the units that were linked before, if any, and of one more.
fn session_with(
    alloc: Global,
    before: Option<Session<NoHost>>,
    unit: CheckedUnit,
) -> Result<Session<NoHost>, Memory>
    requires { link_refusal (alone (units_in before ++ unit_of unit ∷ [])) ≡ None }
    ensures units { IfOk result (λ s. map unit_of s.linked.0 ≡ units_in before ++ unit_of unit ∷ []) }
    ensures no_hosts { IfOk result (λ s. s.hosts ≡ []) }
{
    let mut units = units_of(alloc, before);
    units.push(unit)?;
    let linked = match linked_alone(alloc, units) {
        Ok(linked) => linked,
        Err(Memory) => return Err(Memory),
    };
    let session = match Session::start(alloc, linked, Vec::new(alloc), 0) {
        Ok(session) => session,
        Err(Memory) => return Err(Memory),
    };
    Ok(session)
}

fn units_of(alloc: Global, before: Option<Session<NoHost>>) -> Vec<CheckedUnit>
    ensures { map unit_of result.items ≡ units_in before }
{
    match before {
        Some(session) => session.into_linked().into_units(),
        None => Vec::new(alloc),
    }
}
