// The modules that joined a set, in order.
ghost use Rattle.std.specs.Prelude.{◌≡◌, ◌++◌, [], ◌∷◌, true, false, IfOk, OnOk, OnErr};
ghost use Rattle.wasm_meaning.specs.LinkedSet.{IsLinked};
ghost use Rattle.wasm_meaning.specs.Run.{Fits};
ghost use Rattle.wasm_set.specs.Sets.{set_of};
ghost use Rattle.wasm_set.specs.Joining.{may_join};

use crate::SetModule;
use crate::joining::{may_join, takes};
use crate::offer::OfferTable;
use crate::offers::offers_of;
use std::alloc::Global;
use std::marker::Model;
use w2c_base::{Bytes, Memory, Value};
use wasm_tree::Module;
use wasm_typing::ValidModule;

/// Modules under names that are a linked set without hosts (WebAssembly Core 1.0, 4.5.4), in the order in which they
/// joined.
#[derive(Drop)]
pub struct ModuleSet {
    modules: Vec<SetModule>,
    /// What each module offers under each name.
    tables: Vec<OfferTable>,
}

impl Model for ModuleSet {
    ghost use Rattle.std.specs.Prelude.{List};
    ghost use Rattle.std.specs.Coded.{codes};
    ghost use Rattle.wasm_tree.specs.contracts.code.Code as code;
    ghost use Rattle.wasm_meaning.specs.LinkedSet.{IsLinked};
    ghost use Rattle.wasm_set.specs.declared.set_module.SetModule.{SetModule as Joined};
    ghost use Rattle.wasm_set.specs.Sets.{set_of};
    ghost use Rattle.wasm_set.specs.Tables.{AreTables};

    ghost Value = { List Joined };

    ghost coded = { Prim.hlevel (codes, code.the_row.coded) };

    ghost view = { λ set. set.modules.items };

    ghost invariant = { λ set. IsLinked (set_of set.modules.items) × AreTables set.tables.items set.modules.items };
}

impl ModuleSet {
    /// No modules. It takes no memory.
    pub fn new(alloc: Global) -> ModuleSet
        ensures { result ≡ [] }
    {
        ModuleSet {
            modules: Vec::new(alloc),
            tables: Vec::new(alloc),
        }
    }

    /// The modules, in the order in which they joined.
    pub fn modules(&self) -> &[SetModule]
        ensures modules { result.now ≡ self.now }
        ensures linked { IsLinked (set_of result.now) }
    {
        self.modules.as_slice()
    }

    /// Lets a module join behind the others, under a name, where the list with it is a linked set: it has at most 16
    /// modules, no other has the name, and each import names an export of an earlier module, of its kind and of equal
    /// type. Limits of tables and memories are not looked at. Gives whether it joined; a module that did not is dropped.
    ///
    /// # Errors
    ///
    /// `Memory` where memory was wanting; the set stays as it was, and the module is dropped.
    pub fn join(&mut self, alloc: Global, name: Bytes, module: ValidModule) -> Result<bool, Memory>
        // It joins,
        ensures joined { IfOk result (λ joined. joined ≡ true → self.new ≡ self.old ++ record { name = name; «module» = «module» } ∷ []) }
        // where that is a linked set,
        ensures linked { IfOk result (λ joined. joined ≡ true
            → IsLinked (set_of (self.old ++ record { name = name; «module» = «module» } ∷ []))) }
        // and nowhere else.
        ensures unlinked { IfOk result (λ joined. joined ≡ false
            → IsLinked (set_of (self.old ++ record { name = name; «module» = «module» } ∷ [])) → ⊥) }
        ensures unchanged { IfOk result (λ joined. joined ≡ false → self.new ≡ self.old) }
        ensures err { OnErr result (self.new ≡ self.old) }
    {
        if !self.has_place_for(name.as_slice(), module.module()) {
            return Ok(false);
        }
        let offers = offers_of(alloc, module.module())?;
        let set_module = SetModule { name, module };
        push_both(&mut self.modules, &mut self.tables, set_module, offers)?;
        Ok(true)
    }

    // Whether a module may join.
    fn has_place_for(&self, name: &[u8], m: &Module) -> bool
        ensures { result ≡ may_join self.now name.now m.now }
    {
        may_join(self.modules.as_slice(), self.tables.as_slice(), name, m)
    }

    /// Whether a call of the export of this name of the module of this name with these arguments fits: it is a function,
    /// and its parameters have the types of the arguments.
    pub fn fits(&self, module_name: &[u8], export_name: &[u8], args: &[Value]) -> bool
        ensures fits { result ≡ true
            → Fits (set_of self.now) (record { module_name = module_name.now; export_name = export_name.now; args = args.now }) }
        ensures misfits { result ≡ false
            → Fits (set_of self.now) (record { module_name = module_name.now; export_name = export_name.now; args = args.now }) → ⊥ }
    {
        takes(
            self.modules.as_slice(),
            self.tables.as_slice(),
            module_name,
            export_name,
            args,
        )
    }
}

// Puts a module and its table at the ends of both lists, or leaves both.
fn push_both(
    modules: &mut Vec<SetModule>,
    tables: &mut Vec<OfferTable>,
    module: SetModule,
    table: OfferTable,
) -> Result<(), Memory>
    ensures modules { OnOk result (modules.new.items ≡ modules.old.items ++ «module» ∷ []) }
    ensures tables { OnOk result (tables.new.items ≡ tables.old.items ++ table ∷ []) }
    ensures modules_stay { OnErr result (modules.new.items ≡ modules.old.items) }
    ensures tables_stay { OnErr result (tables.new.items ≡ tables.old.items) }
{
    tables.push(table)?;
    match modules.push(module) {
        Ok(()) => Ok(()),
        Err(_) => {
            tables.pop();
            Err(Memory)
        }
    }
}
