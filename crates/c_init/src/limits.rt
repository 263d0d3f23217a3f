// The init function takes what is imported: a pointer is set, and a table's or a memory's limits are
// tested.
ghost use Rattle.std.specs.Prelude.{◌≡◌, ◌∷◌, [], Some, ◌<◌, ◌-◌, ◌^◌, ◌++◌, suc, not, if◌then◌else◌, codes, filter, map, IfOk, OnOk};
ghost use Rattle.wasm_tree.specs.IndexSpaces.{is_func_import, is_global_import};
ghost use Rattle.c_tree.specs.View.{stmt_of};
ghost use Rattle.c_tree.specs.Primitives.{primitive_name};
ghost use Rattle.c_tree.specs.Tree as tree;
ghost use Rattle.c_tree.specs.declared.tree.COp.TheVariants as op;
ghost use Rattle.c_tree.specs.DefinedNames.{memory_name, table_name, label_name as label_name_of, pointer_name as pointer_name_of};
ghost use Rattle.c_init.specs.Init as of;
ghost use Rattle.c_init.specs.SetPointers.{pointer_set};

use crate::source::Source;
use crate::statements::{jump, pointer_arg, reading, size};
use c_symbols::{MEMORY_NAME, Symbol, TABLE_NAME, global_name, pointer_name};
use c_tree::{Args, COp, Callee, Name, Primitive, Stmt, Stmts, label_name, n64, operation};
use std::alloc::Global;
use w2c_base::Memory;
use wasm_tree::{Import, ImportKind, Limits};

fn put_reading(
    alloc: Global,
    stmts: &mut Stmts,
    read: Primitive,
    object: &[u8],
) -> Result<(), Memory>
    ensures { OnOk result (map stmt_of stmts.new ≡ map stmt_of stmts.old ++ of.primitive (Some of.size_name) (primitive_name read) (tree.Value (tree.Name (pointer_name_of object.now)) ∷ []) ∷ []) }
{
    stmts.push(reading(alloc, read, pointer_arg(alloc, object)?)?)
}

// The test of the size that was read, in units.
fn least_test(alloc: Global, unit: u64, min: u32) -> Result<Stmt, Memory>
    ensures { IfOk result (λ s. stmt_of s ≡ tree.If op.Lt (tree.Op op.Div (tree.Name of.size_name) (of.n64 unit)) (of.n64 min) (label_name_of of.limits_label)) }
{
    let label = label_name(alloc, 0)?;
    let units = operation(alloc, COp::Div, size(alloc)?, n64(unit))?;
    Ok(jump(COp::Lt, units, n64(min as u64), label))
}

fn put_least(
    alloc: Global,
    stmts: &mut Stmts,
    object: &[u8],
    len_of: Primitive,
    unit: u64,
    min: u32,
) -> Result<(), Memory>
    ensures { OnOk result (map stmt_of stmts.new ≡ map stmt_of stmts.old ++ of.primitive (Some of.size_name) (primitive_name len_of) (tree.Value (tree.Name (pointer_name_of object.now)) ∷ [])
        ∷ tree.If op.Lt (tree.Op op.Div (tree.Name of.size_name) (of.n64 unit)) (of.n64 min) (label_name_of of.limits_label) ∷ []) }
{
    put_reading(alloc, stmts, len_of, object)?;
    stmts.push(least_test(alloc, unit, min)?)
}

#[tactic(auto, using(crate::proofs::Takes::least_none))]
fn put_min(
    alloc: Global,
    stmts: &mut Stmts,
    object: &[u8],
    len_of: Primitive,
    unit: u64,
    min: u32,
) -> Result<(), Memory>
    ensures { OnOk result (map stmt_of stmts.new ≡ map stmt_of stmts.old ++ of.test_min object.now (primitive_name len_of) unit min) }
{
    if min > 0 {
        put_least(alloc, stmts, object, len_of, unit, min)
    } else {
        Ok(())
    }
}

fn put_max(
    alloc: Global,
    stmts: &mut Stmts,
    object: &[u8],
    max_of: Primitive,
    max: Option<u32>,
) -> Result<(), Memory>
    ensures { OnOk result (map stmt_of stmts.new ≡ map stmt_of stmts.old ++ of.test_max object.now (primitive_name max_of) max) }
{
    match max {
        None => Ok(()),
        Some(max) => {
            put_reading(alloc, stmts, max_of, object)?;
            let label = label_name(alloc, 0)?;
            stmts.push(jump(COp::Gt, size(alloc)?, n64(max as u64), label))
        }
    }
}

fn set_pointer(alloc: Global, symbol: Option<Name>, object: &[u8]) -> Result<Stmt, Memory>
    ensures { IfOk result (λ s. stmt_of s ≡ pointer_set symbol object.now) }
{
    match symbol {
        None => Ok(Stmt::Null),
        Some(symbol) => {
            let pointer = pointer_name(alloc, object)?;
            Ok(Stmt::Call(Some(pointer), Callee::Named(symbol), Args::new(alloc)))
        }
    }
}

fn put_table(alloc: Global, stmts: &mut Stmts, limits: Limits) -> Result<(), Memory>
    ensures { OnOk result (map stmt_of stmts.new ≡ map stmt_of stmts.old ++ of.test_limits table_name (codes "w2c_tab_len") (codes "w2c_tab_max") 1 limits) }
{
    put_min(alloc, stmts, TABLE_NAME, Primitive::TabLen, 1, limits.min)?;
    put_max(alloc, stmts, TABLE_NAME, Primitive::TabMax, limits.max)
}

fn put_memory(alloc: Global, stmts: &mut Stmts, limits: Limits) -> Result<(), Memory>
    ensures { OnOk result (map stmt_of stmts.new ≡ map stmt_of stmts.old ++ of.test_limits memory_name (codes "w2c_mem_len") (codes "w2c_mem_max") 65536 limits) }
{
    put_min(
        alloc,
        stmts,
        MEMORY_NAME,
        Primitive::MemLen,
        65_536,
        limits.min,
    )?;
    put_max(alloc, stmts, MEMORY_NAME, Primitive::MemMax, limits.max)
}

// The number of the next imported global.
fn next_number(number: usize, import: &Import) -> usize
    requires { number < 2 ^ 64 - 1 }
    ensures { result ≡ (if is_global_import import.now then suc number else number) }
{
    match import.kind {
        ImportKind::Global(_, _) => 1 + number,
        _ => number,
    }
}

impl<'a> Source<'a> {
    ghost use Rattle.c_init.specs.Sources.{module_of};
    ghost use Rattle.c_symbols.specs.Named.{pair_of, typed_import};

    // The pointer to an imported object is set, where the import may be used.
    fn put_pointer(
        &self,
        stmts: &mut Stmts,
        import: &Import,
        symbol: &Symbol,
        object: &[u8],
    ) -> Result<(), Memory>
        requires { pair_of symbol.now ≡ typed_import self.now.tree.now import.now }
        ensures { OnOk result (map stmt_of stmts.new ≡ map stmt_of stmts.old ++ of.set_pointer (module_of self.now) import.now object.now ∷ []) }
    {
        let name = self.symbols().usable(self.alloc, symbol)?;
        stmts.push(set_pointer(self.alloc, name, object)?)?;
        Ok(())
    }

    fn put_take(
        &self,
        stmts: &mut Stmts,
        number: usize,
        import: &Import,
        symbol: &Symbol,
    ) -> Result<(), Memory>
        requires { pair_of symbol.now ≡ typed_import self.now.tree.now import.now }
        ensures { OnOk result (map stmt_of stmts.new ≡ map stmt_of stmts.old ++ of.take_stmts (module_of self.now) number import.now) }
    {
        match import.kind {
            ImportKind::Func(_) => Ok(()),
            ImportKind::Table(limits) => {
                self.put_pointer(stmts, import, symbol, TABLE_NAME)?;
                put_table(self.alloc, stmts, limits)
            }
            ImportKind::Memory(limits) => {
                self.put_pointer(stmts, import, symbol, MEMORY_NAME)?;
                put_memory(self.alloc, stmts, limits)
            }
            ImportKind::Global(_, _) => {
                let name = global_name(self.alloc, number)?;
                self.put_pointer(stmts, import, symbol, name.as_slice())
            }
        }
    }

    /// The imports in order.
    pub(crate) fn put_takes(&self, stmts: &mut Stmts) -> Result<(), Memory>
        ensures { OnOk result (map stmt_of stmts.new ≡ map stmt_of stmts.old ++ of.takes_from (module_of self.now) 0 (filter (λ i. not (is_func_import i)) self.now.tree.now.imports)) }
    {
        let mut number = 0usize;
        let imports = self.tree.imports.as_slice();
        for (place, import) in imports.iter().enumerate() {
            self.put_take(stmts, number, import, self.symbols().imported(place))?;
            number = next_number(number, import);
        }
        Ok(())
    }
}
