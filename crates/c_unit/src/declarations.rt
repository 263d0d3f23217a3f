// The symbols that the unit declares.
ghost use Rattle.std.specs.Prelude.{◌≡◌, ◌++◌, ◌∷◌, [], is_some, map, IfOk, OnOk};
ghost use Rattle.w2c_base.specs.Lookup.{named};
ghost use Rattle.c_symbols.specs.Symbols.{declared_symbols};
ghost use Rattle.c_symbols.specs.Named.{named_of, pair_of};
ghost use Rattle.c_unit.specs.Seen.{PutsFirst, SeesMore};
ghost use Rattle.c_symbols.specs.Typed.{type_of};

use c_symbols::{Symbol, SymbolType, Symbols};
use c_tree::Name;
use name_table::NameTable;
use std::alloc::Global;
use w2c_base::Memory;

#[tactic(auto, using(crate::proofs::SeenNames::put_more))]
fn put<'a>(list: &mut Vec<Symbol<'a>>, name: Name, ty: SymbolType<'a>) -> Result<(), Memory>
    ensures { OnOk result (map pair_of list.new.items ≡ map pair_of list.old.items ++ (name, type_of ty.entry) ∷ []) }
{
    list.push(Symbol { name, ty })?;
    Ok(())
}

// A symbol that comes for the first time.
#[tactic(auto, using(crate::proofs::SeenNames::entered, crate::proofs::SeenNames::not_entered, crate::proofs::SeenNames::put_none))]
fn put_if<'a>(
    alloc: Global,
    symbols: &Symbols<'a>,
    seen: &mut NameTable<()>,
    list: &mut Vec<Symbol<'a>>,
    name: Name,
) -> Result<(), Memory>
    ensures seen { OnOk result (SeesMore seen.new seen.old (is_some (named name seen.old)) name) }
    ensures list { OnOk result (PutsFirst (named_of symbols.now.indexes) (map pair_of list.new.items) (map pair_of list.old.items) (is_some (named name seen.old)) name) }
{
    if seen.has(name.as_slice()) {
        Ok(())
    } else {
        seen.enter(alloc, name.as_slice(), ())?;
        let ty = symbols.declared_type(name.as_slice());
        put(list, name, ty)
    }
}

/// The symbols that the unit declares, each once, with their types there.
pub(crate) fn declared<'a>(alloc: Global, symbols: &Symbols<'a>) -> Result<Vec<Symbol<'a>>, Memory>
    ensures { IfOk result (λ list. map pair_of list.items ≡ declared_symbols (named_of symbols.now.indexes)) }
{
    let mut seen: NameTable<()> = NameTable::new(alloc, symbols.salt);
    let mut list: Vec<Symbol<'a>> = Vec::new(alloc);
    let spaces = symbols.indexes();
    let imports = spaces.tree().imports.as_slice();
    for place in 0..imports.len() {
        let name = symbols.imported(place).name.copy(alloc)?;
        put_if(alloc, symbols, &mut seen, &mut list, name)?;
    }
    Ok(list)
}
