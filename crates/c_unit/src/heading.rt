// The header of a module.
ghost use Rattle.std.specs.Prelude.{◌≡◌, ◌++◌, ◌∷◌, [], IfOk, OnOk};
ghost use Rattle.unit_definition.specs.Items.{header_of};
ghost use Rattle.c_unit.specs.Lines.{line_of};
ghost use Rattle.c_symbols.specs.Named.{named_of};

use c_symbols::Indexes;
use c_tree::{CType, CTypes, Header, HeaderLines, Name, c_types};
use std::alloc::Global;
use w2c_base::{Bytes, Memory};
use w2c_mangle::init_symbol;
use wasm_tree::Export;
use wasm_typing::ValidModule;

/// The header of a module under a name: it declares the init function, and then the function of each
/// export.
pub fn header(alloc: Global, m: &ValidModule, name: &[u8]) -> Result<Header, Memory>
    ensures { IfOk result (λ header. header ≡ header_of m.now name.now) }
{
    let indexes = Indexes::new(alloc, m.module(), name)?;
    header_by(alloc, &indexes)
}

// The same by the module's index spaces.
fn header_by(alloc: Global, indexes: &Indexes) -> Result<Header, Memory>
    ensures { IfOk result (λ header. header ≡ header_of indexes.now.tree.now indexes.now.name.now) }
{
    let module = Bytes::from_vec(Vec::from_slice(alloc, indexes.name())?);
    let lines = header_lines(alloc, indexes)?;
    Ok(Header { module, lines })
}

fn header_lines(alloc: Global, indexes: &Indexes) -> Result<HeaderLines, Memory>
    ensures { IfOk result (λ lines. lines ≡ (header_of indexes.now.tree.now indexes.now.name.now).lines) }
{
    let init = Name::from_bytes(alloc, init_symbol(alloc, indexes.name())?)?;
    let mut lines = HeaderLines::new(alloc);
    lines.push((CType::Void, init, CTypes::new(alloc)))?;
    for export in indexes.tree().exports.as_slice() {
        put_line(alloc, &mut lines, indexes, export)?;
    }
    Ok(lines)
}

#[tactic(auto, using(c_tree::proofs::TypesInC::proper_params))]
fn put_line(
    alloc: Global,
    lines: &mut HeaderLines,
    indexes: &Indexes,
    export: &Export,
) -> Result<(), Memory>
    ensures { OnOk result (lines.new ≡ lines.old ++ line_of (named_of indexes.now) export.now ∷ []) }
{
    let symbol = indexes.export(alloc, export)?;
    let types = c_types(alloc, symbol.ty.params)?;
    lines.push((symbol.ty.result, symbol.name, types))
}
