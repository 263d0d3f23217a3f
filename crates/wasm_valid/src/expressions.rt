// The faults of initial and offset expressions (WebAssembly Core 1.0, 3.3.7).
ghost use Rattle.std.specs.Prelude.{◌≡◌, flat_map, slice_get};
ghost use Rattle.wasm_typing.specs.ModuleFaults.{expressions, shape_of, shape_of_global, is_no_constant, is_got_unknown, has_other_type};
ghost use Rattle.body_check.specs.Seen.{AreSpacesOf};
ghost use Rattle.wasm_valid.specs.Entered.{entered};
ghost use Rattle.wasm_valid.specs.Expressions.{shape_seen, globals_reached, shape_fault, expression_fault, initial_of, element_offset, segment_offset};

use crate::first::FirstFault;
use body_check::Spaces;
use w2c_base::ValType;
use wasm_tree::{Code, Kind, Module};
use wasm_typing::ValidCause;

/// Which globals an expression may get.
#[derive(Clone, Copy)]
enum Reach {
    Imported,
    All,
}

/// What an initial or an offset expression is.
#[derive(Clone, Copy)]
enum Shape {
    Constant(ValType),
    Got(ValType, bool),
    GotUnknown,
    Neither,
}

/// A fault that an expression can have.
#[derive(Clone, Copy)]
pub(crate) enum ExpressionRow {
    ConstantExpected,
    UnknownGlobal,
    TypeMismatch,
}

/// Enters the faults of one row, of all expressions of a module.
pub(crate) fn enter_expressions(
    m: &Module,
    spaces: &Spaces,
    row: ExpressionRow,
    first: &mut FirstFault,
)
    requires { AreSpacesOf spaces.now m.now }
    ensures { first.new.found ≡ entered first.old.found (flat_map (expression_fault row) (expressions m.now)) }
{
    enter_initials(m, spaces, row, first);
    enter_element_offsets(m, spaces, row, first);
    enter_segment_offsets(m, spaces, row, first);
}

#[tactic(auto, using(crate::proofs::Entered::entered_step))]
fn enter_initials(m: &Module, spaces: &Spaces, row: ExpressionRow, first: &mut FirstFault)
    requires { AreSpacesOf spaces.now m.now }
    ensures { first.new.found ≡ entered first.old.found (flat_map (λ g. expression_fault row (initial_of m.now g)) m.now.globals) }
{
    for global in m.globals.as_slice() {
        let shape = shape_of(spaces, Reach::Imported, &global.code);
        enter_shape(row, shape, global.ty, global.place, first);
    }
}

#[tactic(auto, using(crate::proofs::Entered::entered_step))]
fn enter_element_offsets(m: &Module, spaces: &Spaces, row: ExpressionRow, first: &mut FirstFault)
    requires { AreSpacesOf spaces.now m.now }
    ensures { first.new.found ≡ entered first.old.found (flat_map (λ e. expression_fault row (element_offset m.now e)) m.now.elements) }
{
    for element in m.elements.as_slice() {
        let shape = shape_of(spaces, Reach::All, &element.offset);
        enter_shape(row, shape, ValType::I32, element.offset_place, first);
    }
}

#[tactic(auto, using(crate::proofs::Entered::entered_step))]
fn enter_segment_offsets(m: &Module, spaces: &Spaces, row: ExpressionRow, first: &mut FirstFault)
    requires { AreSpacesOf spaces.now m.now }
    ensures { first.new.found ≡ entered first.old.found (flat_map (λ s. expression_fault row (segment_offset m.now s)) m.now.segments) }
{
    for segment in m.segments.as_slice() {
        let shape = shape_of(spaces, Reach::All, &segment.offset);
        enter_shape(row, shape, ValType::I32, segment.offset_place, first);
    }
}

fn shape_of(spaces: &Spaces, reach: Reach, code: &Code) -> Shape
    ensures { shape_seen result ≡ shape_of (globals_reached spaces.now reach) code.now }
{
    let [instr] = code.as_slice() else {
        return Shape::Neither;
    };
    match instr.kind {
        Kind::I32Const(_) => Shape::Constant(ValType::I32),
        Kind::I64Const(_) => Shape::Constant(ValType::I64),
        Kind::GlobalGet(index) => shape_of_global(spaces, reach, index),
        _ => Shape::Neither,
    }
}

fn shape_of_global(spaces: &Spaces, reach: Reach, index: u32) -> Shape
    ensures { shape_seen result ≡ shape_of_global (slice_get (globals_reached spaces.now reach) index) }
{
    let global = match reach {
        Reach::Imported => spaces.imported_global(index),
        Reach::All => spaces.global(index),
    };
    match global {
        None => Shape::GotUnknown,
        Some((ty, mutable)) => Shape::Got(ty, mutable),
    }
}

fn enter_shape(
    row: ExpressionRow,
    shape: Shape,
    wanted: ValType,
    place: u32,
    first: &mut FirstFault,
)
    ensures { first.new.found ≡ entered first.old.found (shape_fault row (shape_seen shape) wanted place) }
{
    match row {
        ExpressionRow::ConstantExpected => {
            first.enter_if(is_no_constant(shape), place, ValidCause::ConstantExpected);
        }
        ExpressionRow::UnknownGlobal => {
            first.enter_if(is_got_unknown(shape), place, ValidCause::UnknownGlobal);
        }
        ExpressionRow::TypeMismatch => {
            first.enter_if(
                has_other_type(wanted, shape),
                place,
                ValidCause::TypeMismatch,
            );
        }
    }
}

fn is_no_constant(shape: Shape) -> bool
    ensures { result ≡ is_no_constant (shape_seen shape) }
{
    match shape {
        Shape::Neither => true,
        Shape::Got(_, mutable) => mutable,
        Shape::Constant(_) | Shape::GotUnknown => false,
    }
}

fn is_got_unknown(shape: Shape) -> bool
    ensures { result ≡ is_got_unknown (shape_seen shape) }
{
    matches!(shape, Shape::GotUnknown)
}

fn has_other_type(wanted: ValType, shape: Shape) -> bool
    ensures { result ≡ has_other_type wanted (shape_seen shape) }
{
    match shape {
        Shape::Constant(ty) | Shape::Got(ty, _) => ty != wanted,
        Shape::GotUnknown | Shape::Neither => false,
    }
}
