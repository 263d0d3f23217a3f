// Helpers as functions of the C subset.
ghost use Rattle.std.specs.Prelude.{◌≡◌, ◌≤◌, ◌++◌, ◌∷◌, [], map, true, Some, IfOk};
ghost use Rattle.c_tree.specs.View.{func_of, stmt_of};
ghost use Rattle.c_helpers.specs.Pieces.{all_placed, staged, nothing_made};
ghost use Rattle.c_helpers.specs.Helpers.{access_stmts, helper_of};
ghost use Rattle.c_helpers.specs.Bodies.{locals_of, stmts_of};
ghost use Rattle.c_helpers.specs.Helpers as of;

use crate::body::{Variable, end_size, number_locals, operands, result_type, sizes};
use crate::builder::Builder;
use crate::number_tables::{end, stage};
use crate::object_tables::{ACCESS, COPY, ELEMENT, FILL, LOAD, LOAD_S, SIZE, STORE};
use crate::operation::{Helper, form_name, load_name, number_row, prefix, store_name};
use crate::parts::letter;
use crate::piece::{Piece, Setting};
use c_tree::{Body, CType, Func, Locals, Name, Params, Stmts, c_type, name_of, zero_number};
use std::alloc::Global;
use w2c_base::{Memory, ValType};
use wasm_tree::Access;

/// The function of a helper: static, and named for its instruction. `Memory` comes only where memory was wanting.
pub fn helper(alloc: Global, which: Helper) -> Result<Func, Memory>
    ensures { IfOk result (λ func. func_of func ≡ helper_of which) }
{
    let name = helper_name(alloc, which)?;
    let params = params_of(alloc, params(which))?;
    let locals = locals_of(alloc, locals(which))?;
    let stmts = stmts(alloc, which)?;
    Ok(function(name, returns(which), params, locals, stmts))
}

/// The name of a helper's function.
pub fn helper_name(alloc: Global, which: Helper) -> Result<Name, Memory>
    ensures { IfOk result (λ name. name ≡ (helper_of which).name) }
{
    match which {
        Helper::Num(op) => {
            let row = number_row(op);
            let name = Name::joined(alloc, prefix(row.ty), form_name(row.form))?;
            Ok(name)
        }
        Helper::Load(op) => name_of(alloc, load_name(op)),
        Helper::Store(op) => name_of(alloc, store_name(op)),
        Helper::Size => name_of(alloc, b"size_of_memory"),
        Helper::Element => name_of(alloc, b"table_element"),
        Helper::Copy => name_of(alloc, b"copy_memory"),
        Helper::Fill => name_of(alloc, b"fill_memory"),
    }
}

fn returns(which: Helper) -> CType
    ensures { result ≡ (helper_of which).result }
{
    match which {
        Helper::Num(op) => result_type(number_row(op)),
        Helper::Load(op) => c_type(op.access().ty),
        Helper::Store(_) => CType::Void,
        Helper::Size => CType::U32,
        Helper::Element => CType::FnPtr,
        Helper::Copy => CType::Void,
        Helper::Fill => CType::Void,
    }
}

// The parameters. Those of an access begin with the memory, the base and the offset, and those of a store end with the
// value. Those of bytes that are written begin with the memory and two numbers, and end with how many bytes there are.
fn params(which: Helper) -> &'static [Variable]
    ensures { map of.param result.now ≡ (helper_of which).params }
{
    match which {
        Helper::Num(op) => operands(number_row(op)),
        Helper::Load(_) => &[
            (CType::PtrMem, b'm'),
            (CType::U32, b'b'),
            (CType::U32, b'o'),
        ],
        Helper::Store(op) => match op.access().ty {
            ValType::I32 => &[
                (CType::PtrMem, b'm'),
                (CType::U32, b'b'),
                (CType::U32, b'o'),
                (CType::U32, b'v'),
            ],
            ValType::I64 => &[
                (CType::PtrMem, b'm'),
                (CType::U32, b'b'),
                (CType::U32, b'o'),
                (CType::U64, b'v'),
            ],
        },
        Helper::Size => &[(CType::PtrMem, b'm')],
        Helper::Element => &[
            (CType::PtrTab, b't'),
            (CType::U32, b'i'),
            (CType::U64, b's'),
        ],
        Helper::Copy => &[
            (CType::PtrMem, b'm'),
            (CType::U32, b'd'),
            (CType::U32, b's'),
            (CType::U32, b'n'),
        ],
        Helper::Fill => &[
            (CType::PtrMem, b'm'),
            (CType::U32, b'd'),
            (CType::U32, b'v'),
            (CType::U32, b'n'),
        ],
    }
}

// The local variables. Those of an access begin with its address and the memory's length. What the runtime reads comes
// last in a load: fewer than 8 bytes are a u32.
fn locals(which: Helper) -> &'static [Variable]
    ensures { map of.local result.now ≡ locals_of (helper_of which) }
{
    match which {
        Helper::Num(op) => number_locals(number_row(op)),
        Helper::Load(op) if op.access().width == 8 => {
            &[(CType::U64, b'a'), (CType::U64, b'n'), (CType::U64, b'v')]
        }
        Helper::Load(_) => &[(CType::U64, b'a'), (CType::U64, b'n'), (CType::U32, b'v')],
        Helper::Store(_) => &[(CType::U64, b'a'), (CType::U64, b'n')],
        Helper::Size => &[(CType::U64, b'n')],
        Helper::Element => &[
            (CType::U64, b'k'),
            (CType::U64, b'n'),
            (CType::U64, b'g'),
            (CType::FnPtr, b'f'),
        ],
        Helper::Copy => &[
            (CType::U64, b'a'),
            (CType::U64, b'b'),
            (CType::U64, b'k'),
            (CType::U64, b'l'),
            (CType::U32, b'v'),
        ],
        Helper::Fill => &[(CType::U64, b'a'), (CType::U64, b'k'), (CType::U64, b'l')],
    }
}

#[tactic(auto, using(crate::proofs::Accesses::load_short, crate::proofs::Accesses::store_short))]
fn stmts(alloc: Global, which: Helper) -> Result<Stmts, Memory>
    ensures { IfOk result (λ stmts. map stmt_of stmts ≡ stmts_of (helper_of which)) }
{
    match which {
        Helper::Num(op) => {
            let row = number_row(op);
            body(
                alloc,
                row.ty,
                sizes(row),
                stage(row.form),
                end_size(row.form),
                end(row.form),
            )
        }
        Helper::Load(op) => access_body(alloc, op.access(), load_pieces(op.access())),
        Helper::Store(op) => access_body(alloc, op.access(), &STORE),
        Helper::Size => body(alloc, ValType::I32, &[], &[], 32, &SIZE),
        Helper::Element => body(alloc, ValType::I32, &[], &[], 32, &ELEMENT),
        Helper::Copy => body(alloc, ValType::I32, &[], &[], 8, &COPY),
        Helper::Fill => body(alloc, ValType::I32, &[], &[], 8, &FILL),
    }
}

fn load_pieces(access: Access) -> &'static [Piece]
    ensures { result.now ≡ of.load_pieces access.is_signed }
{
    if access.is_signed { &LOAD_S } else { &LOAD }
}

fn access_body(alloc: Global, access: Access, pieces: &[Piece]) -> Result<Stmts, Memory>
    requires { access.width ≤ 8 }
    ensures { IfOk result (λ stmts. map stmt_of stmts ≡ access_stmts access pieces.now) }
{
    let size = 8 * access.width;
    body(alloc, access.ty, &[size], &ACCESS, size, pieces)
}

// The pieces of a stage, placed for each size, and those behind the stages.
fn body(
    alloc: Global,
    ty: ValType,
    sizes: &[u32],
    stage: &[Piece],
    size: u32,
    end: &[Piece],
) -> Result<Stmts, Memory>
    ensures { IfOk result (λ stmts. map stmt_of stmts ≡ (all_placed ty size (staged ty sizes.now nothing_made stage.now) end.now).stmts) }
{
    let mut builder = Builder::new(alloc);
    builder.place_staged(ty, sizes, stage)?;
    builder.place_all(Setting { ty, size }, end)?;
    Ok(builder.finish())
}

fn function(name: Name, returns: CType, params: Params, locals: Locals, stmts: Stmts) -> Func
    ensures { func_of result ≡ record { is_static = true; result = returns; name = name; params = params; body = Some (record { locals = locals; stmts = map stmt_of stmts }) } }
{
    Func {
        is_static: true,
        result: returns,
        name,
        params,
        body: Some(Body { locals, stmts }),
    }
}

fn params_of(alloc: Global, variables: &[Variable]) -> Result<Params, Memory>
    ensures { IfOk result (λ params. params ≡ map of.param variables.now) }
{
    let mut params = Params::new(alloc);
    for variable in variables {
        let (ty, c) = *variable;
        params.push((ty, Some(letter(alloc, c)?)))?;
    }
    Ok(params)
}

// Each is 0 at first.
fn locals_of(alloc: Global, variables: &[Variable]) -> Result<Locals, Memory>
    ensures { IfOk result (λ locals. locals ≡ map of.local variables.now) }
{
    let mut locals = Locals::new(alloc);
    for variable in variables {
        let (ty, c) = *variable;
        locals.push((ty, letter(alloc, c)?, zero_number(ty)))?;
    }
    Ok(locals)
}
