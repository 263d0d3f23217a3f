// What the body of a helper of numbers is made for, by its form: operands, local variables, and sizes of stages.
ghost use Rattle.std.specs.Prelude.{◌≡◌};
ghost use Rattle.c_tree.specs.TypesInC.{c_type_of};
ghost use Rattle.c_helpers.specs.Helpers as of;

use crate::operation::{Form, Row};
use c_tree::{CType, c_type};
use w2c_base::ValType;

/// A parameter or a local variable: its type, and its name of one letter.
pub type Variable = (CType, u8);

/// The operands.
pub fn operands(row: Row) -> &'static [Variable]
    ensures { result.now ≡ of.all_of (of.operand_type row) (of.operand_names row.form) }
{
    match (row.form, row.ty) {
        (Form::ExtendS, _) => &[(CType::U32, b'x')],
        (
            Form::Clz
            | Form::Ctz
            | Form::Popcnt
            | Form::Extend8S
            | Form::Extend16S
            | Form::Extend32S,
            ValType::I32,
        ) => &[(CType::U32, b'x')],
        (
            Form::Clz
            | Form::Ctz
            | Form::Popcnt
            | Form::Extend8S
            | Form::Extend16S
            | Form::Extend32S,
            ValType::I64,
        ) => &[(CType::U64, b'x')],
        (_, ValType::I32) => &[(CType::U32, b'x'), (CType::U32, b'y')],
        (_, ValType::I64) => &[(CType::U64, b'x'), (CType::U64, b'y')],
    }
}

/// The local variables.
pub fn number_locals(row: Row) -> &'static [Variable]
    ensures { result.now ≡ of.all_of (c_type_of row.ty) (of.local_names row.form) }
{
    match (row.form, row.ty) {
        (Form::Clz, ValType::I32) => &[(CType::U32, b'n'), (CType::U32, b't')],
        (Form::Clz, ValType::I64) => &[(CType::U64, b'n'), (CType::U64, b't')],
        (Form::Ctz, ValType::I32) => &[(CType::U32, b'n')],
        (Form::Ctz, ValType::I64) => &[(CType::U64, b'n')],
        _ => &[],
    }
}

/// The type of the result: comparisons give 0 or 1.
pub fn result_type(row: Row) -> CType
    ensures { result ≡ of.result_type row }
{
    match row.form {
        Form::LtS | Form::GtS | Form::LeS | Form::GeS => CType::U32,
        _ => c_type(row.ty),
    }
}

/// The sizes of the stages, in bits.
pub fn sizes(row: Row) -> &'static [u32]
    ensures { result.now ≡ of.sizes_of row }
{
    match (row.form, row.ty) {
        (Form::Clz | Form::Ctz, ValType::I32) => &[16, 8, 4, 2, 1],
        (Form::Clz | Form::Ctz, ValType::I64) => &[32, 16, 8, 4, 2, 1],
        (Form::Popcnt, _) => &[1, 2, 4],
        _ => &[],
    }
}

/// How many bits the pieces behind the stages are about: as many as are extended, or those of a byte.
pub fn end_size(form: Form) -> u32
    ensures { result ≡ of.end_size form }
{
    match form {
        Form::Popcnt | Form::Extend8S => 8,
        Form::Extend16S => 16,
        _ => 32,
    }
}
