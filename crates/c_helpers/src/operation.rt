// The helpers by the instructions that they stand for (WebAssembly Core 1.0, 2.4): what each operator on numbers is, at which
// type, and how the names of helpers are made.
ghost use Rattle.std.specs.Prelude.{◌≡◌, ◌<◌};
ghost use Rattle.c_helpers.specs.Numbers.{number_of};
ghost use Rattle.c_helpers.specs.Rows.{row_of, prefix_of};
ghost use Rattle.c_helpers.specs.Rows as rows;

use w2c_base::ValType;
use wasm_tree::{LoadOp, StoreOp};

/// An instruction on numbers that has a helper.
#[derive(Clone, Copy, Debug, PartialEq, Eq)]
pub enum NumOp {
    I32DivS,
    I32DivU,
    I32RemS,
    I32RemU,
    I32ShrS,
    I32Rotl,
    I32Rotr,
    I32Clz,
    I32Ctz,
    I32Popcnt,
    I32LtS,
    I32GtS,
    I32LeS,
    I32GeS,
    I64DivS,
    I64DivU,
    I64RemS,
    I64RemU,
    I64ShrS,
    I64Rotl,
    I64Rotr,
    I64Clz,
    I64Ctz,
    I64Popcnt,
    I64LtS,
    I64GtS,
    I64LeS,
    I64GeS,
    I64ExtendI32S,
    I32Extend8S,
    I32Extend16S,
    I64Extend8S,
    I64Extend16S,
    I64Extend32S,
}

/// A helper. `Size` gives a memory's number of pages, `Element` the function of a table's element,
/// and `Copy` and `Fill` write bytes of a memory.
#[derive(Clone, Copy, Debug, PartialEq, Eq)]
pub enum Helper {
    Num(NumOp),
    Load(LoadOp),
    Store(StoreOp),
    Size,
    Element,
    Copy,
    Fill,
}

/// Every helper, once.
pub const HELPERS: [Helper; 57] = [
    Helper::Num(NumOp::I32DivS),
    Helper::Num(NumOp::I32DivU),
    Helper::Num(NumOp::I32RemS),
    Helper::Num(NumOp::I32RemU),
    Helper::Num(NumOp::I32ShrS),
    Helper::Num(NumOp::I32Rotl),
    Helper::Num(NumOp::I32Rotr),
    Helper::Num(NumOp::I32Clz),
    Helper::Num(NumOp::I32Ctz),
    Helper::Num(NumOp::I32Popcnt),
    Helper::Num(NumOp::I32LtS),
    Helper::Num(NumOp::I32GtS),
    Helper::Num(NumOp::I32LeS),
    Helper::Num(NumOp::I32GeS),
    Helper::Num(NumOp::I64DivS),
    Helper::Num(NumOp::I64DivU),
    Helper::Num(NumOp::I64RemS),
    Helper::Num(NumOp::I64RemU),
    Helper::Num(NumOp::I64ShrS),
    Helper::Num(NumOp::I64Rotl),
    Helper::Num(NumOp::I64Rotr),
    Helper::Num(NumOp::I64Clz),
    Helper::Num(NumOp::I64Ctz),
    Helper::Num(NumOp::I64Popcnt),
    Helper::Num(NumOp::I64LtS),
    Helper::Num(NumOp::I64GtS),
    Helper::Num(NumOp::I64LeS),
    Helper::Num(NumOp::I64GeS),
    Helper::Num(NumOp::I64ExtendI32S),
    Helper::Num(NumOp::I32Extend8S),
    Helper::Num(NumOp::I32Extend16S),
    Helper::Num(NumOp::I64Extend8S),
    Helper::Num(NumOp::I64Extend16S),
    Helper::Num(NumOp::I64Extend32S),
    Helper::Load(LoadOp::I32Load),
    Helper::Load(LoadOp::I64Load),
    Helper::Load(LoadOp::I32Load8S),
    Helper::Load(LoadOp::I32Load8U),
    Helper::Load(LoadOp::I32Load16S),
    Helper::Load(LoadOp::I32Load16U),
    Helper::Load(LoadOp::I64Load8S),
    Helper::Load(LoadOp::I64Load8U),
    Helper::Load(LoadOp::I64Load16S),
    Helper::Load(LoadOp::I64Load16U),
    Helper::Load(LoadOp::I64Load32S),
    Helper::Load(LoadOp::I64Load32U),
    Helper::Store(StoreOp::I32Store),
    Helper::Store(StoreOp::I64Store),
    Helper::Store(StoreOp::I32Store8),
    Helper::Store(StoreOp::I32Store16),
    Helper::Store(StoreOp::I64Store8),
    Helper::Store(StoreOp::I64Store16),
    Helper::Store(StoreOp::I64Store32),
    Helper::Size,
    Helper::Element,
    Helper::Copy,
    Helper::Fill,
];

fn num_number(op: NumOp) -> usize
    ensures value { result ≡ number_of (Helper.Num op) }
    ensures below { result < 64 }
{
    match op {
        NumOp::I32DivS => 0,
        NumOp::I32DivU => 1,
        NumOp::I32RemS => 2,
        NumOp::I32RemU => 3,
        NumOp::I32ShrS => 4,
        NumOp::I32Rotl => 5,
        NumOp::I32Rotr => 6,
        NumOp::I32Clz => 7,
        NumOp::I32Ctz => 8,
        NumOp::I32Popcnt => 9,
        NumOp::I32LtS => 10,
        NumOp::I32GtS => 11,
        NumOp::I32LeS => 12,
        NumOp::I32GeS => 13,
        NumOp::I64DivS => 14,
        NumOp::I64DivU => 15,
        NumOp::I64RemS => 16,
        NumOp::I64RemU => 17,
        NumOp::I64ShrS => 18,
        NumOp::I64Rotl => 19,
        NumOp::I64Rotr => 20,
        NumOp::I64Clz => 21,
        NumOp::I64Ctz => 22,
        NumOp::I64Popcnt => 23,
        NumOp::I64LtS => 24,
        NumOp::I64GtS => 25,
        NumOp::I64LeS => 26,
        NumOp::I64GeS => 27,
        NumOp::I64ExtendI32S => 28,
        NumOp::I32Extend8S => 29,
        NumOp::I32Extend16S => 30,
        NumOp::I64Extend8S => 31,
        NumOp::I64Extend16S => 32,
        NumOp::I64Extend32S => 33,
    }
}

fn load_number(op: LoadOp) -> usize
    ensures value { result ≡ number_of (Helper.Load op) }
    ensures below { result < 64 }
{
    match op {
        LoadOp::I32Load => 34,
        LoadOp::I64Load => 35,
        LoadOp::I32Load8S => 36,
        LoadOp::I32Load8U => 37,
        LoadOp::I32Load16S => 38,
        LoadOp::I32Load16U => 39,
        LoadOp::I64Load8S => 40,
        LoadOp::I64Load8U => 41,
        LoadOp::I64Load16S => 42,
        LoadOp::I64Load16U => 43,
        LoadOp::I64Load32S => 44,
        LoadOp::I64Load32U => 45,
    }
}

fn store_number(op: StoreOp) -> usize
    ensures value { result ≡ number_of (Helper.Store op) }
    ensures below { result < 64 }
{
    match op {
        StoreOp::I32Store => 46,
        StoreOp::I64Store => 47,
        StoreOp::I32Store8 => 48,
        StoreOp::I32Store16 => 49,
        StoreOp::I64Store8 => 50,
        StoreOp::I64Store16 => 51,
        StoreOp::I64Store32 => 52,
    }
}

impl Helper {
    /// Its place in the list of all.
    pub(crate) fn number(self) -> usize
        ensures value { result ≡ number_of self }
        ensures below { result < 64 }
    {
        match self {
            Helper::Num(op) => num_number(op),
            Helper::Load(op) => load_number(op),
            Helper::Store(op) => store_number(op),
            Helper::Size => 53,
            Helper::Element => 54,
            Helper::Copy => 55,
            Helper::Fill => 56,
        }
    }
}

/// An operator at any width.
#[derive(Clone, Copy)]
pub enum Form {
    DivS,
    DivU,
    RemS,
    RemU,
    ShrS,
    Rotl,
    Rotr,
    Clz,
    Ctz,
    Popcnt,
    LtS,
    GtS,
    LeS,
    GeS,
    ExtendS,
    Extend8S,
    Extend16S,
    Extend32S,
}

/// An operator, and the type of its numbers.
#[derive(Clone, Copy)]
pub struct Row {
    pub ty: ValType,
    pub form: Form,
}

/// The row of an operator.
pub fn number_row(op: NumOp) -> Row
    ensures { result ≡ row_of op }
{
    let (ty, form) = match op {
        NumOp::I32DivS => (ValType::I32, Form::DivS),
        NumOp::I32DivU => (ValType::I32, Form::DivU),
        NumOp::I32RemS => (ValType::I32, Form::RemS),
        NumOp::I32RemU => (ValType::I32, Form::RemU),
        NumOp::I32ShrS => (ValType::I32, Form::ShrS),
        NumOp::I32Rotl => (ValType::I32, Form::Rotl),
        NumOp::I32Rotr => (ValType::I32, Form::Rotr),
        NumOp::I32Clz => (ValType::I32, Form::Clz),
        NumOp::I32Ctz => (ValType::I32, Form::Ctz),
        NumOp::I32Popcnt => (ValType::I32, Form::Popcnt),
        NumOp::I32LtS => (ValType::I32, Form::LtS),
        NumOp::I32GtS => (ValType::I32, Form::GtS),
        NumOp::I32LeS => (ValType::I32, Form::LeS),
        NumOp::I32GeS => (ValType::I32, Form::GeS),
        NumOp::I64DivS => (ValType::I64, Form::DivS),
        NumOp::I64DivU => (ValType::I64, Form::DivU),
        NumOp::I64RemS => (ValType::I64, Form::RemS),
        NumOp::I64RemU => (ValType::I64, Form::RemU),
        NumOp::I64ShrS => (ValType::I64, Form::ShrS),
        NumOp::I64Rotl => (ValType::I64, Form::Rotl),
        NumOp::I64Rotr => (ValType::I64, Form::Rotr),
        NumOp::I64Clz => (ValType::I64, Form::Clz),
        NumOp::I64Ctz => (ValType::I64, Form::Ctz),
        NumOp::I64Popcnt => (ValType::I64, Form::Popcnt),
        NumOp::I64LtS => (ValType::I64, Form::LtS),
        NumOp::I64GtS => (ValType::I64, Form::GtS),
        NumOp::I64LeS => (ValType::I64, Form::LeS),
        NumOp::I64GeS => (ValType::I64, Form::GeS),
        NumOp::I64ExtendI32S => (ValType::I64, Form::ExtendS),
        NumOp::I32Extend8S => (ValType::I32, Form::Extend8S),
        NumOp::I32Extend16S => (ValType::I32, Form::Extend16S),
        NumOp::I64Extend8S => (ValType::I64, Form::Extend8S),
        NumOp::I64Extend16S => (ValType::I64, Form::Extend16S),
        NumOp::I64Extend32S => (ValType::I64, Form::Extend32S),
    };
    Row { ty, form }
}

/// How the names of a type's operators begin.
pub fn prefix(ty: ValType) -> &'static [u8]
    ensures { result.now ≡ prefix_of ty }
{
    match ty {
        ValType::I32 => b"i32_",
        ValType::I64 => b"i64_",
    }
}

/// How the names of a form's operators end.
pub fn form_name(form: Form) -> &'static [u8]
    ensures { result.now ≡ rows.form_name form }
{
    match form {
        Form::DivS => b"div_s",
        Form::DivU => b"div_u",
        Form::RemS => b"rem_s",
        Form::RemU => b"rem_u",
        Form::ShrS => b"shr_s",
        Form::Rotl => b"rotl",
        Form::Rotr => b"rotr",
        Form::Clz => b"clz",
        Form::Ctz => b"ctz",
        Form::Popcnt => b"popcnt",
        Form::LtS => b"lt_s",
        Form::GtS => b"gt_s",
        Form::LeS => b"le_s",
        Form::GeS => b"ge_s",
        Form::ExtendS => b"extend_i32_s",
        Form::Extend8S => b"extend8_s",
        Form::Extend16S => b"extend16_s",
        Form::Extend32S => b"extend32_s",
    }
}

/// The name of a load's helper.
pub fn load_name(op: LoadOp) -> &'static [u8]
    ensures { result.now ≡ rows.load_name op }
{
    match op {
        LoadOp::I32Load => b"i32_load",
        LoadOp::I64Load => b"i64_load",
        LoadOp::I32Load8S => b"i32_load8_s",
        LoadOp::I32Load8U => b"i32_load8_u",
        LoadOp::I32Load16S => b"i32_load16_s",
        LoadOp::I32Load16U => b"i32_load16_u",
        LoadOp::I64Load8S => b"i64_load8_s",
        LoadOp::I64Load8U => b"i64_load8_u",
        LoadOp::I64Load16S => b"i64_load16_s",
        LoadOp::I64Load16U => b"i64_load16_u",
        LoadOp::I64Load32S => b"i64_load32_s",
        LoadOp::I64Load32U => b"i64_load32_u",
    }
}

/// The name of a store's helper.
pub fn store_name(op: StoreOp) -> &'static [u8]
    ensures { result.now ≡ rows.store_name op }
{
    match op {
        StoreOp::I32Store => b"i32_store",
        StoreOp::I64Store => b"i64_store",
        StoreOp::I32Store8 => b"i32_store8",
        StoreOp::I32Store16 => b"i32_store16",
        StoreOp::I64Store8 => b"i64_store8",
        StoreOp::I64Store16 => b"i64_store16",
        StoreOp::I64Store32 => b"i64_store32",
    }
}
