// The tree of a unit, from its items down to expressions, and the content of a header.
ghost use Rattle.std.specs.Prelude.{◌≡◌, option_map, IfOk};
ghost use Rattle.std.specs.Option.{option_copied};
ghost use Rattle.c_tree.specs.Rules.{has_body, label_of};
ghost use Rattle.c_tree.specs.Scope.{func_in, name_of};
ghost use Rattle.c_tree.specs.View.{func_of, item_of, maybe_body_of, stmt_of};

use std::alloc::Global;
use std::boxed::Box;
use w2c_base::{Bytes, Memory, Sequence, ShortBytes};

/// The bytes of a name.
pub type Name = ShortBytes;

/// A type. `Mem` and `Tab` are a linear memory and a table, `FnPtr` is an element of a table.
#[derive(Clone, Copy, Debug, PartialEq, Eq)]
pub enum CType {
    Void,
    U32,
    U64,
    PtrU32,
    PtrU64,
    Mem,
    PtrMem,
    Tab,
    PtrTab,
    FnPtr,
}

/// Types, as of a function's parameters.
pub type CTypes = Sequence<CType>;

/// The type of a function that is called through a name. The list `Void` stands for no
/// parameters.
#[derive(Drop)]
pub struct CFuncType {
    pub params: CTypes,
    pub result: CType,
}

impl CFuncType {
    /// An equal type.
    pub fn copy(&self, alloc: Global) -> Result<CFuncType, Memory>
        ensures { IfOk result (λ ty. ty ≡ self.now) }
    {
        let params = self.params.copy(alloc)?;
        Ok(CFuncType {
            params,
            result: self.result,
        })
    }
}

/// A number, by its suffix: `u`, `ull` or none.
#[derive(Clone, Copy, Debug, PartialEq, Eq)]
pub enum Num {
    N32(u32),
    N64(u64),
    Plain(u64),
}

/// A binary operator.
#[derive(Clone, Copy, Debug, PartialEq, Eq)]
pub enum COp {
    Add,
    Sub,
    Mul,
    Div,
    Rem,
    And,
    Or,
    Xor,
    Shl,
    Shr,
    Eq,
    Ne,
    Lt,
    Le,
    Gt,
    Ge,
}

/// An expression. `At` is an element of an array, `To32` and `To64` are casts, `Star` is what a
/// pointer points to.
#[derive(Drop)]
pub enum Expr {
    Name(Name),
    At(Name, Box<Expr>),
    Num(Num),
    To32(Box<Expr>),
    To64(Box<Expr>),
    Star(Name),
    Op(COp, Box<Expr>, Box<Expr>),
}

/// An argument, or a right side that is no call: a value, the address of a variable, or a function
/// as an element of a table.
#[derive(Drop)]
pub enum Arg {
    Value(Expr),
    Address(Name),
    Function(Name),
}

/// Arguments in order.
pub type Args = Sequence<Arg>;

/// What is called: a function by its name, or one through a name that holds it.
#[derive(Drop)]
pub enum Callee {
    Named(Name),
    Through(CFuncType, Name),
}

/// The cases of a switch, each with the label that it goes to.
pub type Cases = Sequence<(Num, Name)>;

/// A statement. `SetStar` assigns to what a pointer points to; a call may assign its value to a
/// name; `Switch` has its default label last.
#[derive(Drop)]
pub enum Stmt {
    Label(Name),
    Null,
    Set(Name, Arg),
    SetStar(Name, Expr),
    Call(Option<Name>, Callee, Args),
    Goto(Name),
    If(COp, Expr, Expr, Name),
    Switch(Expr, Cases, Name),
    ReturnNone,
    Return(Arg),
}

impl Stmt {
    /// The name of the label that a statement is.
    pub fn label(&self) -> Option<&[u8]>
        ensures { option_copied result ≡ label_of (stmt_of self.now) }
    {
        match self {
            Stmt::Label(name) => Some(name.as_slice()),
            Stmt::Null
            | Stmt::Set(_, _)
            | Stmt::SetStar(_, _)
            | Stmt::Call(_, _, _)
            | Stmt::Goto(_)
            | Stmt::If(_, _, _, _)
            | Stmt::Switch(_, _, _)
            | Stmt::ReturnNone
            | Stmt::Return(_) => None,
        }
    }
}

/// Statements in order.
pub type Stmts = Sequence<Stmt>;

/// Local variables in order, each with its type, its name and its first value.
pub type Locals = Sequence<(CType, Name, Num)>;

/// Parameters in order. One of type `Void` without a name stands for none.
pub type Params = Sequence<(CType, Option<Name>)>;

/// The local variables and the statements of a function.
#[derive(Drop)]
pub struct Body {
    pub locals: Locals,
    pub stmts: Stmts,
}

/// A function's declaration, or its definition where it has a body.
#[derive(Drop)]
pub struct Func {
    pub is_static: bool,
    pub result: CType,
    pub name: Name,
    pub params: Params,
    pub body: Option<Body>,
}

/// A thing of file scope. An array has its count and its constant bytes. Arrays and variables are
/// static.
#[derive(Drop)]
pub enum Item {
    Array(Name, u64, Bytes),
    Var(CType, Name, Option<Num>),
    Func(Func),
}

impl Func {
    /// A function of the same linkage and result, with other parts.
    pub fn with_parts(&self, name: Name, params: Params, body: Option<Body>) -> Func
        ensures { func_of result ≡ record { is_static = self.now.is_static; result = self.now.result; name = name; params = params; body = maybe_body_of body } }
    {
        Func {
            is_static: self.is_static,
            result: self.result,
            name,
            params,
            body,
        }
    }
}

impl Item {
    /// The name that an item declares.
    pub fn name(&self) -> &[u8]
        ensures { result.now ≡ name_of (item_of self.now) }
    {
        match self {
            Item::Array(name, _, _) | Item::Var(_, name, _) => name.as_slice(),
            Item::Func(f) => f.name.as_slice(),
        }
    }

    /// The function that an item declares.
    pub fn function(&self) -> Option<&Func>
        ensures { option_map (λ f. func_of f.now) result ≡ func_in (item_of self.now) }
    {
        match self {
            Item::Func(f) => Some(f),
            Item::Array(_, _, _) | Item::Var(_, _, _) => None,
        }
    }

    /// Whether an item is a function with a body.
    pub fn has_body(&self) -> bool
        ensures { result ≡ has_body (item_of self.now) }
    {
        match self {
            Item::Func(f) => f.body.is_some(),
            Item::Array(_, _, _) | Item::Var(_, _, _) => false,
        }
    }
}

/// The functions that a header declares, each with its result, its name and its parameters' types.
pub type HeaderLines = Sequence<(CType, Name, CTypes)>;

/// What a header says: the module's name, and its functions in order.
#[derive(Drop)]
pub struct Header {
    pub module: Bytes,
    pub lines: HeaderLines,
}
