// The commands of a script.
use w2c_base::{TrapKind, Value, Values};

/// The file of a module, and the name of 1 to 1,024 bytes that the module is given.
#[derive(Drop)]
pub struct ModuleFile {
    pub name: String,
    pub filename: String,
}

/// A call of what a module exports under a name.
#[derive(Drop)]
pub struct Call {
    pub module_name: String,
    pub field_name: String,
    pub args: Values,
}

/// One command of a script. Files stand by their names.
#[derive(Drop)]
pub enum Command {
    /// The module joins the set.
    Module(ModuleFile),
    /// The call is kept for every assertion behind it.
    Call(Call),
    /// The call ends with this value, or with none.
    AssertReturn(Call, Option<Value>),
    /// The call traps for this cause.
    AssertTrap(Call, TrapKind),
    /// The file is a module that is not valid.
    AssertInvalid(String),
    /// The file is no module by the binary format.
    AssertMalformed(String),
}
