// What the lines of a journal say.
use crun_lines::HostReply;
use w2c_base::{Bytes, FuncType, Values};

/// What a line of a journal says.
#[derive(Drop)]
pub enum JournalLine {
    /// A host, by its name.
    Module(Bytes),
    /// A function of the host that was named last.
    Function(FunctionLine),
    /// A host was asked, and replied.
    Host(HostLine),
}

/// A function by its name and type.
#[derive(Drop)]
pub struct FunctionLine {
    pub name: Bytes,
    pub ty: FuncType,
}

/// A call of a host's function by the names of both, with the arguments and the reply.
#[derive(Drop)]
pub struct HostLine {
    pub host: Bytes,
    pub function: Bytes,
    pub args: Values,
    pub reply: HostReply,
}
