// The blocks that are open.
ghost use Rattle.std.specs.Prelude.{◌+◌, ◌<◌, ◌^◌};

use w2c_base::ValType;

/// Where a branch goes: a label, the height of the operands under its block, and the type of the value that it
/// takes.
#[derive(Clone, Copy)]
pub struct Target {
    pub label: usize,
    pub height: usize,
    pub value: Option<ValType>,
}

/// An open block: where a branch to it goes, and whether one went there.
#[derive(Clone, Copy)]
pub struct OpenBlock {
    pub(crate) target: Target,
    pub(crate) named: bool,
}

/// What is kept of the place before a block: the next label there, where the operands of the block around
/// begin, and how many statements there are. A label behind that one can be counted too.
#[derive(Clone, Copy)]
pub struct Opening {
    pub(crate) label: usize,
    pub(crate) floor: usize,
    pub(crate) place: usize,
    ghost counted: { label + 1 < 2 ^ 64 },
}
