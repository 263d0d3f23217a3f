// The type of what a call calls.
use c_tree::{CFuncType, Func, Primitive};

/// The type of a function: by its declaration, by the runtime, or as a call writes it.
#[derive(Clone, Copy)]
pub enum Signature<'a> {
    Declared(&'a Func),
    Runtime(Primitive),
    Written(&'a CFuncType),
}
