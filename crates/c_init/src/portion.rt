// The entries that a part of the init function is about.
use wasm_tree::{ElementEntry, GlobalEntry, SegmentEntry};

/// A hundred entries of one kind, or fewer.
#[derive(Clone, Copy)]
pub enum Portion<'a> {
    /// Globals that the module defines, the first of them with this number.
    Globals(usize, &'a [GlobalEntry]),
    ElementBounds(&'a [ElementEntry]),
    DataBounds(&'a [SegmentEntry]),
    /// The elements of these segments, from the one with this number on, as many as a part has.
    Elements(&'a [ElementEntry], usize),
    /// Data segments, the first of them with this number.
    Bytes(usize, &'a [SegmentEntry]),
}
