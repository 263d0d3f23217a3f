// What the init function tests, and which loops it has.
ghost use Rattle.std.specs.Prelude.{◌≡◌};
ghost use Rattle.std.specs.List.{list_any};
ghost use Rattle.c_init.specs.Init as of;

use wasm_tree::{Import, ImportKind, Limits, Module, SegmentEntry};

fn asks_something(limits: Limits) -> bool
    ensures { result ≡ of.asks_something limits }
{
    limits.min > 0 || limits.max.is_some()
}

fn has_test(import: &Import) -> bool
    ensures { result ≡ of.has_test import.now }
{
    match import.kind {
        ImportKind::Func(_) => false,
        ImportKind::Table(limits) => asks_something(limits),
        ImportKind::Memory(limits) => asks_something(limits),
        ImportKind::Global(_, _) => false,
    }
}

/// Whether an import's limits are tested.
pub(crate) fn tests_limits(m: &Module) -> bool
    ensures { result ≡ of.tests_limits m.now }
{
    for import in m.imports.as_slice() {
        if has_test(import) {
            return true;
        }
    }
    false
}

#[tactic(auto, using(crate::proofs::Somes::some_there, crate::proofs::Somes::some_none))]
fn has_elements(m: &Module) -> bool
    ensures { result ≡ of.is_some_of m.now.elements }
{
    if m.elements.len() > 0 { true } else { false }
}

#[tactic(auto, using(crate::proofs::Somes::some_there, crate::proofs::Somes::some_none))]
fn has_segments(m: &Module) -> bool
    ensures { result ≡ of.is_some_of m.now.segments }
{
    if m.segments.len() > 0 { true } else { false }
}

/// Whether the bounds of a segment are tested.
pub(crate) fn tests_bounds(m: &Module) -> bool
    ensures { result ≡ of.tests_bounds m.now }
{
    has_elements(m) || has_segments(m)
}

/// Whether a segment has a byte.
#[tactic(auto, using(crate::proofs::Somes::bytes_some, crate::proofs::Somes::bytes_none))]
pub(crate) fn has_bytes(segment: &SegmentEntry) -> bool
    ensures { result ≡ of.has_bytes segment.now }
{
    if segment.bytes.len() > 0 { true } else { false }
}

/// Whether a segment has bytes.
pub(crate) fn loops(m: &Module) -> bool
    ensures { result ≡ list_any of.has_bytes m.now.segments }
{
    for segment in m.segments.as_slice() {
        if has_bytes(segment) {
            return true;
        }
    }
    false
}
