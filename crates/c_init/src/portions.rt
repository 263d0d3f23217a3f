// The entries of a large module by the parts of its init function, in the order in which these are called.
ghost use Rattle.std.specs.Prelude.{◌≡◌, ◌++◌, filter, map, IfOk, OnOk};
ghost use Rattle.std.specs.List.{AllByRecursion, list_any};
ghost use Rattle.w2c_base.specs.Lookup.{numbered};
ghost use Rattle.c_init.specs.Init as of;
ghost use Rattle.c_init.specs.Portions.{bytes_if, part_of, IsOf, Owns};

use crate::needs::has_bytes;
use crate::pieces::{MOST, behind, first_piece, is_large};
use crate::portion::Portion;
use std::alloc::Global;
use w2c_base::Memory;
use wasm_tree::{Module, SegmentEntry};

fn put_globals<'a>(list: &mut Vec<Portion<'a>>, m: &'a Module) -> Result<(), Memory>
    ensures parts { OnOk result (map (part_of m.now) list.new.items ≡ map (part_of m.now) list.old.items ++ map (of.globals_part m.now) (of.pieces (numbered m.now.globals))) }
    ensures own { OnOk result (Owns m.now list.old.items list.new.items) }
{
    let count = m.globals.len();
    let mut rest = m.globals.as_slice();
    while !rest.is_empty() {
        let (piece, after) = first_piece(rest);
        list.push(Portion::Globals(count - rest.len(), piece))?;
        rest = after;
    }
    Ok(())
}

fn put_element_bounds<'a>(list: &mut Vec<Portion<'a>>, m: &'a Module) -> Result<(), Memory>
    ensures parts { OnOk result (map (part_of m.now) list.new.items ≡ map (part_of m.now) list.old.items ++ map (of.element_tests_part m.now) (of.pieces m.now.elements)) }
    ensures own { OnOk result (Owns m.now list.old.items list.new.items) }
{
    let mut rest = m.elements.as_slice();
    while !rest.is_empty() {
        let (piece, after) = first_piece(rest);
        list.push(Portion::ElementBounds(piece))?;
        rest = after;
    }
    Ok(())
}

fn put_data_bounds<'a>(list: &mut Vec<Portion<'a>>, m: &'a Module) -> Result<(), Memory>
    ensures parts { OnOk result (map (part_of m.now) list.new.items ≡ map (part_of m.now) list.old.items ++ map (of.data_tests_part m.now) (of.pieces m.now.segments)) }
    ensures own { OnOk result (Owns m.now list.old.items list.new.items) }
{
    let mut rest = m.segments.as_slice();
    while !rest.is_empty() {
        let (piece, after) = first_piece(rest);
        list.push(Portion::DataBounds(piece))?;
        rest = after;
    }
    Ok(())
}

fn put_elements<'a>(list: &mut Vec<Portion<'a>>, m: &'a Module) -> Result<(), Memory>
    ensures parts { OnOk result (map (part_of m.now) list.new.items ≡ map (part_of m.now) list.old.items ++ map (of.elements_part m.now) (of.pieces (of.elements_of m.now))) }
    ensures own { OnOk result (Owns m.now list.old.items list.new.items) }
{
    let (first, start) = behind(m.elements.as_slice(), 0, 0);
    let mut rest = first;
    let mut number = start;
    while !rest.is_empty() {
        list.push(Portion::Elements(rest, number))?;
        let (after, next) = behind(rest, number, MOST);
        rest = after;
        number = next;
    }
    Ok(())
}

// Whether one of these segments has a byte.
fn has_some_bytes(segments: &[SegmentEntry]) -> bool
    ensures { result ≡ list_any of.has_bytes segments.now }
{
    for segment in segments {
        if has_bytes(segment) {
            return true;
        }
    }
    false
}

// A piece of the segments, where it has bytes.
fn put_bytes_of<'a>(
    list: &mut Vec<Portion<'a>>,
    from: usize,
    piece: &'a [SegmentEntry],
) -> Result<(), Memory>
    ensures { OnOk result (list.new.items ≡ list.old.items ++ bytes_if from piece.entry) }
{
    if has_some_bytes(piece) {
        list.push(Portion::Bytes(from, piece))?;
    }
    Ok(())
}

fn put_bytes<'a>(list: &mut Vec<Portion<'a>>, m: &'a Module) -> Result<(), Memory>
    ensures parts { OnOk result (map (part_of m.now) list.new.items ≡ map (part_of m.now) list.old.items ++ map (of.bytes_part m.now) (filter of.some_bytes (of.pieces (numbered m.now.segments)))) }
    ensures own { OnOk result (Owns m.now list.old.items list.new.items) }
{
    let count = m.segments.len();
    let mut rest = m.segments.as_slice();
    while !rest.is_empty() {
        let (piece, after) = first_piece(rest);
        put_bytes_of(list, count - rest.len(), piece)?;
        rest = after;
    }
    Ok(())
}

fn all_portions<'a>(alloc: Global, m: &'a Module) -> Result<Vec<Portion<'a>>, Memory>
    ensures parts { IfOk result (λ list. map (part_of m.now) list.items ≡ of.all_parts m.now) }
    ensures own { IfOk result (λ list. AllByRecursion (IsOf m.now) list.items) }
{
    let mut list: Vec<Portion<'a>> = Vec::new(alloc);
    put_globals(&mut list, m)?;
    put_element_bounds(&mut list, m)?;
    put_data_bounds(&mut list, m)?;
    put_elements(&mut list, m)?;
    put_bytes(&mut list, m)?;
    Ok(list)
}

/// What each part of the init function is about, in the order of their calls: nothing where the module is not large.
pub fn portions_of<'a>(alloc: Global, m: &'a Module) -> Result<Vec<Portion<'a>>, Memory>
    ensures parts { IfOk result (λ list. map (part_of m.now) list.items ≡ of.parts_of m.now) }
    ensures own { IfOk result (λ list. AllByRecursion (IsOf m.now) list.items) }
{
    if is_large(m) {
        all_portions(alloc, m)
    } else {
        Ok(Vec::new(alloc))
    }
}
