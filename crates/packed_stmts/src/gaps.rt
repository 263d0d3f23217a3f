// Labels that were left out again, and lists without them.
ghost use Rattle.std.specs.Prelude.{◌≡◌, ◌<◌, ◌+◌, ◌^◌, [], ◌∷◌, ◌++◌, false, OnOk, if◌then◌else◌, map, drop, min, slice_set, vec_len};
ghost use Rattle.c_tree.specs.View.{stmt_of};
ghost use Rattle.packed_stmts.specs.Listed.{with_gaps};
ghost use Rattle.packed_stmts.specs.Gaps as left_out;

use c_tree::{Name, Stmt};
use std::alloc::Global;
use std::mem::replace;
use w2c_base::{Bytes, Memory};

// A label without a name, which stands for no statement.
fn put_gap(stmt: &mut Stmt, alloc: Global)
    ensures { stmt_of stmt.new ≡ left_out.gap }
{
    drop(replace(stmt, Stmt::Label(Name::new(alloc))));
}

#[tactic(auto, using(crate::proofs::GapLists::set_mapped, crate::proofs::GapLists::gap_past))]
fn put_gap_if(alloc: Global, stmts: &mut Vec<Stmt>, is_gap: bool, place: usize)
    ensures { map stmt_of stmts.new.items ≡ (if is_gap then slice_set (map stmt_of stmts.old.items) place left_out.gap else map stmt_of stmts.old.items) }
{
    if is_gap && place < stmts.len() {
        put_gap(&mut stmts[place], alloc);
    }
}

fn put_gaps(alloc: Global, stmts: &mut Vec<Stmt>, gaps: &[bool])
    ensures { map stmt_of stmts.new.items ≡ with_gaps gaps.now (map stmt_of stmts.old.items) }
{
    let mut place = 0usize;
    for gap in gaps {
        if place == stmts.len() {
            return;
        }
        put_gap_if(alloc, stmts, *gap, place);
        place += 1;
    }
}

// A statement that stays, and no gap.
fn is_written(s: &Stmt) -> bool
    ensures { result ≡ left_out.is_written (stmt_of s.now) }
{
    match s {
        Stmt::Label(name) => !name.as_slice().is_empty(),
        _ => true,
    }
}

#[tactic(auto, using(crate::proofs::GapLists::map_filtered))]
fn without_gaps(stmts: Vec<Stmt>) -> Vec<Stmt>
    ensures { map stmt_of result.items ≡ left_out.written (map stmt_of stmts.items) }
{
    let mut stmts = stmts;
    stmts.retain(|s| is_written(s));
    stmts
}

/// Statements without those that were left out, by their flags.
pub(crate) fn written_of(alloc: Global, stmts: Vec<Stmt>, gaps: &[bool]) -> Vec<Stmt>
    ensures { map stmt_of result.items ≡ left_out.written (with_gaps gaps.now (map stmt_of stmts.items)) }
{
    let mut stmts = stmts;
    put_gaps(alloc, &mut stmts, gaps);
    without_gaps(stmts)
}

/// A chunk: the others stand behind it.
#[tactic(auto, using(c_tree::proofs::Tested::at_front))]
pub(crate) fn chunk_at(chunks: &Vec<Bytes>, place: usize) -> &[u8]
    requires { place < vec_len chunks.now }
    ensures { drop place chunks.now.items ≡ result.now ∷ drop (place + 1) chunks.now.items }
{
    chunks[place].as_slice()
}

/// The place behind so many flags, or the end of all.
pub(crate) fn place_behind(place: usize, count: usize, len: usize) -> usize
    requires { place + count < 2 ^ 64 }
    ensures { result ≡ min (place + count) len }
{
    let behind = place + count;
    if behind < len { behind } else { len }
}

/// One more statement, and its flag. Where memory is wanting there is neither.
pub(crate) fn put_flagged(
    stmts: &mut Vec<Stmt>,
    gaps: &mut Vec<bool>,
    stmt: Stmt,
) -> Result<(), Memory>
    ensures stmts { OnOk result (stmts.new.items ≡ stmts.old.items ++ stmt ∷ []) }
    ensures gaps { OnOk result (gaps.new.items ≡ gaps.old.items ++ false ∷ []) }
    ensures even { vec_len gaps.new + vec_len stmts.old ≡ vec_len gaps.old + vec_len stmts.new }
{
    stmts.push(stmt)?;
    match gaps.push(false) {
        Ok(()) => Ok(()),
        Err(_) => {
            stmts.truncate(stmts.len() - 1);
            Err(Memory)
        }
    }
}
