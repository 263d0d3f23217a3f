// The statements of a body: the last ones as they are, those before them as bytes.
ghost use Rattle.std.specs.Prelude.{◌≡◌, ◌<◌, ◌≤◌, ◌+◌, vec_len, length};
ghost use Rattle.packed_stmts.specs.Chunk.{all_of};

use crate::chunk::{chunk_of, stmts_of};
use crate::gaps::{chunk_at, place_behind, put_flagged, written_of};
use c_tree::{Stmt, Stmts};
use std::alloc::Global;
use std::mem::replace;
use w2c_base::{Bytes, Memory};

// As many lie there as they are. A statement takes some 150 bytes with all that belongs to it, and 20 of a chunk.
const RECENT: usize = 1024;

/// Statements in order, in which labels may be left out again. Contracts see them as the list `listed`.
#[derive(Drop)]
pub struct Statements {
    alloc: Global,
    packed: Vec<Bytes>,
    recent: Vec<Stmt>,
    gaps: Vec<bool>,
    ghost flagged: { vec_len gaps ≡ length (all_of packed.items) + vec_len recent },
}

impl Statements {
    ghost use Rattle.std.specs.Prelude.{[], ◌∷◌, ◌++◌, map, slice_set, OnOk, IfOk};
    ghost use Rattle.c_tree.specs.View.{stmt_of};
    ghost use Rattle.packed_stmts.specs.Gaps.{gap, written};
    ghost use Rattle.packed_stmts.specs.Listed.{listed, left};

    /// No statements. It takes no memory.
    #[tactic(auto, unfolding(crate::specs::Listed::listed))]
    pub fn new(alloc: Global) -> Statements
        ensures { listed result ≡ [] }
    {
        Statements {
            alloc,
            packed: Vec::new(alloc),
            recent: Vec::new(alloc),
            gaps: Vec::new(alloc),
        }
    }

    /// How many there are, those that were left out too.
    #[tactic(auto, unfolding(crate::specs::Listed::listed), using(crate::proofs::GapLists::listed_length))]
    pub fn len(&self) -> usize
        ensures { result ≡ length (listed self.now) }
    {
        self.gaps.len()
    }

    // All that lie there as they are become a chunk.
    #[tactic(auto, unfolding(crate::specs::Listed::listed), using(crate::proofs::GapLists::packed_length, crate::proofs::GapLists::packed_whole))]
    fn pack(&mut self) -> Result<(), Memory>
        ensures { OnOk result (listed self.new ≡ listed self.old) }
    {
        let chunk = chunk_of(self.alloc, self.recent.as_slice())?;
        self.packed.push(chunk)?;
        self.recent.clear();
        Ok(())
    }

    // Those that lie there become a chunk where they are as many as may.
    fn make_room(&mut self) -> Result<(), Memory>
        ensures { OnOk result (listed self.new ≡ listed self.old) }
    {
        if self.recent.len() < RECENT {
            Ok(())
        } else {
            self.pack()
        }
    }

    // One more statement, without packing.
    #[tactic(auto, unfolding(crate::specs::Listed::listed), using(crate::proofs::GapLists::listed_more))]
    fn add(&mut self, stmt: Stmt) -> Result<(), Memory>
        ensures { OnOk result (listed self.new ≡ listed self.old ++ stmt_of stmt ∷ []) }
    {
        put_flagged(&mut self.recent, &mut self.gaps, stmt)
    }

    /// One more statement. A want of memory is the only error.
    pub fn push(&mut self, stmt: Stmt) -> Result<(), Memory>
        ensures { OnOk result (listed self.new ≡ listed self.old ++ stmt_of stmt ∷ []) }
    {
        self.add(stmt)?;
        self.make_room()
    }

    /// Leaves the label at a place out again.
    #[tactic(auto, unfolding(crate::specs::Listed::listed), using(crate::proofs::GapLists::listed_set, crate::proofs::GapLists::listed_past))]
    pub fn leave_out(&mut self, place: usize)
        ensures { listed self.new ≡ slice_set (listed self.old) place gap }
    {
        if place < self.gaps.len() {
            self.gaps[place] = true;
        }
    }

    /// The list in parts, without what was left out.
    #[tactic(auto, unfolding(crate::specs::Listed::listed, crate::specs::Listed::left))]
    pub fn into_parts(self) -> Parts
        ensures { left result ≡ written (listed self) }
    {
        let Statements {
            alloc,
            packed,
            recent,
            gaps,
        } = self;
        Parts {
            alloc,
            packed,
            recent,
            gaps,
            taken: 0,
            place: 0,
        }
    }
}

/// A list of statements that is given in parts: its chunks, how many of them were given, and the place of the next statement's flag.
/// Contracts see what is `left` of it.
#[derive(Drop)]
pub struct Parts {
    alloc: Global,
    packed: Vec<Bytes>,
    recent: Vec<Stmt>,
    gaps: Vec<bool>,
    taken: usize,
    place: usize,
    ghost placed: { place ≤ vec_len gaps },
}

impl Parts {
    ghost use Rattle.std.specs.Prelude.{◌++◌, map, IfOk, IfSome};
    ghost use Rattle.c_tree.specs.View.{stmt_of};
    ghost use Rattle.packed_stmts.specs.Listed.{left, parts_left, IsNext};

    // The statements of the next chunk.
    #[tactic(auto, unfolding(crate::specs::Listed::left, crate::specs::Listed::parts_left))]
    fn next_chunk(&mut self) -> Result<Vec<Stmt>, Memory>
        requires { self.old.taken < vec_len self.old.packed }
        ensures part { IfOk result (λ part. left self.old ≡ map stmt_of part.items ++ left self.new) }
        ensures fewer { IfOk result (λ part. parts_left self.new < parts_left self.old) }
    {
        let chunk = chunk_at(&self.packed, self.taken);
        let stmts = stmts_of(self.alloc, chunk)?;
        let behind = place_behind(self.place, stmts.len(), self.gaps.len());
        let part = written_of(self.alloc, stmts, &self.gaps[self.place..]);
        self.taken += 1;
        self.place = behind;
        Ok(part)
    }

    // The statements behind all chunks.
    #[tactic(auto, unfolding(crate::specs::Listed::left, crate::specs::Listed::parts_left))]
    fn last(&mut self) -> Vec<Stmt>
        requires chunks { vec_len self.old.packed ≤ self.old.taken }
        requires some { 0 < vec_len self.old.recent }
        ensures part { left self.old ≡ map stmt_of result.items ++ left self.new }
        ensures fewer { parts_left self.new < parts_left self.old }
    {
        let recent = replace(&mut self.recent, Vec::new(self.alloc));
        written_of(self.alloc, recent, &self.gaps[self.place..])
    }

    /// The next part of the list, or `None` at its end. Each but the last was 1,024 statements, of which those that were left out
    /// are not given, so a part can be empty. A want of memory is the only error.
    #[tactic(auto, unfolding(crate::specs::Listed::left), using(crate::proofs::GapLists::none_left))]
    pub fn next(&mut self) -> Result<Option<Vec<Stmt>>, Memory>
        ensures part { IfOk result (λ part. IsNext (left self.old) part (left self.new)) }
        ensures fewer { IfOk result (λ part. IfSome part (λ _. parts_left self.new < parts_left self.old)) }
    {
        if self.taken < self.packed.len() {
            let part = self.next_chunk()?;
            return Ok(Some(part));
        }
        if self.recent.is_empty() {
            return Ok(None);
        }
        Ok(Some(self.last()))
    }

    /// All that is left, as one list. A want of memory is the only error.
    #[tactic(auto, using(crate::proofs::GapLists::one_part, crate::proofs::GapLists::no_part))]
    pub fn all(self) -> Result<Stmts, Memory>
        ensures { IfOk result (λ stmts. map stmt_of stmts ≡ left self) }
    {
        let mut parts = self;
        let mut all = Vec::new(parts.alloc);
        'more: while let Some(mut part) = parts.next()? {
            all.append(&mut part)?;
        }
        Ok(Stmts::from_vec(all))
    }
}
