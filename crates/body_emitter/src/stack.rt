// The types on the operand stack, and which slots have occurred.
ghost use Rattle.std.specs.Prelude.{◌≤◌, vec_len};

use crate::mark::Mark;
use std::alloc::Global;
use w2c_base::{Memory, ValType};

/// The types of the operands of all open blocks, the last one on top; where those of the innermost block
/// begin; and by height which slots have occurred so far.
#[derive(Drop)]
pub struct Operands {
    pub(crate) types: Vec<ValType>,
    pub(crate) floor: usize,
    pub marks: Vec<Mark>,
    ghost within: { floor ≤ vec_len types },
    ghost marked: { vec_len types ≤ vec_len marks },
}

impl Operands {
    ghost use Rattle.std.specs.Prelude.{◌≡◌, ◌+◌, ◌<◌, ◌^◌, [], ◌∷◌, take, drop, length, slice_get, OnOk};
    ghost use Rattle.body_emitter.specs.Marks.{mark};
    ghost use Rattle.body_emitter.specs.Shown.{HasOperands, types_of, Keeps};

    /// No operands. It takes no memory.
    pub fn new(alloc: Global) -> Operands
        ensures types { types_of result ≡ [] }
        ensures marks { result.marks.items ≡ [] }
        ensures floor { result.floor ≡ 0 }
    {
        Operands {
            types: Vec::new(alloc),
            floor: 0,
            marks: Vec::new(alloc),
        }
    }

    /// How many operands there are.
    #[tactic(auto, using(crate::proofs::Stacks::length_reversed))]
    pub fn height(&self) -> usize
        ensures value { result ≡ length (types_of self.now) }
        ensures small { result < 2 ^ 63 }
    {
        self.types.len()
    }

    /// Takes operands of the block.
    #[tactic(auto, using(crate::proofs::Stacks::drop_reversed, crate::proofs::Stacks::take_shorter))]
    pub fn pop(&mut self, count: usize)
        requires { HasOperands count self.old }
        ensures types { types_of self.new ≡ drop count (types_of self.old) }
        ensures marks { self.new.marks.items ≡ self.old.marks.items }
        ensures kept { Keeps self.old self.new }
    {
        self.types.truncate(self.types.len() - count);
    }

    // Marks the slot of a type at the height above all operands.
    #[tactic(auto, using(crate::proofs::Stacks::mark_within, crate::proofs::Stacks::mark_past, crate::proofs::Stacks::length_reversed))]
    pub(crate) fn mark_next(&mut self, ty: ValType) -> Result<(), Memory>
        ensures types { self.new.types.items ≡ self.old.types.items }
        ensures marks { OnOk result (self.new.marks.items ≡ mark ty (length (types_of self.old)) self.old.marks.items) }
        ensures room { OnOk result (vec_len self.old.types + 1 ≤ vec_len self.new.marks) }
        ensures floor { self.new.floor ≡ self.old.floor }
    {
        let height = self.types.len();
        if height < self.marks.len() {
            self.marks[height] = self.marks[height].with(ty);
        } else {
            self.marks.push(Mark::none().with(ty))?;
        }
        Ok(())
    }

    /// Puts an operand.
    #[tactic(auto, using(crate::proofs::Stacks::reverse_more, crate::proofs::Stacks::take_more))]
    pub fn push(&mut self, ty: ValType) -> Result<(), Memory>
        ensures types { OnOk result (types_of self.new ≡ ty ∷ types_of self.old) }
        ensures marks { OnOk result (self.new.marks.items ≡ mark ty (length (types_of self.old)) self.old.marks.items) }
        ensures kept { OnOk result (Keeps self.old self.new) }
    {
        self.mark_next(ty)?;
        self.types.push(ty)?;
        Ok(())
    }

    /// The type of the operand below the top.
    #[tactic(auto, using(crate::proofs::Stacks::second_of))]
    pub fn second(&self) -> Option<ValType>
        ensures { result ≡ slice_get (types_of self.now) 1 }
    {
        let count = self.types.len();
        if count < 2 {
            None
        } else {
            Some(self.types[count - 2])
        }
    }

    /// A block begins. It gives where the operands of the block around it begin.
    pub(crate) fn enter(&mut self) -> usize
        ensures outer { result ≡ self.old.floor }
        ensures types { self.new.types.items ≡ self.old.types.items }
        ensures marks { self.new.marks.items ≡ self.old.marks.items }
        ensures floor { self.new.floor ≡ vec_len self.old.types }
    {
        let outer = self.floor;
        self.floor = self.types.len();
        outer
    }

    /// The operands of the block are gone.
    pub(crate) fn clear(&mut self)
        ensures types { self.new.types.items ≡ take self.old.floor self.old.types.items }
        ensures marks { self.new.marks.items ≡ self.old.marks.items }
        ensures floor { self.new.floor ≡ self.old.floor }
    {
        self.types.truncate(self.floor);
    }

    /// A block has ended, and its operands are gone.
    pub(crate) fn leave(&mut self, outer: usize)
        requires { outer ≤ self.old.floor }
        ensures types { self.new.types.items ≡ take self.old.floor self.old.types.items }
        ensures marks { self.new.marks.items ≡ self.old.marks.items }
        ensures floor { self.new.floor ≡ outer }
    {
        self.clear();
        self.floor = outer;
    }
}
