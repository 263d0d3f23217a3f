// The translation of a body: what it has made so far, and the changes that instructions make of it.
ghost use Rattle.std.specs.Prelude.{◌≡◌, ◌+◌, ◌<◌, ◌^◌, ◌==◌, if◌then◌else◌, [], ◌∷◌, length, drop, slice_get, option_map, OnOk, Some};
ghost use Rattle.c_tree.specs.Tree as tree;
ghost use Rattle.c_tree.specs.View.{stmt_of, expr_of};
ghost use Rattle.c_tree.specs.DefinedNames as defined;
ghost use Rattle.body_forms.specs.Branches as branch;
ghost use Rattle.body_emitter.specs.Made as made;
ghost use Rattle.body_emitter.specs.MadeBy.{made_by};
ghost use Rattle.body_forms.specs.Slots as slots;
ghost use Rattle.body_emitter.specs.Shown.{HasOperands, Keeps};

use crate::stack::Operands;
use crate::target::{OpenBlock, Target};
use body_forms::{set_slot, set_to_operand, slot};
use c_tree::{COp, Expr, Num, Stmt, label_name};
use packed_stmts::Statements;
use std::alloc::Global;
use w2c_base::{Memory, ValType};

/// The operands' types and the slots that occurred; the open blocks, the innermost last; the statements, with
/// gaps where a label was left out again; the next label; and whether this place is never reached, some
/// branch goes back to the caller, and some call is indirect.
#[derive(Drop)]
pub struct Emitter {
    pub alloc: Global,
    pub operands: Operands,
    pub(crate) blocks: Vec<OpenBlock>,
    pub(crate) stmts: Statements,
    pub(crate) labels: usize,
    pub is_dead: bool,
    pub returns: bool,
    pub is_indirect: bool,
}

impl Emitter {
    /// One more statement.
    pub fn put(&mut self, s: Stmt) -> Result<(), Memory>
        ensures made { OnOk result (made_by self.new ≡ made.put (stmt_of s) (made_by self.old)) }
        ensures kept { OnOk result (self.new.operands ≡ self.old.operands) }
    {
        self.stmts.push(s)?;
        Ok(())
    }

    /// A label.
    pub(crate) fn put_label(&mut self, number: usize) -> Result<(), Memory>
        ensures made { OnOk result (made_by self.new ≡ made.put (tree.Label (defined.label_name number)) (made_by self.old)) }
        ensures kept { OnOk result (self.new.operands ≡ self.old.operands) }
    {
        let name = label_name(self.alloc, number)?;
        self.put(Stmt::Label(name))
    }

    /// A jump to a label.
    pub(crate) fn put_goto(&mut self, number: usize) -> Result<(), Memory>
        ensures made { OnOk result (made_by self.new ≡ made.put (tree.Goto (defined.label_name number)) (made_by self.old)) }
        ensures kept { OnOk result (self.new.operands ≡ self.old.operands) }
    {
        let name = label_name(self.alloc, number)?;
        self.put(Stmt::Goto(name))
    }

    /// A jump to a label where the operand at a height compares so with 0.
    pub(crate) fn put_jump_if(&mut self, op: COp, height: usize, to: usize) -> Result<(), Memory>
        ensures made { OnOk result (made_by self.new ≡ made.put (slots.jump_if op height to) (made_by self.old)) }
        ensures kept { OnOk result (self.new.operands ≡ self.old.operands) }
    {
        let left = slot(self.alloc, ValType::I32, height)?;
        let name = label_name(self.alloc, to)?;
        self.put(Stmt::If(op, Expr::Name(left), Expr::Num(Num::N32(0)), name))
    }

    /// A label, where it is named.
    pub(crate) fn put_label_if(&mut self, named: bool, number: usize) -> Result<(), Memory>
        ensures made { OnOk result (made_by self.new ≡ made.put_each (branch.label_if named number) (made_by self.old)) }
        ensures kept { OnOk result (self.new.operands ≡ self.old.operands) }
    {
        if named {
            self.put_label(number)
        } else {
            Ok(())
        }
    }

    /// Takes operands.
    pub fn pop(&mut self, count: usize)
        requires { HasOperands count self.old.operands }
        ensures made { made_by self.new ≡ made.popped count (made_by self.old) }
        ensures kept { Keeps self.old.operands self.new.operands }
    {
        self.operands.pop(count);
    }

    /// Puts an operand, where there is a type.
    pub(crate) fn give(&mut self, ty: Option<ValType>) -> Result<(), Memory>
        ensures made { OnOk result (made_by self.new ≡ made.give ty (made_by self.old)) }
        ensures kept { OnOk result (Keeps self.old.operands self.new.operands) }
    {
        match ty {
            None => Ok(()),
            Some(ty) => self.operands.push(ty),
        }
    }

    /// One more statement, and then an operand, where there is a type.
    #[tactic(auto, using(crate::proofs::Stacks::same_then_keeps))]
    pub fn put_given(&mut self, s: Stmt, ty: Option<ValType>) -> Result<(), Memory>
        ensures made { OnOk result (made_by self.new ≡ made.give ty (made.put (stmt_of s) (made_by self.old))) }
        ensures kept { OnOk result (Keeps self.old.operands self.new.operands) }
    {
        self.put(s)?;
        self.give(ty)
    }

    /// Takes so many labels, and gives the first.
    pub fn take_labels(&mut self, count: usize) -> usize
        requires { count + self.old.labels < 2 ^ 64 }
        ensures first { result ≡ self.old.labels }
        ensures made { made_by self.new ≡ made.with_labels count (made_by self.old) }
        ensures kept { self.new.operands ≡ self.old.operands }
    {
        let first = self.labels;
        self.labels = count + first;
        first
    }

    /// Where a branch to a block goes.
    #[tactic(auto, using(crate::proofs::Stacks::blocks_found, crate::proofs::Stacks::blocks_past))]
    pub(crate) fn target(&self, index: u32) -> Option<Target>
        ensures { option_map made.aim_of result ≡ slice_get (made.aims_of (made_by self.now)) index }
    {
        let count = self.blocks.len();
        let index = index as usize;
        if index < count {
            Some(self.blocks[count - 1 - index].target)
        } else {
            None
        }
    }

    /// A branch goes to a block.
    #[tactic(auto, using(crate::proofs::Stacks::named_within, crate::proofs::Stacks::named_past))]
    pub fn name_block(&mut self, index: u32)
        ensures made { made_by self.new ≡ made.name_block index (made_by self.old) }
        ensures kept { self.new.operands ≡ self.old.operands }
    {
        let count = self.blocks.len();
        let index = index as usize;
        if index < count {
            let place = count - 1 - index;
            self.blocks[place] = OpenBlock {
                target: self.blocks[place].target,
                named: true,
            };
        }
    }

    /// Whether a branch's value stands where it belongs already, or there is none.
    pub(crate) fn is_straight(&self, target: Target) -> bool
        ensures { result ≡ branch.is_straight (made.aim_of target) (made_by self.now).types }
    {
        match target.value {
            None => true,
            Some(_) => self.height_under(1) == target.height,
        }
    }

    /// The height under the uppermost operands.
    #[tactic(auto, using(crate::proofs::Stacks::under_of))]
    pub fn height_under(&self, count: usize) -> usize
        ensures value { result ≡ length (drop count (made_by self.now).types) }
        ensures small { result < 2 ^ 63 }
    {
        self.operands.height().saturating_sub(count)
    }

    /// The operand at a height comes to another.
    pub(crate) fn put_move(&mut self, ty: ValType, to: usize, from: usize) -> Result<(), Memory>
        ensures made { OnOk result (made_by self.new ≡ made.put (slots.set_slot ty to (slots.operand ty from)) (made_by self.old)) }
        ensures kept { OnOk result (self.new.operands ≡ self.old.operands) }
    {
        let target = slot(self.alloc, ty, to)?;
        self.put(set_to_operand(self.alloc, target, ty, from)?)
    }

    // The uppermost operand comes to a height.
    fn move_to(&mut self, ty: ValType, height: usize) -> Result<(), Memory>
        ensures made { OnOk result (made_by self.new ≡ made.put_each (if length (drop 1 (made_by self.old).types) == height then [] else slots.set_slot ty height (slots.operand ty (length (drop 1 (made_by self.old).types))) ∷ []) (made_by self.old)) }
        ensures kept { OnOk result (self.new.operands ≡ self.old.operands) }
    {
        let from = self.height_under(1);
        if from == height {
            Ok(())
        } else {
            self.put_move(ty, height, from)
        }
    }

    // The value of a branch comes to its place.
    fn carry(&mut self, target: Target) -> Result<(), Memory>
        ensures made { OnOk result (made_by self.new ≡ made.put_each (branch.carry (made.aim_of target) (made_by self.old).types) (made_by self.old)) }
        ensures kept { OnOk result (self.new.operands ≡ self.old.operands) }
    {
        match target.value {
            None => Ok(()),
            Some(ty) => self.move_to(ty, target.height),
        }
    }

    /// A branch.
    #[tactic(auto, using(crate::proofs::Puts::put_joined, crate::proofs::Puts::put_types))]
    pub fn jump(&mut self, target: Target) -> Result<(), Memory>
        ensures made { OnOk result (made_by self.new ≡ made.put_each (branch.jump (made.aim_of target) (made_by self.old).types) (made_by self.old)) }
        ensures kept { OnOk result (self.new.operands ≡ self.old.operands) }
    {
        self.carry(target)?;
        self.put_goto(target.label)
    }

    /// The first of two values stays, or the second comes in its place.
    pub fn choose(&mut self, ty: ValType, label_number: usize) -> Result<(), Memory>
        ensures made { OnOk result (made_by self.new ≡ made.put_each (slots.selected label_number (length (drop 3 (made_by self.old).types)) ty) (made_by self.old)) }
        ensures kept { OnOk result (self.new.operands ≡ self.old.operands) }
    {
        let height = self.height_under(3);
        self.put_jump_if(COp::Ne, 2 + height, label_number)?;
        self.put_move(ty, height, 1 + height)?;
        self.put_label(label_number)
    }

    /// A value comes on top.
    pub fn give_value(&mut self, ty: ValType, value: Expr) -> Result<(), Memory>
        ensures made { OnOk result (made_by self.new ≡
            made.give (Some ty) (made.put (slots.set_slot ty (length (made_by self.old).types) (expr_of value)) (made_by self.old))) }
        ensures kept { OnOk result (Keeps self.old.operands self.new.operands) }
    {
        let height = self.operands.height();
        self.put_given(set_slot(self.alloc, ty, height, value)?, Some(ty))
    }
}
