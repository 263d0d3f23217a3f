// Branches.
ghost use Rattle.std.specs.Prelude.{◌≡◌, ◌<◌, ◌+◌, ◌^◌, ◌++◌, [], ◌∷◌, Some, length, slice_get, OnOk, IfOk};
ghost use Rattle.c_tree.specs.View.{stmt_of};
ghost use Rattle.c_tree.specs.declared.tree.Num.TheVariants as num;
ghost use Rattle.c_tree.specs.DefinedNames as defined;
ghost use Rattle.body_forms.specs.Branches as branch;
ghost use Rattle.body_emitter.specs.Made as made;
ghost use Rattle.body_emitter.specs.MadeBy.{made_by};

use crate::emitter::Emitter;
use crate::target::Target;
use body_forms::slot;
use c_tree::{COp, Cases, Expr, Name, Num, Stmt, label_name};
use w2c_base::{Memory, ValType};

impl Emitter {
    /// What stands behind is never reached.
    pub fn end(&mut self)
        ensures made { made_by self.new ≡ made.ended (made_by self.old) }
        ensures kept { self.new.operands ≡ self.old.operands }
    {
        self.is_dead = true;
    }

    /// A branch to a block, where it is there.
    #[tactic(auto, using(crate::proofs::Puts::no_aim, crate::proofs::Puts::some_aim))]
    pub fn jump_to(&mut self, index: u32) -> Result<(), Memory>
        ensures made { OnOk result (made_by self.new ≡ made.put_each (branch.if_aim (slice_get (made.aims_of (made_by self.old)) index) (λ aim. branch.jump aim (made_by self.old).types)) (made_by self.old)) }
        ensures kept { OnOk result (self.new.operands ≡ self.old.operands) }
    {
        match self.target(index) {
            None => Ok(()),
            Some(target) => self.jump(target),
        }
    }

    // A branch on the condition above the operands.
    #[tactic(auto, using(crate::proofs::Puts::put_joined, crate::proofs::Puts::branch_straight, crate::proofs::Puts::branch_around))]
    fn branch_if(&mut self, target: Target, around_it: usize) -> Result<(), Memory>
        ensures made { OnOk result (made_by self.new ≡ made.put_each (branch.branch_if (made_by self.old).types around_it (made.aim_of target)) (made_by self.old)) }
        ensures kept { OnOk result (self.new.operands ≡ self.old.operands) }
    {
        let height = self.operands.height();
        if self.is_straight(target) {
            self.put_jump_if(COp::Ne, height, target.label)
        } else {
            self.put_jump_if(COp::Eq, height, around_it)?;
            self.jump(target)?;
            self.put_label(around_it)
        }
    }

    /// A branch to a block on the condition above the operands, where it is there.
    #[tactic(auto, using(crate::proofs::Puts::no_aim, crate::proofs::Puts::some_aim))]
    pub fn branch_to(&mut self, index: u32, around_it: usize) -> Result<(), Memory>
        ensures made { OnOk result (made_by self.new ≡ made.put_each (branch.if_aim (slice_get (made.aims_of (made_by self.old)) index) (branch.branch_if (made_by self.old).types around_it)) (made_by self.old)) }
        ensures kept { OnOk result (self.new.operands ≡ self.old.operands) }
    {
        match self.target(index) {
            None => Ok(()),
            Some(target) => self.branch_if(target, around_it),
        }
    }

    // Where a case of a table goes: to the block's label, or to one of its own.
    #[tactic(auto, using(crate::proofs::Puts::no_case, crate::proofs::Puts::some_case))]
    fn case_label(&self, index: u32, own: usize) -> Result<Name, Memory>
        ensures { IfOk result (λ name. name ≡ branch.case_label (made_by self.now).types own (slice_get (made.aims_of (made_by self.now)) index)) }
    {
        let number = match self.target(index) {
            None => own,
            Some(target) => self.label_of(target, own),
        };
        label_name(self.alloc, number)
    }

    fn label_of(&self, target: Target, own: usize) -> usize
        ensures { defined.label_name result ≡ branch.case_label (made_by self.now).types own (Some (made.aim_of target)) }
    {
        if self.is_straight(target) {
            target.label
        } else {
            own
        }
    }

    // One more case, which goes to a block or to a label of its own.
    fn put_case(&self, cases: &mut Cases, number: u32, index: u32, own: usize) -> Result<(), Memory>
        ensures { OnOk result (cases.new ≡ cases.old
            ++ (num.N32 number, branch.case_label (made_by self.now).types own (slice_get (made.aims_of (made_by self.now)) index)) ∷ []) }
    {
        let name = self.case_label(index, own)?;
        cases.push((Num::N32(number), name))
    }

    // The cases of a table, with labels of their own from one on.
    fn cases(&self, own: usize, indexes: &[u32]) -> Result<Cases, Memory>
        requires few { length indexes.now < 2 ^ 32 }
        requires labels { length indexes.now + own < 2 ^ 64 }
        ensures { IfOk result (λ cases. cases ≡ branch.cases_from (made.aims_of (made_by self.now)) (made_by self.now).types 0 own indexes.now) }
    {
        let mut cases = Cases::new(self.alloc);
        let mut number = 0u32;
        let mut at = own;
        for index in indexes {
            self.put_case(&mut cases, number, *index, at)?;
            number += 1;
            at += 1;
        }
        Ok(cases)
    }

    fn moving_case(&mut self, target: Target, own: usize) -> Result<(), Memory>
        ensures made { OnOk result (made_by self.new ≡ made.put_each (branch.moving_case (made_by self.old).types own (made.aim_of target)) (made_by self.old)) }
        ensures kept { OnOk result (self.new.operands ≡ self.old.operands) }
    {
        if self.is_straight(target) {
            Ok(())
        } else {
            self.put_label(own)?;
            self.jump(target)
        }
    }

    /// The move of a table's case, where it needs one.
    #[tactic(auto, using(crate::proofs::Puts::no_aim, crate::proofs::Puts::some_aim))]
    pub fn move_case(&mut self, index: u32, own: usize) -> Result<(), Memory>
        ensures made { OnOk result (made_by self.new ≡ made.move_case own index (made_by self.old)) }
        ensures kept { OnOk result (self.new.operands ≡ self.old.operands) }
    {
        match self.target(index) {
            None => Ok(()),
            Some(target) => self.moving_case(target, own),
        }
    }

    /// The moves of a table's cases. It gives the next label.
    pub fn move_cases(&mut self, own: usize, indexes: &[u32]) -> Result<usize, Memory>
        requires { length indexes.now + own < 2 ^ 64 }
        ensures next { IfOk result (λ at. at ≡ length indexes.now + own) }
        ensures made { OnOk result (made_by self.new ≡ made.moved_cases own indexes.now (made_by self.old)) }
        ensures kept { OnOk result (self.new.operands ≡ self.old.operands) }
    {
        let mut at = own;
        for index in indexes {
            self.move_case(*index, at)?;
            at += 1;
        }
        Ok(at)
    }

    /// Branches go to blocks.
    pub fn name_blocks(&mut self, indexes: &[u32])
        ensures made { made_by self.new ≡ made.name_blocks indexes.now (made_by self.old) }
        ensures kept { self.new.operands ≡ self.old.operands }
    {
        for index in indexes {
            self.name_block(*index);
        }
    }

    fn switch_on(&self, own: usize, indexes: &[u32], default: u32) -> Result<Stmt, Memory>
        requires few { length indexes.now < 2 ^ 32 }
        requires labels { length indexes.now + own < 2 ^ 64 }
        ensures { IfOk result (λ s. stmt_of s ≡ made.switch_on (made.aims_of (made_by self.now)) (made_by self.now).types own indexes.now default) }
    {
        let last = indexes.len() + own;
        let other = self.case_label(default, last)?;
        let on = slot(self.alloc, ValType::I32, self.operands.height())?;
        let cases = self.cases(own, indexes)?;
        Ok(Stmt::Switch(Expr::Name(on), cases, other))
    }

    /// The statement of a table.
    pub fn put_switch(&mut self, own: usize, indexes: &[u32], default: u32) -> Result<(), Memory>
        requires few { length indexes.now < 2 ^ 32 }
        requires labels { length indexes.now + own < 2 ^ 64 }
        ensures made { OnOk result (made_by self.new ≡ made.put (made.switch_on (made.aims_of (made_by self.old)) (made_by self.old).types own indexes.now default) (made_by self.old)) }
        ensures kept { OnOk result (self.new.operands ≡ self.old.operands) }
    {
        self.put(self.switch_on(own, indexes, default)?)
    }
}
