// The beginnings and ends of blocks.
ghost use Rattle.std.specs.Prelude.{◌≡◌, ◌<◌, ◌≤◌, ◌+◌, ◌^◌, ◌∷◌, ◌||◌, not, [], length, OnOk, IfOk};
ghost use Rattle.w2c_base.specs.declared.value.ValType.{ValType};
ghost use Rattle.wasm_tree.specs.Views.{otherwise_tree};
ghost use Rattle.body_emitter.specs.declared.emitter.Emitter.{Emitter as Place};
ghost use Rattle.body_emitter.specs.declared.stack.Operands.{Operands as Those};
ghost use Rattle.body_forms.specs.Branches as branch;
ghost use Rattle.body_emitter.specs.Made as made;
ghost use Rattle.body_emitter.specs.MadeBy.{made_by};
ghost use Rattle.body_emitter.specs.Inside.{Inside, IsOpening};
ghost use Rattle.body_emitter.specs.Shown.{Keeps};

use crate::emitter::Emitter;
use crate::target::{OpenBlock, Opening, Target};
use c_tree::COp;
use w2c_base::{Memory, ValType};
use wasm_tree::ElsePart;

impl Emitter {
    /// What is kept of the place before a block: its first label, the floor of the operands, and the next statement's place.
    pub fn opening(&self) -> Opening
        requires { self.now.labels + 1 < 2 ^ 64 }
        ensures { IsOpening result self.now }
    {
        Opening {
            label: self.labels,
            floor: self.operands.floor,
            place: self.stmts.len(),
        }
    }

    // A block begins here.
    #[tactic(auto, using(crate::proofs::Stacks::reverse_more, crate::proofs::Insides::all_of_them))]
    fn open(&mut self, label_number: usize, value: Option<ValType>) -> Result<(), Memory>
        ensures made { OnOk result (made_by self.new ≡ made.opened (made.block_at label_number (length (made_by self.old).types) value) (made_by self.old)) }
        ensures inside { OnOk result (Inside self.old.operands self.new.operands) }
    {
        let height = self.operands.height();
        self.blocks.push(OpenBlock {
            target: Target {
                label: label_number,
                height,
                value,
            },
            named: false,
        })?;
        self.operands.enter();
        Ok(())
    }

    /// A block begins (WebAssembly 1.0, 4.4.5), whose end a label of its own names. A want of memory is the only error.
    #[tactic(auto, using(crate::proofs::Insides::inside_same))]
    pub fn open_block(&mut self, value: Option<ValType>) -> Result<(), Memory>
        requires { self.old.labels + 1 < 2 ^ 64 }
        ensures made { OnOk result (made_by self.new ≡ made.in_block value (made_by self.old)) }
        ensures inside { OnOk result (Inside self.old.operands self.new.operands) }
    {
        let own = self.take_labels(1);
        self.open(own, value)
    }

    /// A loop begins, at a label of its own, to which its branches go back. A want of memory is the only error.
    #[tactic(auto, using(crate::proofs::Insides::inside_same))]
    pub fn open_loop(&mut self) -> Result<(), Memory>
        requires { self.old.labels + 1 < 2 ^ 64 }
        ensures made { OnOk result (made_by self.new ≡ made.in_loop (made_by self.old)) }
        ensures inside { OnOk result (Inside self.old.operands self.new.operands) }
    {
        let own = self.take_labels(1);
        self.put_label(own)?;
        self.open(own, None)
    }

    /// The first branch of an `if` begins behind its operand (WebAssembly 1.0, 4.4.5): a jump to the other branch, or to the end
    /// where there is none, and two labels more. A want of memory is the only error, here and below.
    #[tactic(auto, using(crate::proofs::Insides::inside_same))]
    pub fn open_first(
        &mut self,
        value: Option<ValType>,
        otherwise: &Option<ElsePart>,
    ) -> Result<(), Memory>
        requires { self.old.labels + 2 < 2 ^ 64 }
        ensures made { OnOk result (made_by self.new ≡ made.in_first value (otherwise_tree otherwise.now) (made_by self.old)) }
        ensures inside { OnOk result (Inside self.old.operands self.new.operands) }
    {
        let own = self.take_labels(2);
        let height = self.operands.height();
        let to = else_label(own, otherwise);
        self.put_jump_if(COp::Eq, height, to)?;
        self.open(own + 1, value)
    }

    // The operands of the block are gone, and its end is reached.
    fn restore(&mut self)
        ensures made { (outer : Place) → Inside outer.operands self.old.operands → made_by self.new ≡ made.restored (made_by outer) (made_by self.old) }
        ensures inside { (outer : Those) → Inside outer self.old.operands → Inside outer self.new.operands }
    {
        self.operands.clear();
        self.is_dead = false;
    }

    // The jump over the second branch of an `if`, where the first one comes to its end.
    fn jump_over(&mut self, falls: bool, to: usize) -> Result<(), Memory>
        ensures made { OnOk result (made_by self.new ≡ made.put_each (branch.jump_over falls to) (made_by self.old)) }
        ensures kept { OnOk result (self.new.operands ≡ self.old.operands) }
    {
        if falls { self.put_goto(to) } else { Ok(()) }
    }

    /// The second branch of an `if` begins, behind the jump over it. It says whether the first one comes to its end.
    #[tactic(auto, using(crate::proofs::Insides::inside_then_same))]
    pub fn open_second(&mut self, at: Opening) -> Result<bool, Memory>
        ensures falls { IfOk result (λ falls. falls ≡ not self.old.is_dead) }
        ensures made { (outer : Place) → IsOpening at outer → Inside outer.operands self.old.operands
            → OnOk result (made_by self.new ≡ made.in_second (made_by outer) (made_by self.old)) }
        ensures inside { (outer : Those) → Inside outer self.old.operands → OnOk result (Inside outer self.new.operands) }
    {
        let falls = !self.is_dead;
        self.restore();
        self.jump_over(falls, at.label + 1)?;
        self.put_label(at.label)?;
        Ok(falls)
    }

    // A block ends. It says whether its label is named.
    fn close(&mut self, at: Opening) -> bool
        requires { at.floor ≤ self.old.operands.floor }
        ensures named { result ≡ made.is_named (made_by self.old).blocks }
        ensures made { (outer : Place) → Inside outer.operands self.old.operands → made_by self.new ≡ made.closed (made_by outer) (made_by self.old) }
        ensures kept { (outer : Those) → Inside outer self.old.operands → at.floor ≡ outer.floor → Keeps outer self.new.operands }
    {
        let named = match self.blocks.pop() {
            Some(block) => block.named,
            None => false,
        };
        self.operands.leave(at.floor);
        self.is_dead = false;
        named
    }

    /// A block ends that `open_block` began: its label, where a branch names it, and its value. `at` is what `opening` gave.
    pub fn end_block(&mut self, at: Opening, value: Option<ValType>) -> Result<(), Memory>
        requires { at.floor ≤ self.old.operands.floor }
        ensures made { (outer : Place) → IsOpening at outer → Inside outer.operands self.old.operands
            → OnOk result (made_by self.new ≡ made.behind_block value (made_by outer) (made_by self.old)) }
        ensures kept { (outer : Those) → Inside outer self.old.operands → at.floor ≡ outer.floor → OnOk result (Keeps outer self.new.operands) }
    {
        let named = self.close(at);
        self.put_label_if(named, at.label)?;
        self.give(value)
    }

    // Leaves the label at a place out again, unless it is named.
    fn leave_out(&mut self, named: bool, place: usize)
        ensures made { made_by self.new ≡ made.left_out named place (made_by self.old) }
        ensures kept { self.new.operands ≡ self.old.operands }
    {
        if !named {
            self.stmts.leave_out(place);
        }
    }

    /// A loop ends: its label goes where no branch names it, and its value comes.
    pub fn end_loop(&mut self, at: Opening, value: Option<ValType>) -> Result<(), Memory>
        requires { at.floor ≤ self.old.operands.floor }
        ensures made { (outer : Place) → IsOpening at outer → Inside outer.operands self.old.operands
            → OnOk result (made_by self.new ≡ made.behind_loop value (made_by outer) (made_by self.old)) }
        ensures kept { (outer : Those) → Inside outer self.old.operands → at.floor ≡ outer.floor → OnOk result (Keeps outer self.new.operands) }
    {
        let named = self.close(at);
        self.leave_out(named, at.place);
        self.give(value)
    }

    /// An `if` without a second branch ends: the label of its end, and its value.
    pub fn end_first(&mut self, at: Opening, value: Option<ValType>) -> Result<(), Memory>
        requires { at.floor ≤ self.old.operands.floor }
        ensures made { (outer : Place) → IsOpening at outer → Inside outer.operands self.old.operands
            → OnOk result (made_by self.new ≡ made.give value (made.behind_first (made_by outer) (made_by self.old))) }
        ensures kept { (outer : Those) → Inside outer self.old.operands → at.floor ≡ outer.floor → OnOk result (Keeps outer self.new.operands) }
    {
        self.close(at);
        self.put_label(at.label + 1)?;
        self.give(value)
    }

    /// The second branch of an `if` ends: the label behind both, where one of them comes there or a branch names it, and the value.
    pub fn end_second(
        &mut self,
        at: Opening,
        falls: bool,
        value: Option<ValType>,
    ) -> Result<(), Memory>
        requires { at.floor ≤ self.old.operands.floor }
        ensures made { (outer : Place) → IsOpening at outer → Inside outer.operands self.old.operands
            → OnOk result (made_by self.new ≡ made.give value (made.behind_falling (made_by outer) falls (made_by self.old))) }
        ensures kept { (outer : Those) → Inside outer self.old.operands → at.floor ≡ outer.floor → OnOk result (Keeps outer self.new.operands) }
    {
        let named = self.close(at);
        self.put_label_if(falls || named, at.label + 1)?;
        self.give(value)
    }
}

// The label behind the first branch of an `if`.
fn else_label(own: usize, otherwise: &Option<ElsePart>) -> usize
    requires { own + 1 < 2 ^ 64 }
    ensures { result ≡ made.else_label own (otherwise_tree otherwise.now) }
{
    match otherwise {
        None => own + 1,
        Some(_) => own,
    }
}
