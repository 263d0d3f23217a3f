// The operand stack of the checker (WebAssembly Core 1.0, appendix 7.3.1).
ghost use Rattle.std.specs.Prelude.{◌≤◌, vec_len};

use crate::operand::{Operand, unify};
use crate::stop::Stop;
use std::alloc::Global;
use w2c_base::ValType;

/// Where the operands of the innermost open block begin, and whether the code is dead there: then operands of any type
/// stand below the others.
#[derive(Clone, Copy)]
pub(crate) struct Height {
    below: usize,
    dead: bool,
}

/// The operands of all open blocks, the last one on top.
#[derive(Drop)]
pub(crate) struct OperandStack {
    slots: Vec<Operand>,
    height: Height,
    ghost within: { height.below ≤ vec_len slots },
}

impl OperandStack {
    ghost use Rattle.std.specs.Prelude.{◌≡◌, ◌↔◌, IsTrue, reverse, Some, OnOk};
    ghost use Rattle.wasm_typing.specs.Typing.{values};
    ghost use Rattle.body_check.specs.Checker.{nothing, anything, on, pop_type, pop_types, turn, give, chosen, on_some, closes};
    ghost use Rattle.w2c_base.specs.declared.value.ValType.TheVariants as ty;
    ghost use Rattle.body_check.specs.Shown.{shown, Keeps, Steps, Pops};

    /// No operands. It takes no memory.
    pub(crate) fn new(alloc: Global) -> OperandStack
        ensures { shown result ≡ nothing }
    {
        OperandStack {
            slots: Vec::new(alloc),
            height: Height {
                below: 0,
                dead: false,
            },
        }
    }

    /// A block begins without operands. It gives the height of the block around it.
    pub(crate) fn enter(&mut self) -> Height
        ensures outer { result ≡ self.old.height }
        ensures empty { shown self.new ≡ nothing }
        ensures slots { self.new.slots.items ≡ self.old.slots.items }
        ensures height { self.new.height.below ≡ vec_len self.old.slots }
    {
        let outer = self.height;
        self.height = Height {
            below: self.slots.len(),
            dead: false,
        };
        outer
    }

    /// A block has ended, and has left no operand.
    pub(crate) fn leave(&mut self, outer: Height)
        requires { outer.below ≤ vec_len self.old.slots }
        ensures slots { self.new.slots.items ≡ self.old.slots.items }
        ensures height { self.new.height ≡ outer }
    {
        self.height = outer;
    }

    // Whether the block has no operands left.
    fn is_empty(&self) -> bool
        ensures { IsTrue result ↔ (vec_len self.now.slots ≤ self.now.height.below) }
    {
        self.slots.len() <= self.height.below
    }

    pub(crate) fn push(&mut self, operand: Operand) -> Result<(), Stop>
        ensures step { Steps result (Some (on operand (shown self.old))) (shown self.new) }
        ensures kept { OnOk result (Keeps self.old self.new) }
    {
        self.slots.push(operand)?;
        Ok(())
    }

    pub(crate) fn pop(&mut self) -> Result<Operand, Stop>
        ensures step { Pops result (shown self.old) (shown self.new) }
        ensures kept { Keeps self.old self.new }
    {
        if !self.is_empty() {
            if let Some(operand) = self.slots.pop() {
                return Ok(operand);
            }
        }
        if self.height.dead {
            Ok(Operand::Unknown)
        } else {
            Err(Stop::MISMATCH)
        }
    }

    /// Takes an operand of a type.
    pub(crate) fn pop_type(&mut self, ty: ValType) -> Result<(), Stop>
        ensures step { Steps result (pop_type ty (shown self.old)) (shown self.new) }
        ensures kept { Keeps self.old self.new }
    {
        match self.pop() {
            Err(stop) => Err(stop),
            Ok(Operand::Unknown) => Ok(()),
            Ok(Operand::Known(other)) => {
                if other == ty {
                    Ok(())
                } else {
                    Err(Stop::MISMATCH)
                }
            }
        }
    }

    /// Takes operands of these types, the last one from the top.
    pub(crate) fn pop_types(&mut self, types: &[ValType]) -> Result<(), Stop>
        ensures step { Steps result (pop_types (reverse types.now) (shown self.old)) (shown self.new) }
        ensures kept { Keeps self.old self.new }
    {
        let mut left = types.len();
        while left > 0 {
            left -= 1;
            match self.pop_type(types[left]) {
                Ok(()) => {}
                Err(stop) => return Err(stop),
            }
        }
        Ok(())
    }

    /// Takes an operand where there is a type.
    pub(crate) fn pop_value(&mut self, ty: Option<ValType>) -> Result<(), Stop>
        ensures step { Steps result (pop_types (values ty) (shown self.old)) (shown self.new) }
        ensures kept { Keeps self.old self.new }
    {
        match ty {
            None => Ok(()),
            Some(ty) => self.pop_type(ty),
        }
    }

    /// Puts an operand where there is a type.
    pub(crate) fn push_value(&mut self, ty: Option<ValType>) -> Result<(), Stop>
        ensures step { Steps result (Some (give ty (shown self.old))) (shown self.new) }
        ensures kept { OnOk result (Keeps self.old self.new) }
    {
        match ty {
            None => Ok(()),
            Some(ty) => self.push(Operand::Known(ty)),
        }
    }

    /// Takes the operands and puts the result.
    pub(crate) fn turn(
        &mut self,
        operands: &[ValType],
        outcome: Option<ValType>,
    ) -> Result<(), Stop>
        ensures step { Steps result (turn operands.now (values outcome) (shown self.old)) (shown self.new) }
        ensures kept { OnOk result (Keeps self.old self.new) }
    {
        match self.pop_types(operands) {
            Ok(()) => self.push_value(outcome),
            Err(stop) => Err(stop),
        }
    }

    /// What comes behind is not reached: it finds every operand.
    pub(crate) fn die(&mut self)
        ensures step { shown self.new ≡ anything }
        ensures kept { Keeps self.old self.new }
    {
        self.slots.truncate(self.height.below);
        self.height.dead = true;
    }

    /// Two operands of one type, below an i32, leave one.
    pub(crate) fn select(&mut self) -> Result<(), Stop>
        ensures step { Steps result (on_some (pop_type ty.I32 (shown self.old)) chosen) (shown self.new) }
        ensures kept { OnOk result (Keeps self.old self.new) }
    {
        if let Err(stop) = self.pop_type(ValType::I32) {
            return Err(stop);
        }
        let second = match self.pop() {
            Ok(second) => second,
            Err(stop) => return Err(stop),
        };
        let first = match self.pop() {
            Ok(first) => first,
            Err(stop) => return Err(stop),
        };
        match unify(second, first) {
            Ok(both) => self.push(both),
            Err(stop) => Err(stop),
        }
    }

    /// Takes the result of a block, below which nothing may be left.
    pub(crate) fn close(&mut self, outcome: Option<ValType>) -> Result<(), Stop>
        ensures step { Steps result (closes outcome (shown self.old)) nothing }
        ensures empty { OnOk result (vec_len self.new.slots ≤ self.new.height.below) }
        ensures kept { Keeps self.old self.new }
    {
        match self.pop_value(outcome) {
            Err(stop) => Err(stop),
            Ok(()) => {
                if self.is_empty() {
                    Ok(())
                } else {
                    Err(Stop::MISMATCH)
                }
            }
        }
    }
}
