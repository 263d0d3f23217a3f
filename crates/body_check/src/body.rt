// The checker of bodies (WebAssembly Core 1.0, appendix 7.3.2).
ghost use Rattle.std.specs.Prelude.{◌≡◌, ℕ, Option, ◌≤◌, OnOk, IfOk};
ghost use Rattle.wasm_tree.specs.Instructions.{If};
ghost use Rattle.wasm_tree.specs.Views.{kind_tree, otherwise_tree};
ghost use Rattle.body_check.specs.Seen.{typed_context_seen};
ghost use Rattle.body_check.specs.Checker.{check, nothing, run, run_kind};
ghost use Rattle.body_check.specs.Checked.{Checked};
ghost use Rattle.body_check.specs.Shown.{shown};
ghost use Rattle.body_check.specs.RanTo.{seen, labels_of, RanTo, all_placed, end_ran, run_block, run_nested, Stays, Ended, Untouched, Opened};

use crate::context::{Spaces, locals_of};
use crate::operands::{Height, OperandStack};
use crate::plain::Surroundings;
use crate::stop::Stop;
use std::alloc::Global;
use w2c_base::{FuncType, Memory, ValType};
use wasm_tree::{BodyEntry, Code, ElsePart, Instr, Kind};
use wasm_typing::{ValidCause, ValidRefusal};

/// Checks the body of a function of this type. It is refused by its first faulty token.
pub fn check_body(
    alloc: Global,
    spaces: &Spaces,
    ty: &FuncType,
    body: &BodyEntry,
) -> Result<(), ValidRefusal>
    ensures { Checked result (check (typed_context_seen spaces.now body.now ty.now) body.now.code body.now.end_place) }
{
    let locals = locals_of(alloc, ty, body)?;
    let around = Surroundings {
        spaces,
        locals: locals.as_slice(),
        result: ty.result,
    };
    let mut blocks = OpenBlocks {
        operands: OperandStack::new(alloc),
        labels: Vec::new(alloc),
    };
    blocks.block(&around, Block::new(ty.result, body.end_place), &body.code)
}

/// A block: what its label carries, its result, and the place of its `end`.
#[derive(Clone, Copy)]
struct Block {
    label: Option<ValType>,
    result: Option<ValType>,
    end_place: u32,
}

impl Block {
    // A block whose label carries its result.
    fn new(outcome: Option<ValType>, end_place: u32) -> Block
        ensures { result ≡ record { label = outcome; result = outcome; end_place = end_place } }
    {
        Block {
            label: outcome,
            result: outcome,
            end_place,
        }
    }
}

// The refusal at a place.
fn at_place(outcome: Result<(), Stop>, place: u32) -> Result<(), ValidRefusal>
    ensures { result ≡ all_placed outcome place }
{
    match outcome {
        Ok(()) => Ok(()),
        Err(stop) => Err(stop.at(place)),
    }
}

/// The open blocks: their operands, and what their labels carry, the innermost last.
#[derive(Drop)]
struct OpenBlocks {
    operands: OperandStack,
    labels: Vec<Option<ValType>>,
}

impl OpenBlocks {
    // One more block. It gives the height of the operands around it.
    fn enter(&mut self, label: Option<ValType>) -> Result<Height, Memory>
        ensures { IfOk result (λ outer. Opened label outer self.old self.new) }
    {
        self.labels.push(label)?;
        Ok(self.operands.enter())
    }

    // The innermost block ends: it leaves its result alone.
    fn end(&mut self, block: Block, outer: Height) -> Result<(), ValidRefusal>
        requires { outer.below ≤ self.old.operands.height.below }
        ensures step { (token : ℕ) → RanTo result (end_ran token block.end_place block.result (shown self.old.operands)) nothing }
        ensures kept { OnOk result (Ended outer self.old self.new) }
    {
        at_place(self.operands.close(block.result), block.end_place)?;
        let _ = self.labels.pop();
        self.operands.leave(outer);
        Ok(())
    }

    // The code of a block and its end. No operand is left.
    #[cycle(check)]
    fn block(
        &mut self,
        around: &Surroundings,
        block: Block,
        code: &Code,
    ) -> Result<(), ValidRefusal>
        ensures step { RanTo result (run_block (seen around.now) (labels_of self.old) block.label block.result block.end_place code.now) nothing }
        ensures kept { OnOk result (Untouched self.old self.new) }
    {
        let outer = self.enter(block.label)?;
        self.code(around, code)?;
        self.end(block, outer)
    }

    #[cycle(check)]
    fn code(&mut self, around: &Surroundings, code: &Code) -> Result<(), ValidRefusal>
        ensures step { RanTo result (run (seen around.now) (labels_of self.old) code.now (shown self.old.operands)) (shown self.new.operands) }
        ensures kept { OnOk result (Stays self.old self.new) }
    {
        for instr in code.as_slice() {
            self.instr(around, instr)?;
        }
        Ok(())
    }

    #[cycle(check)]
    fn instr(&mut self, around: &Surroundings, instr: &Instr) -> Result<(), ValidRefusal>
        ensures step { RanTo result (run_kind (seen around.now) (labels_of self.old) instr.now.place (kind_tree instr.now.kind) (shown self.old.operands)) (shown self.new.operands) }
        ensures kept { OnOk result (Stays self.old self.new) }
    {
        match &instr.kind {
            Kind::Block {
                result: outcome,
                code,
                end_place,
            } => self.nested(around, Block::new(*outcome, *end_place), code),
            Kind::Loop {
                result: outcome,
                code,
                end_place,
            } => self.nested(
                around,
                Block {
                    label: None,
                    result: *outcome,
                    end_place: *end_place,
                },
                code,
            ),
            Kind::If {
                result: outcome,
                code,
                otherwise,
                end_place,
            } => self.branches(around, instr.place, *outcome, code, otherwise, *end_place),
            kind => at_place(
                around.plain(self.labels.as_slice(), kind, &mut self.operands),
                instr.place,
            ),
        }
    }

    // A block inside code.
    #[cycle(check)]
    fn nested(
        &mut self,
        around: &Surroundings,
        block: Block,
        code: &Code,
    ) -> Result<(), ValidRefusal>
        ensures step { RanTo result (run_nested (seen around.now) (labels_of self.old) block.label block.result block.end_place code.now (shown self.old.operands)) (shown self.new.operands) }
        ensures kept { OnOk result (Stays self.old self.new) }
    {
        self.block(around, block, code)?;
        at_place(self.operands.push_value(block.result), block.end_place)
    }

    // An `if`: its condition, and both branches. Without the second there is no result.
    #[cycle(check)]
    fn branches(
        &mut self,
        around: &Surroundings,
        place: u32,
        outcome: Option<ValType>,
        code: &Code,
        otherwise: &Option<ElsePart>,
        end_place: u32,
    ) -> Result<(), ValidRefusal>
        ensures step { RanTo result (run_kind (seen around.now) (labels_of self.old) place (If outcome code.now (otherwise_tree otherwise.now) end_place) (shown self.old.operands)) (shown self.new.operands) }
        ensures kept { OnOk result (Stays self.old self.new) }
    {
        at_place(self.operands.pop_type(ValType::I32), place)?;
        match otherwise {
            None => {
                self.block(around, Block::new(outcome, end_place), code)?;
                match outcome {
                    None => Ok(()),
                    Some(_) => Err(ValidRefusal::Invalid(end_place, ValidCause::TypeMismatch)),
                }
            }
            Some(other) => {
                self.block(around, Block::new(outcome, other.place), code)?;
                self.nested(around, Block::new(outcome, end_place), &other.code)
            }
        }
    }
}
