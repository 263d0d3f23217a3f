// The checker of an instruction that holds no code (WebAssembly Core 1.0, 3.3).
ghost use Rattle.std.specs.Prelude.{◌≡◌, ◌-◌, ◌++◌, List, [], ◌∷◌, Option, reverse, slice_get, Ok, OnOk};
ghost use Rattle.w2c_base.specs.Values.{equal_results};
ghost use Rattle.w2c_base.specs.declared.value.ValType.TheVariants as ty;
ghost use Rattle.wasm_tree.specs.Instructions as tree;
ghost use Rattle.wasm_tree.specs.Views.{kind_tree};
ghost use Rattle.wasm_typing.specs.declared.fault.ValidCause.TheVariants as cause;
ghost use Rattle.wasm_typing.specs.Typing.{values};
ghost use Rattle.wasm_typing.specs.Context.{Context};
ghost use Rattle.body_check.specs.Checker.{jump, turn};
ghost use Rattle.body_check.specs.Shown.{shown, Keeps, Steps};
ghost use Rattle.body_check.specs.Needs.{row_step, row_cause};
ghost use Rattle.body_check.specs.Plain.{Plain, Finds, Does};
ghost use Rattle.body_check.specs.PlainParts.{Meets, Agrees, HasMemoryOr};
ghost use Rattle.body_check.specs.RanTo.{seen};

use crate::context::Spaces;
use crate::numeric::{Needs, fixed_type, is_aligned};
use crate::operands::OperandStack;
use crate::stop::Stop;
use w2c_base::ValType;
use wasm_tree::Kind;
use wasm_typing::ValidCause;

/// What stands around a body: the index spaces of the module, the locals and the result.
#[derive(Clone, Copy)]
pub(crate) struct Surroundings<'a> {
    pub(crate) spaces: &'a Spaces<'a>,
    pub(crate) locals: &'a [ValType],
    pub(crate) result: Option<ValType>,
}

// What a label carries. The innermost is the last of the list.
fn carried_by(labels: &[Option<ValType>], label: u32) -> Result<Option<ValType>, Stop>
    ensures { Finds result (slice_get (reverse labels.now) label) cause.UnknownLabel }
{
    let label = label as usize;
    if label < labels.len() {
        Ok(labels[labels.len() - 1 - label])
    } else {
        Err(Stop::Cause(ValidCause::UnknownLabel))
    }
}

fn carry_the_same(left: Option<ValType>, right: Option<ValType>) -> bool
    ensures { result ≡ equal_results left right }
{
    match (left, right) {
        (None, None) => true,
        (Some(left), Some(right)) => left == right,
        (None, Some(_)) | (Some(_), None) => false,
    }
}

// Whether all these labels carry this.
fn all_carry(
    labels: &[Option<ValType>],
    others: &[u32],
    carried: Option<ValType>,
) -> Result<bool, Stop>
    ensures { Agrees result (reverse labels.now) others.now carried }
{
    let mut same = true;
    for other in others {
        let other = carried_by(labels, *other)?;
        same &= carry_the_same(other, carried);
    }
    Ok(same)
}

// Takes what is carried, and does not go on.
fn jump(carried: Option<ValType>, operands: &mut OperandStack) -> Result<(), Stop>
    ensures step { Steps result (jump (values carried) (shown operands.old)) (shown operands.new) }
    ensures kept { OnOk result (Keeps operands.old operands.new) }
{
    operands.pop_value(carried)?;
    operands.die();
    Ok(())
}

// Takes an index or a condition, then operands of these types, and puts the result.
fn turn_by_index(
    params: &[ValType],
    outcome: Option<ValType>,
    operands: &mut OperandStack,
) -> Result<(), Stop>
    ensures step { Steps result (turn (params.now ++ ty.I32 ∷ []) (values outcome) (shown operands.old)) (shown operands.new) }
    ensures kept { OnOk result (Keeps operands.old operands.new) }
{
    operands.pop_type(ValType::I32)?;
    operands.turn(params, outcome)
}

fn br(labels: &[Option<ValType>], label: u32, operands: &mut OperandStack) -> Result<(), Stop>
    ensures step { (c : Context) → Does c labels.now (tree.Br label) result operands.old operands.new }
    ensures kept { OnOk result (Keeps operands.old operands.new) }
{
    let carried = carried_by(labels, label)?;
    jump(carried, operands)
}

fn br_if(labels: &[Option<ValType>], label: u32, operands: &mut OperandStack) -> Result<(), Stop>
    ensures step { (c : Context) → Does c labels.now (tree.BrIf label) result operands.old operands.new }
    ensures kept { OnOk result (Keeps operands.old operands.new) }
{
    let carried = carried_by(labels, label)?;
    turn_by_index(carried.as_slice(), carried, operands)
}

// All labels carry the same.
fn br_table(
    labels: &[Option<ValType>],
    others: &[u32],
    label: u32,
    operands: &mut OperandStack,
) -> Result<(), Stop>
    ensures step { (c : Context) → Does c labels.now (tree.BrTable others.now label) result operands.old operands.new }
    ensures kept { OnOk result (Keeps operands.old operands.new) }
{
    let carried = carried_by(labels, label)?;
    if all_carry(labels, others, carried)? {
        operands.pop_type(ValType::I32)?;
        jump(carried, operands)
    } else {
        Err(Stop::MISMATCH)
    }
}

impl<'a> Surroundings<'a> {
    /// An instruction that holds no code, under these labels, the innermost last.
    pub(crate) fn plain(
        &self,
        labels: &[Option<ValType>],
        kind: &Kind,
        operands: &mut OperandStack,
    ) -> Result<(), Stop>
        ensures step { Does (seen self.now) labels.now (kind_tree kind.now) result operands.old operands.new }
        ensures kept { OnOk result (Keeps operands.old operands.new) }
    {
        match kind {
            Kind::Unreachable => {
                operands.die();
                Ok(())
            }
            Kind::Br(label) => br(labels, *label, operands),
            Kind::BrIf(label) => br_if(labels, *label, operands),
            Kind::BrTable(others, label) => br_table(labels, others.as_slice(), *label, operands),
            Kind::Return => jump(self.result, operands),
            Kind::Call(index) => self.call(*index, operands),
            Kind::CallIndirect(type_index) => self.call_indirect(*type_index, operands),
            Kind::Drop => {
                operands.pop()?;
                Ok(())
            }
            Kind::Select => operands.select(),
            Kind::LocalGet(index) => self.local_get(*index, operands),
            Kind::LocalSet(index) => self.local_set(*index, operands),
            Kind::LocalTee(index) => self.local_tee(*index, operands),
            Kind::GlobalGet(index) => self.global_get(*index, operands),
            Kind::GlobalSet(index) => self.global_set(*index, operands),
            kind => self.fixed(kind, operands),
        }
    }

    // An instruction that has the same type everywhere.
    fn fixed(&self, kind: &Kind, operands: &mut OperandStack) -> Result<(), Stop>
        ensures step { Plain result (row_step (seen self.now) (kind_tree kind.now) (shown operands.old)) (row_cause (seen self.now) (kind_tree kind.now)) (shown operands.new) }
        ensures kept { OnOk result (Keeps operands.old operands.new) }
    {
        match fixed_type(kind) {
            None => Err(Stop::MISMATCH),
            Some(ty) => {
                self.meet(ty.needs)?;
                operands.turn(ty.operands, ty.result)
            }
        }
    }

    // A memory instruction needs a memory, and an access an alignment that is not larger than itself.
    #[tactic(auto, using(crate::proofs::Needs::aligned_met, crate::proofs::Needs::misaligned_unmet))]
    fn meet(&self, needs: Needs) -> Result<(), Stop>
        ensures { Meets result (seen self.now) needs }
    {
        match needs {
            Needs::Nothing => Ok(()),
            Needs::Memory => self.memory(),
            Needs::Access(align, width) => {
                self.memory()?;
                if is_aligned(align, width) {
                    Ok(())
                } else {
                    Err(Stop::Cause(ValidCause::Alignment))
                }
            }
        }
    }

    fn memory(&self) -> Result<(), Stop>
        ensures { HasMemoryOr result (seen self.now) }
    {
        if self.spaces.memories.is_empty() {
            Err(Stop::Cause(ValidCause::UnknownMemory))
        } else {
            Ok(())
        }
    }

    fn call(&self, index: u32, operands: &mut OperandStack) -> Result<(), Stop>
        ensures step { (labels : List (Option ValType)) → Does (seen self.now) labels (tree.Call index) result operands.old operands.new }
        ensures kept { OnOk result (Keeps operands.old operands.new) }
    {
        match self.spaces.type_index(index) {
            Some(type_index) => match self.spaces.func_type(type_index) {
                Some(ty) => operands.turn(ty.params.as_slice(), ty.result),
                None => Err(Stop::Cause(ValidCause::UnknownType)),
            },
            None => Err(Stop::Cause(ValidCause::UnknownFunction)),
        }
    }

    fn call_indirect(&self, type_index: u32, operands: &mut OperandStack) -> Result<(), Stop>
        ensures step { (labels : List (Option ValType)) → Does (seen self.now) labels (tree.CallIndirect type_index) result operands.old operands.new }
        ensures kept { OnOk result (Keeps operands.old operands.new) }
    {
        match self.spaces.func_type(type_index) {
            Some(ty) => {
                if self.spaces.tables.is_empty() {
                    Err(Stop::Cause(ValidCause::UnknownTable))
                } else {
                    turn_by_index(ty.params.as_slice(), ty.result, operands)
                }
            }
            None => Err(Stop::Cause(ValidCause::UnknownType)),
        }
    }

    fn local(&self, index: u32) -> Result<ValType, Stop>
        ensures { Finds result (slice_get self.now.locals.now index) cause.UnknownLocal }
    {
        match self.locals.get(index as usize) {
            Some(ty) => Ok(*ty),
            None => Err(Stop::Cause(ValidCause::UnknownLocal)),
        }
    }

    fn local_get(&self, index: u32, operands: &mut OperandStack) -> Result<(), Stop>
        ensures step { (labels : List (Option ValType)) → Does (seen self.now) labels (tree.LocalGet index) result operands.old operands.new }
        ensures kept { OnOk result (Keeps operands.old operands.new) }
    {
        let ty = self.local(index)?;
        operands.push_value(Some(ty))
    }

    fn local_set(&self, index: u32, operands: &mut OperandStack) -> Result<(), Stop>
        ensures step { (labels : List (Option ValType)) → Does (seen self.now) labels (tree.LocalSet index) result operands.old operands.new }
        ensures kept { OnOk result (Keeps operands.old operands.new) }
    {
        let ty = self.local(index)?;
        operands.pop_type(ty)
    }

    fn local_tee(&self, index: u32, operands: &mut OperandStack) -> Result<(), Stop>
        ensures step { (labels : List (Option ValType)) → Does (seen self.now) labels (tree.LocalTee index) result operands.old operands.new }
        ensures kept { OnOk result (Keeps operands.old operands.new) }
    {
        let ty = self.local(index)?;
        operands.turn(&[ty], Some(ty))
    }

    fn global_get(&self, index: u32, operands: &mut OperandStack) -> Result<(), Stop>
        ensures step { (labels : List (Option ValType)) → Does (seen self.now) labels (tree.GlobalGet index) result operands.old operands.new }
        ensures kept { OnOk result (Keeps operands.old operands.new) }
    {
        match self.spaces.global(index) {
            Some((ty, _)) => operands.push_value(Some(ty)),
            None => Err(Stop::Cause(ValidCause::UnknownGlobal)),
        }
    }

    fn global_set(&self, index: u32, operands: &mut OperandStack) -> Result<(), Stop>
        ensures step { (labels : List (Option ValType)) → Does (seen self.now) labels (tree.GlobalSet index) result operands.old operands.new }
        ensures kept { OnOk result (Keeps operands.old operands.new) }
    {
        match self.spaces.global(index) {
            Some((ty, true)) => operands.pop_type(ty),
            Some((_, false)) => Err(Stop::Cause(ValidCause::ImmutableGlobal)),
            None => Err(Stop::Cause(ValidCause::UnknownGlobal)),
        }
    }
}
