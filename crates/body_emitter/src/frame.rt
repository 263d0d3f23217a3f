// What stands in front of a body's code, and behind it.
ghost use Rattle.std.specs.Prelude.{◌≡◌, [], ◌∷◌, OnOk, IfOk};
ghost use Rattle.w2c_base.specs.declared.trap.TrapKind.TheVariants as kind;
ghost use Rattle.c_tree.specs.Tree as tree;
ghost use Rattle.c_tree.specs.View.{expr_of, stmt_of};
ghost use Rattle.c_tree.specs.Makers as makers;
ghost use Rattle.c_tree.specs.Runtime.{depth_name};
ghost use Rattle.body_forms.specs.Frame as frame;
ghost use Rattle.body_emitter.specs.Begun as begun;
ghost use Rattle.packed_stmts.specs.Listed.{left};
ghost use Rattle.body_emitter.specs.Made as made;
ghost use Rattle.packed_stmts.specs.Gaps as left_out;
ghost use Rattle.body_emitter.specs.MadeBy.{made_by};

use crate::emitter::Emitter;
use crate::stack::Operands;
use crate::target::{OpenBlock, Target};
use body_forms::operand;
use c_tree::{Arg, COp, DEPTH_NAME, Expr, Stmt, label_name, n32, name_of, operation, set, trap};
use packed_stmts::{Parts, Statements};
use std::alloc::Global;
use w2c_base::{Memory, TrapKind, ValType};

fn give_back(alloc: Global, outcome: Option<ValType>) -> Result<Stmt, Memory>
    ensures { IfOk result (λ s. stmt_of s ≡ frame.give_back outcome) }
{
    match outcome {
        None => Ok(Stmt::ReturnNone),
        Some(ty) => Ok(Stmt::Return(Arg::Value(operand(alloc, ty, 0)?))),
    }
}

fn depth(alloc: Global) -> Result<Expr, Memory>
    ensures { IfOk result (λ e. expr_of e ≡ tree.Name depth_name) }
{
    Ok(Expr::Name(name_of(alloc, DEPTH_NAME)?))
}

fn change_depth(alloc: Global, op: COp) -> Result<Stmt, Memory>
    ensures { IfOk result (λ s. stmt_of s ≡ frame.change_depth op) }
{
    let name = name_of(alloc, DEPTH_NAME)?;
    let changed = operation(alloc, op, depth(alloc)?, n32(1))?;
    Ok(set(name, changed))
}

fn depth_test(alloc: Global) -> Result<Stmt, Memory>
    ensures { IfOk result (λ s. stmt_of s ≡ frame.depth_test) }
{
    let entry = label_name(alloc, 0)?;
    let depth = depth(alloc)?;
    Ok(Stmt::If(COp::Lt, depth, n32(1024), entry))
}

impl Emitter {
    /// Nothing is made yet.
    pub fn empty(alloc: Global) -> Emitter
        ensures { made_by result ≡ begun.nothing_made }
    {
        Emitter {
            alloc,
            operands: Operands::new(alloc),
            blocks: Vec::new(alloc),
            stmts: Statements::new(alloc),
            labels: 2,
            is_dead: false,
            returns: false,
            is_indirect: false,
        }
    }

    // The result's slot occurs, and the function's exit can be branched to.
    fn put_exit(&mut self, outcome: Option<ValType>) -> Result<(), Memory>
        requires { made_by self.old ≡ begun.nothing_made }
        ensures { OnOk result (made_by self.new ≡ begun.with_exit outcome) }
    {
        if let Some(ty) = outcome {
            self.operands.mark_next(ty)?;
        }
        self.blocks.push(OpenBlock {
            target: Target {
                label: 1,
                height: 0,
                value: outcome,
            },
            named: false,
        })?;
        Ok(())
    }

    // The test whether the calls are too deep, and what is done then.
    fn put_depth_test(&mut self, outcome: Option<ValType>) -> Result<(), Memory>
        ensures { OnOk result (made_by self.new ≡
            made.put_each (frame.depth_test ∷ makers.trap kind.Exhaustion ∷ frame.give_back outcome ∷ []) (made_by self.old)) }
    {
        let alloc = self.alloc;
        self.put(depth_test(alloc)?)?;
        self.put(trap(alloc, TrapKind::Exhaustion)?)?;
        self.put(give_back(alloc, outcome)?)
    }

    fn put_head(&mut self, outcome: Option<ValType>) -> Result<(), Memory>
        ensures { OnOk result (made_by self.new ≡ made.put_each (frame.head outcome) (made_by self.old)) }
    {
        self.put_depth_test(outcome)?;
        self.put_label(0)?;
        self.put(change_depth(self.alloc, COp::Add)?)
    }

    /// What stands in front of the code.
    pub fn begin(&mut self, outcome: Option<ValType>) -> Result<(), Memory>
        requires { made_by self.old ≡ begun.nothing_made }
        ensures { OnOk result (made_by self.new ≡ begun.begun outcome) }
    {
        self.put_exit(outcome)?;
        self.put_head(outcome)
    }

    #[tactic(auto, using(crate::proofs::Stacks::last_is_first))]
    fn is_exit_named(&self) -> bool
        ensures { result ≡ made.is_named (made_by self.now).blocks }
    {
        match self.blocks.last() {
            Some(block) => block.named,
            None => false,
        }
    }

    /// What stands behind it.
    pub fn finish(&mut self, outcome: Option<ValType>) -> Result<(), Memory>
        ensures { OnOk result (made_by self.new ≡ begun.behind_code outcome (made_by self.old)) }
    {
        let alloc = self.alloc;
        let named = self.is_exit_named() || self.returns;
        self.put_label_if(named, 1)?;
        self.put(change_depth(alloc, COp::Sub)?)?;
        self.put(give_back(alloc, outcome)?)
    }
}

/// The statements that were made, without those that were left out, in parts. A part takes little memory beside what is packed of all.
pub fn parts(emitter: Emitter) -> Parts
    ensures { left result ≡ left_out.written (made_by emitter).stmts }
{
    let Emitter { stmts, .. } = emitter;
    stmts.into_parts()
}
