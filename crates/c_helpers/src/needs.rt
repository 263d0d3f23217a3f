// The helpers that the bodies of a module call.
ghost use Rattle.std.specs.Prelude.{◌≡◌, ◌++◌, ◌||◌, ◌∷◌, [], filter, IfOk, OnOk};
ghost use Rattle.wasm_tree.specs.Views.{kind_tree, otherwise_tree};
ghost use Rattle.c_helpers.specs.Called.{HasMore, KnowsCalls, marked};
ghost use Rattle.c_helpers.specs.Helpers.{helper_of};
ghost use Rattle.c_helpers.specs.Translated as translated;
ghost use Rattle.c_helpers.specs.Needed.{calls_helper, helpers_of, named_by};
ghost use Rattle.c_helpers.specs.Ways as ways;
ghost use Rattle.c_helpers.specs.Translated.{ends as ends_it};
ghost use Rattle.c_helpers.specs.Steps as steps;

use crate::marks::Marks;
use crate::operation::{HELPERS, Helper, NumOp};
use crate::steps::{Step, Way, step_of};
use std::alloc::Global;
use w2c_base::Memory;
use wasm_tree::{Code, ElsePart, Kind, Module};

fn by_way(way: Way) -> Option<Helper>
    ensures { result ≡ ways.helper_of_way way }
{
    match way {
        Way::ByOperator(_) | Way::ByShift(_) => None,
        Way::ByHelper(which) => Some(Helper::Num(which)),
    }
}

fn by_step(step: Step) -> Option<Helper>
    ensures { result ≡ steps.step_helper step }
{
    match step {
        Step::Compare(_, way) | Step::Binary(_, way) => by_way(way),
        Step::Unary(_, which) => Some(Helper::Num(which)),
        Step::ExtendS => Some(Helper::Num(NumOp::I64ExtendI32S)),
        Step::Load(which, _, _) => Some(Helper::Load(which)),
        Step::Store(which, _, _) => Some(Helper::Store(which)),
        Step::Size => Some(Helper::Size),
        Step::Copy => Some(Helper::Copy),
        Step::Fill => Some(Helper::Fill),
        Step::Const32(_)
        | Step::Const64(_)
        | Step::Eqz(_)
        | Step::Wrap
        | Step::ExtendU
        | Step::Grow => None,
    }
}

fn by_element(kind: &Kind) -> Option<Helper>
    ensures { result ≡ steps.element_for (kind_tree kind.now) }
{
    match kind {
        Kind::CallIndirect(_) => Some(Helper::Element),
        _ => None,
    }
}

// The helper that an instruction calls.
#[tactic(auto, using(crate::proofs::CalledHelpers::of_step, crate::proofs::CalledHelpers::of_element))]
fn helper_for(kind: &Kind) -> Option<Helper>
    ensures { result ≡ ways.helper_for (kind_tree kind.now) }
{
    match step_of(kind) {
        Some(step) => by_step(step),
        None => by_element(kind),
    }
}

fn ends(kind: &Kind) -> bool
    ensures { result ≡ ends_it (kind_tree kind.now) }
{
    match kind {
        Kind::Unreachable | Kind::Br(_) | Kind::BrTable(_, _) | Kind::Return => true,
        _ => false,
    }
}

#[tactic(auto, using(crate::proofs::CalledHelpers::nothing_more))]
fn enter(marks: &mut Marks, which: Option<Helper>)
    ensures { HasMore marks.new marks.old (λ q. named_by (helper_of q).name which) }
{
    match which {
        None => {}
        Some(which) => marks.mark(which),
    }
}

// The helpers of code that is translated.
#[cycle(needs)]
fn enter_code(marks: &mut Marks, code: &Code)
    ensures { HasMore marks.new marks.old (λ q. translated.any_in (calls_helper q) code.now) }
{
    for instr in code.as_slice() {
        enter(marks, helper_for(&instr.kind));
        enter_inside(marks, &instr.kind);
        if ends(&instr.kind) {
            return;
        }
    }
}

#[cycle(needs)]
fn enter_inside(marks: &mut Marks, kind: &Kind)
    ensures { HasMore marks.new marks.old (λ q. translated.any_inside (calls_helper q) (kind_tree kind.now)) }
{
    match kind {
        Kind::Block { code, .. } => enter_code(marks, code),
        Kind::Loop { code, .. } => enter_code(marks, code),
        Kind::If {
            code,
            otherwise,
            ..
        } => enter_branches(marks, code, otherwise),
        _ => {}
    }
}

#[cycle(needs)]
fn enter_branches(marks: &mut Marks, code: &Code, otherwise: &Option<ElsePart>)
    ensures { HasMore marks.new marks.old
        (λ q. translated.any_in (calls_helper q) code.now || translated.any_in_else (calls_helper q) (otherwise_tree otherwise.now)) }
{
    enter_code(marks, code);
    enter_else(marks, otherwise)
}

#[cycle(needs)]
fn enter_else(marks: &mut Marks, otherwise: &Option<ElsePart>)
    ensures { HasMore marks.new marks.old (λ q. translated.any_in_else (calls_helper q) (otherwise_tree otherwise.now)) }
{
    match otherwise {
        None => {}
        Some(other) => enter_code(marks, &other.code),
    }
}

// The helpers that the bodies call.
fn called(m: &Module) -> Marks
    ensures { KnowsCalls result m.now }
{
    let mut marks = Marks::none();
    for body in m.bodies.as_slice() {
        enter_code(&mut marks, &body.code);
    }
    marks
}

fn put_if(list: &mut Vec<Helper>, called: bool, which: Helper) -> Result<(), Memory>
    ensures { OnOk result (list.new.items ≡ list.old.items ++ filter (λ (w : Helper). called) (which ∷ [])) }
{
    if called {
        list.push(which)?;
    }
    Ok(())
}

// Of some helpers those that are marked.
fn known(alloc: Global, marks: &Marks, all: &[Helper]) -> Result<Vec<Helper>, Memory>
    ensures { IfOk result (λ list. list.items ≡ filter (marked marks.now) all.now) }
{
    let mut list: Vec<Helper> = Vec::new(alloc);
    for which in all {
        put_if(&mut list, marks.has(*which), *which)?;
    }
    Ok(list)
}

/// The helpers that the bodies of a module call, in the order of the list of all.
#[tactic(auto, using(crate::proofs::CalledHelpers::known_helpers))]
pub fn helpers(alloc: Global, m: &Module) -> Result<Vec<Helper>, Memory>
    ensures { IfOk result (λ list. list.items ≡ helpers_of m.now) }
{
    let marks = called(m);
    let list = known(alloc, &marks, &HELPERS)?;
    Ok(list)
}
