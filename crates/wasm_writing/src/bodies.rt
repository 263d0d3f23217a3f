// Functions' bodies with their locals (WebAssembly Core 1.0, 5.5.13).
ghost use Rattle.std.specs.Prelude.{◌≡◌, ◌+◌, ◌≤◌, IfSome, IfNone};
ghost use Rattle.wasm_spelling.specs.Fields.{finished, window};
ghost use Rattle.wasm_spelling.specs.ModuleFields.{runs as runs_fields, locals_of, bodies as bodies_fields};
ghost use Rattle.wasm_writing.specs.Drafts.{Puts, HasStopped};
ghost use Rattle.wasm_writing.specs.Bodies.{body_content as body_content_fields};

use crate::code::instructions;
use crate::draft::Draft;
use crate::vectors::{Entry, count};
use w2c_base::{ALL_LOCALS, BLOCK_DEPTH, LOCALS};
use wasm_tree::{BodyEntry, Run};

/// Puts the runs of a body's locals, where so many stand in bodies before it. Gives the locals so far, or
/// None where they are too many.
fn locals(runs: &[Run], before: u32, draft: &mut Draft) -> Option<u32>
    requires { before ≤ 1000000 }
    ensures puts { Puts (runs_fields 0 before runs.now) draft.old draft.new }
    ensures sum { IfSome result (λ all. all ≡ before + locals_of runs.now) }
    ensures most { IfSome result (λ all. all ≤ 1000000) }
    ensures none { IfNone result (HasStopped draft.new) }
{
    let mut locals = 0;
    for run in runs {
        draft.number(run.count);
        if run.count > LOCALS - locals || run.count > ALL_LOCALS - (before + locals) {
            draft.refuse();
            return None;
        }
        run.ty.put(draft);
        locals += run.count;
    }
    Some(before + locals)
}

/// Puts what a body's size counts.
fn body_content(body: &BodyEntry, before: u32, draft: &mut Draft) -> Option<u32>
    requires { before ≤ 1000000 }
    ensures puts { Puts (body_content_fields before body.now) draft.old draft.new }
    ensures sum { IfSome result (λ all. all ≡ before + locals_of body.now.runs) }
    ensures most { IfSome result (λ all. all ≤ 1000000) }
    ensures none { IfNone result (HasStopped draft.new) }
{
    count(body.runs.len(), draft);
    let all_locals = locals(body.runs.as_slice(), before, draft)?;
    instructions(&body.code, BLOCK_DEPTH, draft);
    draft.byte(0x0b);
    Some(all_locals)
}

/// Puts a body with its size.
fn body(body: &BodyEntry, before: u32, draft: &mut Draft) -> Option<u32>
    requires { before ≤ 1000000 }
    ensures puts { Puts (window (body_content_fields before body.now finished)) draft.old draft.new }
    ensures sum { IfSome result (λ all. all ≡ before + locals_of body.now.runs) }
    ensures most { IfSome result (λ all. all ≤ 1000000) }
    ensures none { IfNone result (HasStopped draft.new) }
{
    let mut counted = Draft::Counted(0);
    let _ = body_content(body, before, &mut counted);
    draft.size(&counted);
    body_content(body, before, draft)
}

/// Puts the bodies of a module.
pub fn bodies(bodies: &[BodyEntry], draft: &mut Draft)
    ensures { Puts (bodies_fields 0 bodies.now) draft.old draft.new }
{
    let mut all_locals = 0;
    for entry in bodies {
        match body(entry, all_locals, draft) {
            Some(so_far) => all_locals = so_far,
            None => return,
        }
    }
}
