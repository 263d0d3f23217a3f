// A module's file (WebAssembly Core 1.0, 5.5.15).
ghost use Rattle.std.specs.Prelude.{◌≡◌, ◌≤◌, ◌↔◌, List, ℕ, IsTrue, IfOk, length};
ghost use Rattle.wasm_writing.specs.Drafts.{Puts};
ghost use Rattle.wasm_spelling.specs.Places.{IsFormed, SpellsAside};
ghost use Rattle.wasm_spelling.specs.ModuleFields.{magic as magic_fields, version as version_fields};
ghost use Rattle.wasm_writing.specs.ShortFile.{short_fields, IsShortFile};

use crate::draft::Draft;
use crate::sections::{PARTS, sections};
use std::alloc::Global;
use w2c_base::{Bytes, Memory};
use wasm_tree::Module;

fn magic(draft: &mut Draft)
    ensures { Puts magic_fields draft.old draft.new }
{
    draft.byte(0x00);
    draft.byte(0x61);
    draft.byte(0x73);
    draft.byte(0x6d);
}

fn version(draft: &mut Draft)
    ensures { Puts version_fields draft.old draft.new }
{
    draft.byte(0x01);
    draft.byte(0x00);
    draft.byte(0x00);
    draft.byte(0x00);
}

/// Puts the shortest file.
fn put(m: &Module, draft: &mut Draft)
    ensures { Puts (short_fields m.now) draft.old draft.new }
{
    magic(draft);
    version(draft);
    draft.check(m.funcs.len() == m.bodies.len());
    sections(&PARTS, m, draft);
}

/// What may have a file.
pub trait Formed {
    /// Some file spells it, places aside.
    ghost HasFile: { Self → Type 0 };

    /// Some file of at most 8,388,608 bytes spells it, places aside. It takes no memory.
    fn formed(&self) -> bool
        ensures { IsTrue result ↔ HasFile self.now };
}

impl Formed for Module {
    ghost HasFile = { IsFormed };

    fn formed(&self) -> bool {
        let mut draft = Draft::Counted(0);
        put(self, &mut draft);
        matches!(draft, Draft::Counted(_))
    }
}

/// The shortest file that spells the module, places aside: every number in its shortest spelling, sections
/// without entries left out, the data count section where the module has a data count, no custom sections.
///
/// # Errors
///
/// Where memory is wanting.
pub fn write_module(alloc: Global, m: &Module) -> Result<Bytes, Memory>
    requires { IsFormed m.now }
    ensures spells { IfOk result (SpellsAside m.now) }
    ensures short { IfOk result (IsShortFile m.now) }
    // No file of the module is shorter.
    ensures least { IfOk result (λ file. (other : List ℕ) → SpellsAside m.now other → length file ≤ length other) }
{
    let mut draft = Draft::Written(Bytes::new(alloc));
    put(m, &mut draft);
    match draft {
        Draft::Written(bytes) => Ok(bytes),
        Draft::Counted(_) | Draft::Stopped(_) => Err(Memory),
    }
}
