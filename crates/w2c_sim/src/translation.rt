// From the bytes of a file to the texts of its module's unit and header.
ghost use Rattle.std.specs.Prelude.{◌≡◌, ◌≢◌, ◌≤◌, length, Err, IfOk, IfErr, IsOk};
ghost use Rattle.wasm_tree.specs.declared.tree.Module.{Module as Tree};
ghost use Rattle.wasm_typing.specs.Verdict.{Accepted};
ghost use Rattle.wasm_valid.specs.FileVerdict.{Read, IsVerdictOn};
ghost use Rattle.w2c_sim.specs.declared.refusal.Refusal.{Refusal as AnyRefusal};
ghost use Rattle.w2c_sim.specs.declared.refusal.Refusal.TheVariants.{Memory as memory_wanted};
ghost use Rattle.w2c_sim.specs.Refusals.{IsRefusal, IsRefused};
ghost use Rattle.c_tree.specs.Spelled.{Formed};
ghost use Rattle.c_tree.specs.View.{unit_of};
ghost use Rattle.c_print.specs.Print.{print_of};
ghost use Rattle.c_print.specs.Header.{header_text};
ghost use Rattle.unit_definition.specs.Accepted.{IsAccepted};
ghost use Rattle.w2c_sim.specs.Translation.{AreTextsOf, IsTranslation};

use crate::file_verdict::accept;
use crate::refusal::Refusal;
use c_print::{print_header, print_unit};
use c_tree::{Header, Unit};
use c_unit::unit;
use std::alloc::Global;
use unit_rules::units_are_proper;
use w2c_base::{Bytes, Memory};
use wasm_typing::ValidModule;

/// The text of a unit, and that of the header beside it.
#[derive(Drop)]
pub struct Texts {
    pub unit: Bytes,
    pub header: Bytes,
}

/// The texts of the module that bytes spell, under a name. They depend on bytes and name alone
/// (`texts_spell_units`), and units that are made so do together what their modules do
/// (`linked_units_do_what_modules_do`).
///
/// # Errors
///
/// The verdict on the bytes where they spell no valid module within the limits: the first reading fault, or
/// the first fault of the typing rules. `Memory` where memory was wanting, which may come in any case.
pub fn translate(alloc: Global, bytes: &[u8], name: &[u8]) -> Result<Texts, Refusal>
    requires bytes { length bytes.now ≤ 8388608 }
    requires named { 1 ≤ length name.now }
    requires short { length name.now ≤ 1024 }
    // What is translated is accepted, and the texts are those of its module.
    ensures texts { IfOk result (IsTranslation bytes.now name.now) }
    // What is accepted is translated.
    ensures accepted { (tree : Tree) → IsVerdictOn bytes.now (Read tree Accepted) → result ≢ Err memory_wanted → IsOk result }
    // A refusal is the verdict on the bytes.
    ensures refused { IfErr result (IsRefusal bytes.now) }
    // The verdict is given.
    ensures given { (refusal : AnyRefusal) → IsRefused bytes.now refusal → result ≢ Err memory_wanted → result ≡ Err refusal }
{
    translation(alloc, bytes, name)
}

fn translation(alloc: Global, bytes: &[u8], name: &[u8]) -> Result<Texts, Refusal>
    requires bytes { length bytes.now ≤ 8388608 }
    requires named { 1 ≤ length name.now }
    requires short { length name.now ≤ 1024 }
    ensures texts { IfOk result (IsTranslation bytes.now name.now) }
    ensures refused { IfErr result (IsRefusal bytes.now) }
{
    let module = accept(alloc, bytes)?;
    let printed = print_texts(alloc, &module, name);
    drop(module);
    let texts = printed?;
    Ok(texts)
}

fn print_texts(alloc: Global, m: &ValidModule, name: &[u8]) -> Result<Texts, Memory>
    requires { IsAccepted (record { name = name.now; tree = m.now }) }
    ensures { IfOk result (AreTextsOf m.now name.now) }
{
    units_are_proper();
    let (unit, header) = unit(alloc, m, name)?;
    print_both(alloc, &unit, &header)
}

fn print_both(alloc: Global, unit: &Unit, header: &Header) -> Result<Texts, Memory>
    requires { Formed (unit_of unit.now) }
    ensures unit { IfOk result (λ texts. texts.unit ≡ print_of (unit_of unit.now)) }
    ensures header { IfOk result (λ texts. texts.header ≡ header_text header.now) }
{
    Ok(Texts {
        unit: print_unit(alloc, unit)?,
        header: print_header(alloc, header)?,
    })
}
