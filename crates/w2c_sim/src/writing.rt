// The texts of a module's unit and header, written into the current file.
ghost use Rattle.std.specs.Prelude.{◌≡◌, ◌≤◌, length, IsSome, IfOk, IfErr, OnOk, OnErr};
ghost use Rattle.w2c_io.specs.Contents.{appending, AppendsPart};
ghost use Rattle.w2c_io.specs.Causes.{WriteCause, name_after_write};
ghost use Rattle.w2c_io.specs.Passed.{Passes, PutsText, PutsPart};
ghost use Rattle.c_tree.specs.Spelled.{Formed};
ghost use Rattle.c_print.specs.Print.{print_of};
ghost use Rattle.c_unit.specs.Left.{left_of};
ghost use Rattle.w2c_sim.specs.Translation.{text_of, header_text_of};

use c_print::{print_header, print_packed_to};
use c_tree::Tok;
use c_unit::{UnitItems, header};
use std::alloc::Global;
use unit_rules::units_are_proper;
use w2c_base::{Bytes, Memory};
use w2c_io::{Files, WriteAnswer};
use wasm_typing::ValidModule;

/// Appends the text of a module's unit under a name to the current file: the include line, then an item at a time, so
/// that one function's statements, packed, and a piece of its text are held at most. It is the text that `translate` gives.
///
/// # Errors
///
/// `Failed` where the file failed, `Memory` where memory was wanting. A prefix of the text was appended then, and the
/// file stays current.
pub fn write_unit<F: Files>(
    alloc: Global,
    m: &ValidModule,
    name: &[u8],
    files: &mut F,
) -> Result<(), WriteAnswer>
    requires named { 1 ≤ length name.now }
    requires short { length name.now ≤ 1024 }
    requires current { IsSome (F.current files.old) }
    ensures written { OnOk result (F.told files.new
        ≡ appending (F.told files.old) (F.current files.old) (text_of m.now name.now)) }
    ensures part { OnErr result (AppendsPart (F.told files.old) (F.told files.new) (F.current files.old)
        (text_of m.now name.now)) }
    ensures current { F.current files.new ≡ F.current files.old }
    ensures cause { WriteCause (F.write_faults files.old) (F.write_faults files.new) result }
    ensures fault { F.fault_name files.new ≡ name_after_write result (F.current files.old) (F.fault_name files.old) }
    ensures reads { F.read_faults files.new ≡ F.read_faults files.old }
    ensures passed { OnOk result (Passes (F.trace files.old) (F.trace files.new) (PutsText (text_of m.now name.now))) }
    ensures tried { IfErr result (λ why. Passes (F.trace files.old) (F.trace files.new) (PutsPart (text_of m.now name.now) why)) }
{
    // It says that the module is valid and within the limits, so that its unit is one that a text spells.
    let _ = m.module();
    units_are_proper();
    let mut items = UnitItems::new(alloc, m, name)?;
    write_items(alloc, &mut items, files)
}

// Appends the include line and the text of each item that was not given yet.
fn write_items<F: Files>(
    alloc: Global,
    items: &mut UnitItems,
    files: &mut F,
) -> Result<(), WriteAnswer>
    requires formed { Formed (left_of items.old) }
    requires current { IsSome (F.current files.old) }
    ensures written { OnOk result (F.told files.new
        ≡ appending (F.told files.old) (F.current files.old) (print_of (left_of items.old))) }
    ensures part { OnErr result (AppendsPart (F.told files.old) (F.told files.new) (F.current files.old)
        (print_of (left_of items.old))) }
    ensures current { F.current files.new ≡ F.current files.old }
    ensures cause { WriteCause (F.write_faults files.old) (F.write_faults files.new) result }
    ensures fault { F.fault_name files.new ≡ name_after_write result (F.current files.old) (F.fault_name files.old) }
    ensures reads { F.read_faults files.new ≡ F.read_faults files.old }
    ensures passed { OnOk result (Passes (F.trace files.old) (F.trace files.new) (PutsText (print_of (left_of items.old)))) }
    ensures tried { IfErr result (λ why. Passes (F.trace files.old) (F.trace files.new) (PutsPart (print_of (left_of items.old)) why)) }
{
    files.put(Tok::Include.text())?;
    'more: while let Some(item) = items.next_packed()? {
        print_packed_to(alloc, item, files)?;
    }
    Ok(())
}

/// Appends the text of a module's header under a name to the current file. It is the text that `translate` gives.
///
/// # Errors
///
/// Those of `write_unit`.
pub fn write_header<F: Files>(
    alloc: Global,
    m: &ValidModule,
    name: &[u8],
    files: &mut F,
) -> Result<(), WriteAnswer>
    requires named { 1 ≤ length name.now }
    requires short { length name.now ≤ 1024 }
    requires current { IsSome (F.current files.old) }
    ensures written { OnOk result (F.told files.new
        ≡ appending (F.told files.old) (F.current files.old) (header_text_of m.now name.now)) }
    ensures part { OnErr result (AppendsPart (F.told files.old) (F.told files.new) (F.current files.old)
        (header_text_of m.now name.now)) }
    ensures current { F.current files.new ≡ F.current files.old }
    ensures cause { WriteCause (F.write_faults files.old) (F.write_faults files.new) result }
    ensures fault { F.fault_name files.new ≡ name_after_write result (F.current files.old) (F.fault_name files.old) }
    ensures reads { F.read_faults files.new ≡ F.read_faults files.old }
    ensures passed { OnOk result (Passes (F.trace files.old) (F.trace files.new) (PutsText (header_text_of m.now name.now))) }
    ensures tried { IfErr result (λ why. Passes (F.trace files.old) (F.trace files.new) (PutsPart (header_text_of m.now name.now) why)) }
{
    let text = header_text(alloc, m, name)?;
    files.put(text.as_slice())
}

fn header_text(alloc: Global, m: &ValidModule, name: &[u8]) -> Result<Bytes, Memory>
    ensures { IfOk result (λ text. text ≡ header_text_of m.now name.now) }
{
    let header = header(alloc, m, name)?;
    print_header(alloc, &header)
}
