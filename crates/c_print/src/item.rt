// Items, and the text of one that is written into a file.
ghost use Rattle.std.specs.Prelude.{◌≡◌, [], ◌∷◌, ◌++◌, OnOk, OnErr, IfErr, IsSome};
ghost use Rattle.w2c_io.specs.Contents.{appending, AppendsPart};
ghost use Rattle.w2c_io.specs.Causes.{WriteCause, name_after_write};
ghost use Rattle.w2c_io.specs.Passed.{Passes, PutsText, PutsPart};
ghost use Rattle.c_tree.specs.declared.token.Tok.TheVariants as tok;
ghost use Rattle.c_tree.specs.declared.tree.Num.TheVariants.{Plain};
ghost use Rattle.c_tree.specs.Tokens.{Fixed};
ghost use Rattle.c_tree.specs.Trees.{separated, num_token, value_tokens, item_tokens};
ghost use Rattle.c_tree.specs.View.{item_of};
ghost use Rattle.c_print.specs.ItemText.{IsItemOfUnit, SpellsItem};
ghost use Rattle.c_print.specs.Page.{printed_onto, ended};
ghost use Rattle.c_print.specs.Print.{print_item_of};
ghost use Rattle.c_print.specs.ToFile.{HasPut, HasFailed, Prints, PrintsPart, array_head};

use crate::function::{put_function, put_function_to};
use crate::page::Page;
use crate::pieces::{Piece, put_separated};
use crate::to_file::{put_separated_to, put_text};
use c_tree::{Item, Name, Num, Tok};
use std::alloc::Global;
use w2c_base::{Bytes, Memory};
use w2c_io::{Files, WriteAnswer};

impl Piece for u8 {
    ghost tokens = { λ byte. num_token (Plain byte) ∷ [] };

    fn put(&self, page: &mut Page) -> Result<(), Memory> {
        page.number(Num::Plain(*self as u64))
    }
}

// What stands in front of the bytes.
#[tactic(auto, using(crate::proofs::Onto::onto_append))]
fn put_array_head(page: &mut Page, name: &Name, count: u64) -> Result<(), Memory>
    ensures { OnOk result (page.new ≡ printed_onto page.old (array_head name.now count)) }
{
    page.all_fixed(&[Tok::WordStatic, Tok::WordConst, Tok::WordU8])?;
    page.name_and(name, Tok::LeftBracket)?;
    page.number(Num::Plain(count))?;
    page.all_fixed(&[Tok::RightBracket, Tok::Assign, Tok::LeftBrace])
}

#[tactic(auto, using(crate::proofs::Onto::onto_append))]
fn put_array(page: &mut Page, name: &Name, count: u64, bytes: &Bytes) -> Result<(), Memory>
    ensures { OnOk result (page.new ≡ printed_onto page.old (array_head name.now count
        ++ (separated (λ byte. num_token (Plain byte) ∷ []) bytes.now ++ Fixed tok.RightBrace ∷ Fixed tok.Semicolon ∷ []))) }
{
    put_array_head(page, name, count)?;
    put_separated(page, bytes.as_slice())?;
    page.all_fixed(&[Tok::RightBrace, Tok::Semicolon])
}

// An array, of which the bytes before the last ones are put to the file.
fn put_array_to<F: Files>(
    alloc: Global,
    page: &mut Page,
    name: &Name,
    count: u64,
    bytes: &Bytes,
    files: &mut F,
) -> Result<(), WriteAnswer>
    requires current { IsSome (F.current files.old) }
    ensures whole { OnOk result (Prints F.Files files.old files.new page.old page.new (array_head name.now count
        ++ (separated (λ byte. num_token (Plain byte) ∷ []) bytes.now ++ Fixed tok.RightBrace ∷ Fixed tok.Semicolon ∷ []))) }
    ensures part { IfErr result (λ why. PrintsPart F.Files files.old files.new page.old (array_head name.now count
        ++ (separated (λ byte. num_token (Plain byte) ∷ []) bytes.now ++ Fixed tok.RightBrace ∷ Fixed tok.Semicolon ∷ [])) why) }
{
    put_array_head(page, name, count)?;
    put_separated_to(alloc, page, bytes.as_slice(), files)?;
    page.all_fixed(&[Tok::RightBrace, Tok::Semicolon])?;
    Ok(())
}

fn put_value(page: &mut Page, value: &Option<Num>) -> Result<(), Memory>
    ensures { OnOk result (page.new ≡ printed_onto page.old (value_tokens value.now)) }
{
    if let Some(n) = value {
        page.fixed(Tok::Assign)?;
        page.number(*n)?;
    }
    page.fixed(Tok::Semicolon)
}

#[tactic(auto, using(crate::proofs::Onto::onto_append))]
fn put_item(page: &mut Page, item: &Item) -> Result<(), Memory>
    ensures { OnOk result (page.new ≡ printed_onto page.old (item_tokens (item_of item.now))) }
{
    match item {
        Item::Array(name, count, bytes) => put_array(page, name, *count, bytes),
        Item::Var(ty, name, value) => {
            page.fixed(Tok::WordStatic)?;
            ty.put(page)?;
            page.name(name)?;
            put_value(page, value)
        }
        Item::Func(func) => put_function(page, func),
    }
}

/// An item with its last line ended.
pub fn put_line(page: &mut Page, item: &Item) -> Result<(), Memory>
    ensures { OnOk result (page.new ≡ ended (printed_onto page.old (item_tokens (item_of item.now)))) }
{
    put_item(page, item)?;
    page.end()
}

// An item, of which the first pieces are put to the file where it is long.
fn put_item_to<F: Files>(
    alloc: Global,
    page: &mut Page,
    item: &Item,
    files: &mut F,
) -> Result<(), WriteAnswer>
    requires current { IsSome (F.current files.old) }
    ensures whole { OnOk result (Prints F.Files files.old files.new page.old page.new (item_tokens (item_of item.now))) }
    ensures part { IfErr result (λ why. PrintsPart F.Files files.old files.new page.old (item_tokens (item_of item.now)) why) }
{
    match item {
        Item::Array(name, count, bytes) => put_array_to(alloc, page, name, *count, bytes, files),
        Item::Func(func) => put_function_to(alloc, page, func, files),
        Item::Var(..) => {
            put_item(page, item)?;
            Ok(())
        }
    }
}

/// Ends a page's last line, and puts what is left of its text to the file.
pub fn put_end_to<F: Files>(page: &mut Page, files: &mut F) -> Result<(), WriteAnswer>
    requires current { IsSome (F.current files.old) }
    ensures whole { OnOk result (HasPut F.Files files.old files.new (ended page.old).text) }
    ensures part { IfErr result (λ why. HasFailed F.Files files.old files.new (ended page.old).text why) }
{
    page.end()?;
    put_text(page.text.as_slice(), files)
}

// An item with its last line ended, of which all is put to the file.
fn put_line_to<F: Files>(
    alloc: Global,
    page: &mut Page,
    item: &Item,
    files: &mut F,
) -> Result<(), WriteAnswer>
    requires current { IsSome (F.current files.old) }
    ensures whole { OnOk result (HasPut F.Files files.old files.new (ended (printed_onto page.old (item_tokens (item_of item.now)))).text) }
    ensures part { IfErr result (λ why. HasFailed F.Files files.old files.new
        (ended (printed_onto page.old (item_tokens (item_of item.now)))).text why) }
{
    put_item_to(alloc, page, item, files)?;
    put_end_to(page, files)
}

/// Appends the text of one item of a unit to the current file. It spells the item; the unit's text is the include
/// line and the texts of its items in order, so a unit can be written without being held whole. A long text is put in
/// pieces, so that some 64 KiB of it are held at most, and the text of one statement or of one case of a switch.
///
/// # Errors
///
/// `Failed` where the file failed, `Memory` where memory was wanting. A prefix of the text was appended then, and
/// the file stays current.
pub fn print_item_to<F: Files>(alloc: Global, item: &Item, files: &mut F) -> Result<(), WriteAnswer>
    requires formed { IsItemOfUnit (item_of item.now) }
    requires current { IsSome (F.current files.old) }
    ensures written { OnOk result (F.told files.new
        ≡ appending (F.told files.old) (F.current files.old) (print_item_of (item_of item.now))) }
    ensures spells { SpellsItem (item_of item.now) (print_item_of (item_of item.now)) }
    ensures part { OnErr result (AppendsPart (F.told files.old) (F.told files.new) (F.current files.old)
        (print_item_of (item_of item.now))) }
    ensures current { F.current files.new ≡ F.current files.old }
    ensures cause { WriteCause (F.write_faults files.old) (F.write_faults files.new) result }
    ensures named { F.fault_name files.new ≡ name_after_write result (F.current files.old) (F.fault_name files.old) }
    ensures reads { F.read_faults files.new ≡ F.read_faults files.old }
    // What passed through the files, those of the system too.
    ensures passed { OnOk result (Passes (F.trace files.old) (F.trace files.new) (PutsText (print_item_of (item_of item.now)))) }
    ensures tried { IfErr result (λ why. Passes (F.trace files.old) (F.trace files.new) (PutsPart (print_item_of (item_of item.now)) why)) }
{
    let mut page = Page::new(alloc);
    put_line_to(alloc, &mut page, item, files)
}
