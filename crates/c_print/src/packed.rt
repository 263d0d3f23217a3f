// Functions whose statements are packed, as they are put to a file: a part of the statements is unpacked at a time.
ghost use Rattle.std.specs.Prelude.{◌≡◌, Some, OnOk, OnErr, IfErr, IsSome};
ghost use Rattle.w2c_io.specs.Contents.{appending, AppendsPart};
ghost use Rattle.w2c_io.specs.Causes.{WriteCause, name_after_write};
ghost use Rattle.w2c_io.specs.Passed.{Passes, PutsText, PutsPart};
ghost use Rattle.c_tree.specs.Tree as tree;
ghost use Rattle.c_tree.specs.Trees.{each, close_tokens, func_tokens, stmt_tokens};
ghost use Rattle.packed_stmts.specs.Listed.{left};
ghost use Rattle.packed_stmts.specs.PackedItems.{packed_body_of, packed_func_of, packed_item_of};
ghost use Rattle.c_print.specs.ItemText.{IsItemOfUnit};
ghost use Rattle.c_print.specs.Print.{print_item_of};
ghost use Rattle.c_print.specs.ToFile.{HasPut, HasFailed, Prints, PrintsPart};

use crate::function::{put_head, put_open_to};
use crate::item::{print_item_to, put_end_to};
use crate::page::Page;
use crate::to_file::put_each_to;
use c_tree::Tok;
use packed_stmts::{PackedBody, PackedFunc, PackedItem, Parts};
use std::alloc::Global;
use w2c_io::{Files, WriteAnswer};

// The statements that are left, part by part.
fn put_parts_to<F: Files>(
    alloc: Global,
    page: &mut Page,
    parts: &mut Parts,
    files: &mut F,
) -> Result<(), WriteAnswer>
    requires current { IsSome (F.current files.old) }
    ensures whole { OnOk result (Prints F.Files files.old files.new page.old page.new (each stmt_tokens (left parts.old))) }
    ensures part { IfErr result (λ why. PrintsPart F.Files files.old files.new page.old (each stmt_tokens (left parts.old)) why) }
{
    'more: while let Some(part) = parts.next()? {
        let put = put_each_to(alloc, page, &[], part.as_slice(), files);
        drop(part);
        put?;
    }
    Ok(())
}

// A body in its braces.
fn put_packed_body_to<F: Files>(
    alloc: Global,
    page: &mut Page,
    body: &mut PackedBody,
    files: &mut F,
) -> Result<(), WriteAnswer>
    requires current { IsSome (F.current files.old) }
    ensures whole { OnOk result (Prints F.Files files.old files.new page.old page.new (close_tokens (Some (packed_body_of body.old)))) }
    ensures part { IfErr result (λ why. PrintsPart F.Files files.old files.new page.old (close_tokens (Some (packed_body_of body.old))) why) }
{
    put_open_to(alloc, page, body.locals.as_slice(), files)?;
    put_parts_to(alloc, page, &mut body.stmts, files)?;
    page.fixed(Tok::RightBrace)?;
    Ok(())
}

fn put_packed_function_to<F: Files>(
    alloc: Global,
    page: &mut Page,
    func: &mut PackedFunc,
    files: &mut F,
) -> Result<(), WriteAnswer>
    requires current { IsSome (F.current files.old) }
    ensures whole { OnOk result (Prints F.Files files.old files.new page.old page.new (func_tokens (packed_func_of func.old))) }
    ensures part { IfErr result (λ why. PrintsPart F.Files files.old files.new page.old (func_tokens (packed_func_of func.old)) why) }
{
    put_head(page, &func.head)?;
    match &mut func.body {
        None => {
            page.fixed(Tok::Semicolon)?;
            Ok(())
        }
        Some(body) => put_packed_body_to(alloc, page, body, files),
    }
}

// A function with its last line ended, of which all is put to the file.
fn put_packed_line_to<F: Files>(
    alloc: Global,
    func: &mut PackedFunc,
    files: &mut F,
) -> Result<(), WriteAnswer>
    requires current { IsSome (F.current files.old) }
    ensures whole { OnOk result (HasPut F.Files files.old files.new (print_item_of (tree.Function (packed_func_of func.old)))) }
    ensures part { IfErr result (λ why. HasFailed F.Files files.old files.new (print_item_of (tree.Function (packed_func_of func.old))) why) }
{
    let mut page = Page::new(alloc);
    put_packed_function_to(alloc, &mut page, func, files)?;
    put_end_to(&mut page, files)
}

/// Appends the text of one item of a unit to the current file, as `print_item_to` does, of an item that may be a function whose
/// statements are packed. It unpacks some thousand of them at a time.
///
/// # Errors
///
/// Those of `print_item_to`.
pub fn print_packed_to<F: Files>(
    alloc: Global,
    item: PackedItem,
    files: &mut F,
) -> Result<(), WriteAnswer>
    requires formed { IsItemOfUnit (packed_item_of item) }
    requires current { IsSome (F.current files.old) }
    ensures written { OnOk result (F.told files.new
        ≡ appending (F.told files.old) (F.current files.old) (print_item_of (packed_item_of item))) }
    ensures part { OnErr result (AppendsPart (F.told files.old) (F.told files.new) (F.current files.old)
        (print_item_of (packed_item_of item))) }
    ensures current { F.current files.new ≡ F.current files.old }
    ensures cause { WriteCause (F.write_faults files.old) (F.write_faults files.new) result }
    ensures named { F.fault_name files.new ≡ name_after_write result (F.current files.old) (F.fault_name files.old) }
    ensures reads { F.read_faults files.new ≡ F.read_faults files.old }
    ensures passed { OnOk result (Passes (F.trace files.old) (F.trace files.new) (PutsText (print_item_of (packed_item_of item)))) }
    ensures tried { IfErr result (λ why. Passes (F.trace files.old) (F.trace files.new) (PutsPart (print_item_of (packed_item_of item)) why)) }
{
    match item {
        PackedItem::Whole(item) => {
            let printed = print_item_to(alloc, &item, files);
            drop(item);
            printed
        }
        PackedItem::Func(func) => {
            let mut func = func;
            let printed = put_packed_line_to(alloc, &mut func, files);
            drop(func);
            printed
        }
    }
}
