// Pages whose text is put to a file as it grows.
ghost use Rattle.std.specs.Prelude.{◌≡◌, [], ◌∷◌, ◌++◌, map, OnOk, IfErr, IsSome};
ghost use Rattle.c_tree.specs.Tokens.{Fixed};
ghost use Rattle.c_tree.specs.Trees.{each, separated};
ghost use Rattle.c_print.specs.ToFile.{HasPut, HasFailed, Prints, PrintsPart};

use crate::page::Page;
use crate::pieces::Piece;
use c_tree::Tok;
use std::alloc::Global;
use w2c_base::Bytes;
use w2c_io::{Files, WriteAnswer};

/// The text of a page that has grown so long is put to the file.
const LIMIT: usize = 0x1_0000;

/// A page that goes on has room for a text up to the limit, and for a piece more.
const ROOM: usize = 0x1_2000;

/// Appends a text to the current file.
pub fn put_text<F: Files>(text: &[u8], files: &mut F) -> Result<(), WriteAnswer>
    requires current { IsSome (F.current files.old) }
    ensures whole { OnOk result (HasPut F.Files files.old files.new text.now) }
    ensures part { IfErr result (λ why. HasFailed F.Files files.old files.new text.now why) }
{
    files.put(text)
}

/// Puts the text of a page to the file, where it is long. The page goes on without it.
pub fn put_full<F: Files>(alloc: Global, page: &mut Page, files: &mut F) -> Result<(), WriteAnswer>
    requires current { IsSome (F.current files.old) }
    ensures whole { OnOk result (Prints F.Files files.old files.new page.old page.new []) }
    ensures part { IfErr result (λ why. PrintsPart F.Files files.old files.new page.old [] why) }
{
    if page.text.len() < LIMIT {
        return Ok(());
    }
    put_text(page.text.as_slice(), files)?;
    page.text = Bytes::with_room(alloc, ROOM)?;
    Ok(())
}

/// Puts signs and a piece of a tree at the end of the page, and the page's text to the file where it is long.
fn put_piece_to<T: Piece, F: Files>(
    alloc: Global,
    page: &mut Page,
    signs: &[Tok],
    piece: &T,
    files: &mut F,
) -> Result<(), WriteAnswer>
    requires current { IsSome (F.current files.old) }
    ensures whole { OnOk result (Prints F.Files files.old files.new page.old page.new (map Fixed signs.now ++ T.tokens piece.now)) }
    ensures part { IfErr result (λ why. PrintsPart F.Files files.old files.new page.old (map Fixed signs.now ++ T.tokens piece.now) why) }
{
    page.all_fixed(signs)?;
    piece.put_to(alloc, page, files)
}

/// Pieces in order, each behind the same signs.
pub fn put_each_to<T: Piece, F: Files>(
    alloc: Global,
    page: &mut Page,
    signs: &[Tok],
    pieces: &[T],
    files: &mut F,
) -> Result<(), WriteAnswer>
    requires current { IsSome (F.current files.old) }
    ensures whole { OnOk result (Prints F.Files files.old files.new page.old page.new
        (each (λ piece. map Fixed signs.now ++ T.tokens piece) pieces.now)) }
    ensures part { IfErr result (λ why. PrintsPart F.Files files.old files.new page.old
        (each (λ piece. map Fixed signs.now ++ T.tokens piece) pieces.now) why) }
{
    for piece in pieces {
        put_piece_to(alloc, page, signs, piece, files)?;
    }
    Ok(())
}

/// Pieces in order, with a comma between any two.
pub fn put_separated_to<T: Piece, F: Files>(
    alloc: Global,
    page: &mut Page,
    pieces: &[T],
    files: &mut F,
) -> Result<(), WriteAnswer>
    requires current { IsSome (F.current files.old) }
    ensures whole { OnOk result (Prints F.Files files.old files.new page.old page.new (separated T.tokens pieces.now)) }
    ensures part { IfErr result (λ why. PrintsPart F.Files files.old files.new page.old (separated T.tokens pieces.now) why) }
{
    if pieces.is_empty() {
        return Ok(());
    }
    let (first, rest) = pieces.split_at(1);
    put_each_to(alloc, page, &[], first, files)?;
    put_each_to(alloc, page, &[Tok::Comma], rest, files)
}
