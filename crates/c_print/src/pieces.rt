// Lists of pieces that are printed one after another.
ghost use Rattle.std.specs.Prelude.{◌≡◌, ◌∷◌, OnOk, IfErr, IsSome};
ghost use Rattle.c_tree.specs.declared.token.Tok.TheVariants as tok;
ghost use Rattle.c_tree.specs.Tokens.{Fixed};
ghost use Rattle.c_tree.specs.Trees.{each, separated};
ghost use Rattle.c_print.specs.Page.{printed_onto};
ghost use Rattle.c_print.specs.ToFile.{Prints, PrintsPart};

use crate::page::Page;
use crate::to_file::put_full;
use c_tree::Tok;
use std::alloc::Global;
use w2c_base::Memory;
use w2c_io::{Files, WriteAnswer};

/// A piece of a tree that stands in a list.
pub trait Piece {
    ghost use Rattle.std.specs.Prelude.{List};
    ghost use Rattle.c_tree.specs.Tokens.{Token};

    ghost tokens: { Self → List Token };

    /// Puts its tokens at the end of the page.
    fn put(&self, page: &mut Page) -> Result<(), Memory>
        ensures { OnOk result (page.new ≡ printed_onto page.old (tokens self.now)) };

    /// Puts its tokens at the end of the page, and the page's text to the file where it is long.
    fn put_to<F: Files>(
        &self,
        alloc: Global,
        page: &mut Page,
        files: &mut F,
    ) -> Result<(), WriteAnswer>
        requires current { IsSome (F.current files.old) }
        ensures whole { OnOk result (Prints F.Files files.old files.new page.old page.new (tokens self.now)) }
        ensures part { IfErr result (λ why. PrintsPart F.Files files.old files.new page.old (tokens self.now) why) }
    {
        self.put(page)?;
        put_full(alloc, page, files)
    }
}

pub fn put_each<T: Piece>(page: &mut Page, pieces: &[T]) -> Result<(), Memory>
    ensures { OnOk result (page.new ≡ printed_onto page.old (each T.tokens pieces.now)) }
{
    for piece in pieces {
        piece.put(page)?;
    }
    Ok(())
}

#[tactic(auto, using(crate::proofs::Onto::onto_append))]
fn put_more<T: Piece>(page: &mut Page, pieces: &[T]) -> Result<(), Memory>
    ensures { OnOk result (page.new ≡ printed_onto page.old (each (λ piece. Fixed tok.Comma ∷ T.tokens piece) pieces.now)) }
{
    for piece in pieces {
        page.fixed(Tok::Comma)?;
        piece.put(page)?;
    }
    Ok(())
}

/// With a comma between any two.
#[tactic(auto, using(crate::proofs::Onto::onto_append, crate::proofs::Onto::separated_at))]
pub fn put_separated<T: Piece>(page: &mut Page, pieces: &[T]) -> Result<(), Memory>
    ensures { OnOk result (page.new ≡ printed_onto page.old (separated T.tokens pieces.now)) }
{
    if pieces.is_empty() {
        return Ok(());
    }
    let (first, rest) = pieces.split_at(1);
    put_each(page, first)?;
    put_more(page, rest)
}
