// Parameters, local variables, bodies and functions.
ghost use Rattle.std.specs.Prelude.{◌≡◌, ◌∷◌, ◌++◌, Some, OnOk, IfErr, IsSome, map};
ghost use Rattle.c_tree.specs.declared.token.Tok.TheVariants as tok;
ghost use Rattle.c_tree.specs.Tokens.{Fixed};
ghost use Rattle.c_tree.specs.Trees.{each, local_tokens, param_tokens, close_tokens, func_tokens, stmt_tokens};
ghost use Rattle.c_tree.specs.View.{stmt_of, body_of, maybe_body_of, func_of};
ghost use Rattle.c_print.specs.Page.{printed_onto};
ghost use Rattle.c_print.specs.ToFile.{Prints, PrintsPart, func_head};

use crate::page::Page;
use crate::pieces::{Piece, put_each, put_separated};
use crate::to_file::put_each_to;
use c_tree::{Body, CType, Func, Name, Num, Tok};
use std::alloc::Global;
use w2c_base::Memory;
use w2c_io::{Files, WriteAnswer};

impl Piece for (CType, Option<Name>) {
    ghost tokens = { param_tokens };

    #[tactic(auto, using(crate::proofs::Onto::onto_append))]
    fn put(&self, page: &mut Page) -> Result<(), Memory> {
        self.0.put(page)?;
        match &self.1 {
            None => Ok(()),
            Some(name) => page.name(name),
        }
    }
}

impl Piece for (CType, Name, Num) {
    ghost tokens = { local_tokens };

    #[tactic(auto, using(crate::proofs::Onto::onto_append))]
    fn put(&self, page: &mut Page) -> Result<(), Memory> {
        self.0.put(page)?;
        page.name_and(&self.1, Tok::Assign)?;
        page.number(self.2)?;
        page.fixed(Tok::Semicolon)
    }
}

#[tactic(auto, using(crate::proofs::Onto::onto_append, crate::proofs::Onto::each_map))]
fn put_body(page: &mut Page, body: &Body) -> Result<(), Memory>
    ensures { OnOk result (page.new ≡ printed_onto page.old (each local_tokens body.now.locals ++ each stmt_tokens (map stmt_of body.now.stmts))) }
{
    put_each(page, body.locals.as_slice())?;
    put_each(page, body.stmts.as_slice())
}

#[tactic(auto, using(crate::proofs::Onto::onto_append))]
fn put_close(page: &mut Page, body: &Option<Body>) -> Result<(), Memory>
    ensures { OnOk result (page.new ≡ printed_onto page.old (close_tokens (maybe_body_of body.now))) }
{
    match body {
        None => page.fixed(Tok::Semicolon),
        Some(body) => {
            page.fixed(Tok::LeftBrace)?;
            put_body(page, body)?;
            page.fixed(Tok::RightBrace)
        }
    }
}

/// What stands in front of the body, or of the sign in its place.
#[tactic(auto, using(crate::proofs::Onto::onto_append))]
pub fn put_head(page: &mut Page, func: &Func) -> Result<(), Memory>
    ensures { OnOk result (page.new ≡ printed_onto page.old (func_head (func_of func.now))) }
{
    if func.is_static {
        page.fixed(Tok::WordStatic)?;
    }
    func.result.put(page)?;
    page.name_and(&func.name, Tok::LeftParen)?;
    put_separated(page, func.params.as_slice())?;
    page.fixed(Tok::RightParen)
}

#[tactic(auto, using(crate::proofs::Onto::onto_append))]
pub fn put_function(page: &mut Page, func: &Func) -> Result<(), Memory>
    ensures { OnOk result (page.new ≡ printed_onto page.old (func_tokens (func_of func.now))) }
{
    put_head(page, func)?;
    put_close(page, &func.body)
}

/// The left brace of a body, and its local variables.
pub fn put_open_to<F: Files>(
    alloc: Global,
    page: &mut Page,
    locals: &[(CType, Name, Num)],
    files: &mut F,
) -> Result<(), WriteAnswer>
    requires current { IsSome (F.current files.old) }
    ensures whole { OnOk result (Prints F.Files files.old files.new page.old page.new (Fixed tok.LeftBrace ∷ each local_tokens locals.now)) }
    ensures part { IfErr result (λ why. PrintsPart F.Files files.old files.new page.old (Fixed tok.LeftBrace ∷ each local_tokens locals.now) why) }
{
    page.fixed(Tok::LeftBrace)?;
    put_each_to(alloc, page, &[], locals, files)
}

// A body in its braces, of which the statements before the last ones are put to the file.
fn put_body_to<F: Files>(
    alloc: Global,
    page: &mut Page,
    body: &Body,
    files: &mut F,
) -> Result<(), WriteAnswer>
    requires current { IsSome (F.current files.old) }
    ensures whole { OnOk result (Prints F.Files files.old files.new page.old page.new (close_tokens (Some (body_of body.now)))) }
    ensures part { IfErr result (λ why. PrintsPart F.Files files.old files.new page.old (close_tokens (Some (body_of body.now))) why) }
{
    put_open_to(alloc, page, body.locals.as_slice(), files)?;
    put_each_to(alloc, page, &[], body.stmts.as_slice(), files)?;
    page.fixed(Tok::RightBrace)?;
    Ok(())
}

/// A function, of which the statements before the last ones are put to the file. A declaration stays on the page.
pub fn put_function_to<F: Files>(
    alloc: Global,
    page: &mut Page,
    func: &Func,
    files: &mut F,
) -> Result<(), WriteAnswer>
    requires current { IsSome (F.current files.old) }
    ensures whole { OnOk result (Prints F.Files files.old files.new page.old page.new (func_tokens (func_of func.now))) }
    ensures part { IfErr result (λ why. PrintsPart F.Files files.old files.new page.old (func_tokens (func_of func.now)) why) }
{
    let Some(body) = &func.body else {
        put_function(page, func)?;
        return Ok(());
    };
    put_head(page, func)?;
    put_body_to(alloc, page, body, files)
}
