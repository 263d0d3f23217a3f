// Calls and statements.
ghost use Rattle.std.specs.Prelude.{◌≡◌, [], ◌∷◌, ◌++◌, OnOk, IfErr, IsSome, map};
ghost use Rattle.c_tree.specs.declared.token.Tok.TheVariants as tok;
ghost use Rattle.c_tree.specs.Tokens.{Fixed};
ghost use Rattle.c_tree.specs.Tree.{Switch};
ghost use Rattle.c_tree.specs.Trees.{callee_tokens, call_tokens, goto_tokens, case_tokens, stmt_tokens, through_tokens, expr_tokens, op_token};
ghost use Rattle.c_tree.specs.View.{expr_of, arg_of, callee_of, func_type_of, stmt_of};
ghost use Rattle.c_print.specs.Page.{printed_onto};
ghost use Rattle.c_print.specs.ToFile.{Prints, PrintsPart, switch_head, switch_end};

use crate::expression::{put_expression, put_operator};
use crate::page::Page;
use crate::pieces::{Piece, put_each, put_separated};
use crate::to_file::{put_each_to, put_full};
use c_tree::{Args, CFuncType, COp, Callee, Cases, Expr, Name, Num, Stmt, Tok};
use std::alloc::Global;
use w2c_base::Memory;
use w2c_io::{Files, WriteAnswer};

#[tactic(auto, using(crate::proofs::Onto::onto_append))]
fn put_through(page: &mut Page, ty: &CFuncType, name: &Name) -> Result<(), Memory>
    ensures { OnOk result (page.new ≡ printed_onto page.old (through_tokens (func_type_of ty.now) name.now)) }
{
    page.all_fixed(&[Tok::LeftParen, Tok::Star, Tok::LeftParen])?;
    ty.result.put(page)?;
    page.all_fixed(&[Tok::LeftParen, Tok::Star, Tok::RightParen, Tok::LeftParen])?;
    put_separated(page, ty.params.as_slice())?;
    page.all_fixed(&[Tok::RightParen, Tok::RightParen])?;
    page.name_and(name, Tok::RightParen)
}

fn put_callee(page: &mut Page, callee: &Callee) -> Result<(), Memory>
    ensures { OnOk result (page.new ≡ printed_onto page.old (callee_tokens (callee_of callee.now))) }
{
    match callee {
        Callee::Named(name) => page.name(name),
        Callee::Through(ty, name) => put_through(page, ty, name),
    }
}

#[tactic(auto, using(crate::proofs::Onto::onto_append, crate::proofs::Onto::separated_map))]
fn put_call(page: &mut Page, callee: &Callee, args: &Args) -> Result<(), Memory>
    ensures { OnOk result (page.new ≡ printed_onto page.old (call_tokens (callee_of callee.now) (map arg_of args.now))) }
{
    put_callee(page, callee)?;
    page.fixed(Tok::LeftParen)?;
    put_separated(page, args.as_slice())?;
    page.all_fixed(&[Tok::RightParen, Tok::Semicolon])
}

fn put_goto(page: &mut Page, label: &Name) -> Result<(), Memory>
    ensures { OnOk result (page.new ≡ printed_onto page.old (goto_tokens label.now)) }
{
    page.fixed(Tok::WordGoto)?;
    page.name_and(label, Tok::Semicolon)
}

impl Piece for (Num, Name) {
    ghost tokens = { case_tokens };

    #[tactic(auto, using(crate::proofs::Onto::onto_append))]
    fn put(&self, page: &mut Page) -> Result<(), Memory> {
        page.fixed(Tok::WordCase)?;
        page.number(self.0)?;
        page.fixed(Tok::Colon)?;
        put_goto(page, &self.1)
    }
}

#[tactic(auto, using(crate::proofs::Onto::onto_append))]
fn put_if(
    page: &mut Page,
    operator: COp,
    left: &Expr,
    right: &Expr,
    label: &Name,
) -> Result<(), Memory>
    ensures { OnOk result (page.new ≡ printed_onto page.old (Fixed tok.WordIf ∷ Fixed tok.LeftParen ∷ (expr_tokens (expr_of left.now)
        ++ (op_token operator ∷ (expr_tokens (expr_of right.now) ++ Fixed tok.RightParen ∷ goto_tokens label.now))))) }
{
    page.all_fixed(&[Tok::WordIf, Tok::LeftParen])?;
    put_expression(page, left)?;
    put_operator(page, operator)?;
    put_expression(page, right)?;
    page.fixed(Tok::RightParen)?;
    put_goto(page, label)
}

// What stands in front of the cases.
#[tactic(auto, using(crate::proofs::Onto::onto_append))]
fn put_switch_head(page: &mut Page, on: &Expr) -> Result<(), Memory>
    ensures { OnOk result (page.new ≡ printed_onto page.old (switch_head (expr_of on.now))) }
{
    page.all_fixed(&[Tok::WordSwitch, Tok::LeftParen])?;
    put_expression(page, on)?;
    page.all_fixed(&[Tok::RightParen, Tok::LeftBrace])
}

// What stands behind them.
#[tactic(auto, using(crate::proofs::Onto::onto_append))]
fn put_switch_end(page: &mut Page, label: &Name) -> Result<(), Memory>
    ensures { OnOk result (page.new ≡ printed_onto page.old (switch_end label.now)) }
{
    page.all_fixed(&[Tok::WordDefault, Tok::Colon])?;
    put_goto(page, label)?;
    page.fixed(Tok::RightBrace)
}

#[tactic(auto, using(crate::proofs::Onto::onto_append))]
fn put_switch(page: &mut Page, on: &Expr, cases: &Cases, label: &Name) -> Result<(), Memory>
    ensures { OnOk result (page.new ≡ printed_onto page.old (stmt_tokens (Switch (expr_of on.now) cases.now label.now))) }
{
    put_switch_head(page, on)?;
    put_each(page, cases.as_slice())?;
    put_switch_end(page, label)
}

// A switch, of which the cases before the last ones are put to the file.
fn put_switch_to<F: Files>(
    alloc: Global,
    page: &mut Page,
    on: &Expr,
    cases: &Cases,
    label: &Name,
    files: &mut F,
) -> Result<(), WriteAnswer>
    requires current { IsSome (F.current files.old) }
    ensures whole { OnOk result (Prints F.Files files.old files.new page.old page.new
        (stmt_tokens (Switch (expr_of on.now) cases.now label.now))) }
    ensures part { IfErr result (λ why. PrintsPart F.Files files.old files.new page.old
        (stmt_tokens (Switch (expr_of on.now) cases.now label.now)) why) }
{
    put_switch_head(page, on)?;
    put_each_to(alloc, page, &[], cases.as_slice(), files)?;
    put_switch_end(page, label)?;
    Ok(())
}

impl Piece for Stmt {
    ghost tokens = { λ stmt. stmt_tokens (stmt_of stmt) };

    #[tactic(auto, using(crate::proofs::Onto::onto_append))]
    fn put(&self, page: &mut Page) -> Result<(), Memory> {
        match self {
            Stmt::Label(name) => page.name_and(name, Tok::Colon),
            Stmt::Null => page.fixed(Tok::Semicolon),
            Stmt::Set(name, arg) => {
                page.name_and(name, Tok::Assign)?;
                arg.put(page)?;
                page.fixed(Tok::Semicolon)
            }
            Stmt::SetStar(name, e) => {
                page.fixed(Tok::Star)?;
                page.name_and(name, Tok::Assign)?;
                put_expression(page, e)?;
                page.fixed(Tok::Semicolon)
            }
            Stmt::Call(None, callee, args) => put_call(page, callee, args),
            Stmt::Call(Some(name), callee, args) => {
                page.name_and(name, Tok::Assign)?;
                put_call(page, callee, args)
            }
            Stmt::Goto(label) => put_goto(page, label),
            Stmt::If(operator, left, right, label) => put_if(page, *operator, left, right, label),
            Stmt::Switch(on, cases, label) => put_switch(page, on, cases, label),
            Stmt::ReturnNone => page.all_fixed(&[Tok::WordReturn, Tok::Semicolon]),
            Stmt::Return(arg) => {
                page.fixed(Tok::WordReturn)?;
                arg.put(page)?;
                page.fixed(Tok::Semicolon)
            }
        }
    }

    // A switch has a case for each label of a table, so the cases are put in pieces.
    fn put_to<F: Files>(
        &self,
        alloc: Global,
        page: &mut Page,
        files: &mut F,
    ) -> Result<(), WriteAnswer> {
        if let Stmt::Switch(on, cases, label) = self {
            return put_switch_to(alloc, page, on, cases, label, files);
        }
        self.put(page)?;
        put_full(alloc, page, files)
    }
}
