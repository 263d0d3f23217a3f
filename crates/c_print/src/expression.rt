// Types, operators, expressions and arguments.
ghost use Rattle.std.specs.Prelude.{◌≡◌, [], ◌∷◌, OnOk};
ghost use Rattle.c_tree.specs.declared.token.Tok.TheVariants as tok;
ghost use Rattle.c_tree.specs.Tokens.{Fixed};
ghost use Rattle.c_tree.specs.Trees.{type_tokens, op_token, expr_tokens, arg_tokens};
ghost use Rattle.c_tree.specs.View.{expr_of, arg_of};
ghost use Rattle.c_print.specs.Page.{printed, printed_onto};

use crate::page::Page;
use crate::pieces::Piece;
use c_tree::{Arg, COp, CType, Expr, Tok};
use w2c_base::Memory;

impl Piece for CType {
    ghost tokens = { type_tokens };

    fn put(&self, page: &mut Page) -> Result<(), Memory> {
        match self {
            CType::Void => page.fixed(Tok::WordVoid),
            CType::U32 => page.fixed(Tok::WordU32),
            CType::U64 => page.fixed(Tok::WordU64),
            CType::Mem => page.fixed(Tok::WordW2cMem),
            CType::Tab => page.fixed(Tok::WordW2cTab),
            CType::FnPtr => page.fixed(Tok::WordW2cFn),
            CType::PtrU32 => put_pointer(page, Tok::WordU32),
            CType::PtrU64 => put_pointer(page, Tok::WordU64),
            CType::PtrMem => put_pointer(page, Tok::WordW2cMem),
            CType::PtrTab => put_pointer(page, Tok::WordW2cTab),
        }
    }
}

fn put_pointer(page: &mut Page, to: Tok) -> Result<(), Memory>
    ensures { OnOk result (page.new ≡ printed_onto page.old (Fixed to ∷ Fixed tok.Star ∷ [])) }
{
    page.fixed(to)?;
    page.fixed(Tok::Star)
}

pub fn put_operator(page: &mut Page, operator: COp) -> Result<(), Memory>
    ensures { OnOk result (page.new ≡ printed page.old (op_token operator)) }
{
    page.fixed(match operator {
        COp::Add => Tok::Plus,
        COp::Sub => Tok::Minus,
        COp::Mul => Tok::Star,
        COp::Div => Tok::Slash,
        COp::Rem => Tok::Percent,
        COp::And => Tok::Amp,
        COp::Or => Tok::Bar,
        COp::Xor => Tok::Caret,
        COp::Shl => Tok::ShiftLeft,
        COp::Shr => Tok::ShiftRight,
        COp::Eq => Tok::Equal,
        COp::Ne => Tok::NotEqual,
        COp::Lt => Tok::Less,
        COp::Le => Tok::LessEqual,
        COp::Gt => Tok::Greater,
        COp::Ge => Tok::GreaterEqual,
    })
}

#[tactic(auto, using(crate::proofs::Onto::onto_append))]
pub fn put_expression(page: &mut Page, e: &Expr) -> Result<(), Memory>
    ensures { OnOk result (page.new ≡ printed_onto page.old (expr_tokens (expr_of e.now))) }
{
    match e {
        Expr::Name(name) => page.name(name),
        Expr::At(name, index) => {
            page.name_and(name, Tok::LeftBracket)?;
            put_expression(page, index)?;
            page.fixed(Tok::RightBracket)
        }
        Expr::Num(n) => page.number(*n),
        Expr::To32(inner) => {
            put_cast(page, Tok::WordU32)?;
            put_expression(page, inner)
        }
        Expr::To64(inner) => {
            put_cast(page, Tok::WordU64)?;
            put_expression(page, inner)
        }
        Expr::Star(name) => {
            page.all_fixed(&[Tok::LeftParen, Tok::Star])?;
            page.name_and(name, Tok::RightParen)
        }
        Expr::Op(operator, left, right) => {
            page.fixed(Tok::LeftParen)?;
            put_expression(page, left)?;
            put_operator(page, *operator)?;
            put_expression(page, right)?;
            page.fixed(Tok::RightParen)
        }
    }
}

fn put_cast(page: &mut Page, to: Tok) -> Result<(), Memory>
    ensures { OnOk result (page.new ≡ printed_onto page.old (Fixed tok.LeftParen ∷ Fixed to ∷ Fixed tok.RightParen ∷ [])) }
{
    page.fixed(Tok::LeftParen)?;
    page.fixed(to)?;
    page.fixed(Tok::RightParen)
}

impl Piece for Arg {
    ghost tokens = { λ arg. arg_tokens (arg_of arg) };

    fn put(&self, page: &mut Page) -> Result<(), Memory> {
        match self {
            Arg::Value(e) => put_expression(page, e),
            Arg::Address(name) => {
                page.fixed(Tok::Amp)?;
                page.name(name)
            }
            Arg::Function(name) => {
                put_cast(page, Tok::WordW2cFn)?;
                page.name(name)
            }
        }
    }
}
