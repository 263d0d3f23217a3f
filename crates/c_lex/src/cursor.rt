// A cursor over the tokens of a text. It cuts each when it comes to it.
ghost use Rattle.std.specs.Prelude.{◌≡◌, ◌<◌, ◌≤◌, ◌+◌, ◌^◌, length, false, Ok, OnOk, OnErr, IfOk};
ghost use Rattle.c_tree.specs.declared.token.Kind.TheVariants as kind;
ghost use Rattle.c_tree.specs.Tokens.{Fixed, same_tok};
ghost use Rattle.c_tree.specs.Text.{lexemes};
ghost use Rattle.c_tree.specs.Grammar.{first, others};
ghost use Rattle.c_lex.specs.Cursor.{is_last};
ghost use Rattle.c_lex.specs.Reading as spec;
ghost use Rattle.c_lex.specs.Reading.{Reads};

use crate::front::{Front, read_front};
use crate::number::{num, value};
use crate::token::Token;
use c_tree::{CReadFault, Kind, Name, Num, Part, Suffix, Tok, Wanted, name_of};
use std::alloc::Global;
use std::marker::Model;

/// The tokens that are left of a text, the end or the first wrong one last.
#[derive(Drop)]
pub struct Cursor<'a> {
    place: u64,
    token: Token<'a>,
    rest: &'a [u8],
    next: u64,
}

impl<'a> Model for Cursor<'a> {
    ghost use Rattle.std.specs.Prelude.{List};
    ghost use Rattle.c_tree.specs.Text.{Lexeme};

    ghost Value = { List Lexeme };

    ghost use Rattle.c_lex.specs.Cursor.{left, Fits};

    ghost view = { left };

    ghost invariant = { Fits };
}

impl<'a> Cursor<'a> {
    /// In front of the first token.
    pub fn new(text: &'a [u8]) -> Cursor<'a>
        requires { length text.now < 2 ^ 62 }
        ensures { result ≡ lexemes 0 0 text.now }
    {
        scan(text, 0)
    }

    /// What the next token is.
    #[tactic(auto, unfolding(crate::specs::Reading::next_kind))]
    pub fn peek(&self) -> Kind
        ensures { result ≡ spec.next_kind self.now }
    {
        match self.token {
            Token::Fixed(tok) => Kind::Fixed(tok),
            Token::Named(_) => Kind::Name,
            Token::Number(suffix, _) => Kind::Number(suffix),
            Token::Wrong => Kind::Wrong,
        }
    }

    #[tactic(auto, unfolding(crate::specs::Reading::unexpected))]
    fn unexpected(&self, wanted: Wanted) -> CReadFault
        ensures { result ≡ spec.unexpected wanted self.now }
    {
        CReadFault::Unexpected(self.place, wanted)
    }

    /// The fault of a part that the next token cannot begin.
    pub fn refuse(&self, part: Part) -> CReadFault
        ensures { result ≡ spec.unexpected (Wanted.Part part) self.now }
    {
        self.unexpected(Wanted::Part(part))
    }

    /// The fault where the next token would stand inside too many expressions.
    pub fn too_deep(&self) -> CReadFault
        ensures { result ≡ CReadFault.TooDeep (first self.now).place }
    {
        CReadFault::TooDeep(self.place)
    }

    /// Goes on to the next token.
    fn advance(&mut self)
        requires { is_last (first self.old).token ≡ false }
        ensures { self.new ≡ others self.old }
    {
        let rest = self.rest;
        let next = self.next;
        *self = scan(rest, next);
    }

    /// Takes the token that was seen to be next, of a fixed text.
    #[tactic(auto, using(crate::proofs::Seen::goes_on, crate::proofs::Seen::expected))]
    pub fn take(&mut self, _tok: Tok)
        requires seen { spec.next_kind self.old ≡ kind.Fixed _tok }
        requires more { is_last (Fixed _tok) ≡ false }
        ensures taken { spec.expect _tok self.old ≡ Ok (tt, self.new) }
        ensures shorter { length self.new < length self.old }
    {
        self.advance();
    }

    /// Takes a token of a fixed text. After a fault nothing is taken.
    #[tactic(auto, unfolding(crate::specs::Reading::expect, crate::specs::Reading::next_kind, crate::specs::Reading::unexpected))]
    pub fn expect(&mut self, tok: Tok) -> Result<(), CReadFault>
        requires { is_last (Fixed tok) ≡ false }
        ensures reads { Reads (λ x. x) (spec.expect tok self.old) result self.new }
        ensures unchanged { OnErr result (self.new ≡ self.old) }
        ensures shorter { OnOk result (length self.new < length self.old) }
        ensures kept { length self.new ≤ length self.old }
    {
        if let Token::Fixed(other) = self.token
            && same_tok(tok, other)
        {
            self.advance();
            return Ok(());
        }
        Err(self.unexpected(Wanted::Token(tok)))
    }

    /// Takes a name, and gives a copy of it. After a fault nothing is taken.
    #[tactic(auto, unfolding(crate::specs::Reading::name, crate::specs::Reading::unexpected))]
    pub fn name(&mut self, alloc: Global) -> Result<Name, CReadFault>
        ensures reads { Reads (λ x. x) (spec.name self.old) result self.new }
        ensures unchanged { OnErr result (self.new ≡ self.old) }
        ensures shorter { OnOk result (length self.new < length self.old) }
        ensures kept { length self.new ≤ length self.old }
    {
        let Token::Named(bytes) = self.token else {
            return Err(self.unexpected(Wanted::Token(Tok::Name)));
        };
        let name = name_of(alloc, bytes)?;
        self.advance();
        Ok(name)
    }

    /// Takes a number of any suffix. After a fault nothing is taken.
    #[tactic(auto, unfolding(crate::specs::Reading::number, crate::specs::Reading::unexpected))]
    pub fn number(&mut self) -> Result<Num, CReadFault>
        ensures reads { Reads (λ x. x) (spec.number self.old) result self.new }
        ensures unchanged { OnErr result (self.new ≡ self.old) }
        ensures shorter { OnOk result (length self.new < length self.old) }
        ensures kept { length self.new ≤ length self.old }
    {
        let Token::Number(suffix, digits) = self.token else {
            return Err(self.refuse(Part::InNumber));
        };
        let Some(n) = value(digits) else {
            return Err(CReadFault::NumberTooLarge(self.place));
        };
        let Some(num) = num(suffix, n) else {
            return Err(CReadFault::NumberTooLarge(self.place));
        };
        self.advance();
        Ok(num)
    }

    /// Takes a number without a suffix, below another one. After a fault nothing is taken.
    #[tactic(auto, unfolding(crate::specs::Reading::plain, crate::specs::Reading::unexpected))]
    pub fn plain(&mut self, above: u64) -> Result<u64, CReadFault>
        ensures reads { Reads (λ x. x) (spec.plain above self.old) result self.new }
        ensures unchanged { OnErr result (self.new ≡ self.old) }
        ensures below { IfOk result (λ n. n < above) }
        ensures shorter { OnOk result (length self.new < length self.old) }
        ensures kept { length self.new ≤ length self.old }
    {
        let Token::Number(Suffix::OfPlain, digits) = self.token else {
            return Err(self.unexpected(Wanted::Token(Tok::Plain)));
        };
        let Some(n) = value(digits) else {
            return Err(CReadFault::NumberTooLarge(self.place));
        };
        if n >= above {
            return Err(CReadFault::NumberTooLarge(self.place));
        }
        self.advance();
        Ok(n)
    }
}

fn same_tok(a: Tok, b: Tok) -> bool
    ensures { result ≡ same_tok a b }
{
    a == b
}

/// The tokens of a text that stands at a place.
#[tactic(auto, using(crate::proofs::Scanned::at_end, crate::proofs::Scanned::behind_gap, crate::proofs::Scanned::at_token))]
fn scan(text: &[u8], place: u64) -> Cursor<'_>
    requires { place + length text.now < 2 ^ 63 }
    ensures { result ≡ lexemes 0 place text.now }
{
    let mut rest = text;
    let mut at = place;
    'gaps: while !rest.is_empty() {
        match read_front(rest) {
            Front::Gap(n) => {
                (_, rest) = rest.split_at(n + 1);
                at += n as u64 + 1;
            }
            Front::Begins(token, n) => {
                let (_, behind) = rest.split_at(n + 1);
                return Cursor {
                    place: at,
                    token,
                    rest: behind,
                    next: at + n as u64 + 1,
                };
            }
        }
    }
    Cursor {
        place: at,
        token: Token::Fixed(Tok::End),
        rest,
        next: at,
    }
}
