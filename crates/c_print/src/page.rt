// The text so far, and the tokens that are put at its end.
ghost use Rattle.std.specs.Prelude.{◌≡◌, [], ◌∷◌, ◌++◌, map, option_to_list, OnOk};
ghost use Rattle.std.specs.Fmt.{decimal};
ghost use Rattle.c_tree.specs.declared.token.Tok.TheVariants as tok;
ghost use Rattle.c_tree.specs.declared.token.Kind.TheVariants as kind;
ghost use Rattle.c_tree.specs.Tokens.{Fixed, Named};
ghost use Rattle.c_tree.specs.Trees.{num_token};
ghost use Rattle.c_print.specs.Print.{opens, ends_line, closes, ends_block, is_named, begins_list, gap};

use c_tree::{Kind, Name, Num, Suffix, Tok};
use itoa::Buffer;
use std::alloc::Global;
use w2c_base::{Bytes, Memory};

/// A text with the kind of its last token, on which the gap in front of the next one hangs.
#[derive(Drop)]
pub struct Page {
    pub text: Bytes,
    pub last: Kind,
}

impl Page {
    ghost use Rattle.c_print.specs.Page.{printed, printed_onto, ended};

    /// No text yet. What is put first has no gap in front of it, as behind an include line.
    pub fn new(alloc: Global) -> Page
        ensures { result ≡ record { text = []; last = kind.Fixed tok.Include } }
    {
        Page {
            text: Bytes::new(alloc),
            last: Kind::Fixed(Tok::Include),
        }
    }

    fn put(&mut self, next: Kind, text: &[u8]) -> Result<(), Memory>
        ensures { OnOk result (self.new ≡ record { text = (self.old.text ++ gap self.old.last next) ++ text.now; last = next }) }
    {
        put_gap(&mut self.text, self.last, next)?;
        self.text.extend(text)?;
        self.last = next;
        Ok(())
    }

    /// A key word, a sign or the include line.
    #[tactic(auto, unfolding(crate::specs::Page::printed))]
    pub fn fixed(&mut self, t: Tok) -> Result<(), Memory>
        ensures { OnOk result (self.new ≡ printed self.old (Fixed t)) }
    {
        self.put(Kind::Fixed(t), t.text())
    }

    /// Key words and signs in order.
    pub fn all_fixed(&mut self, tokens: &[Tok]) -> Result<(), Memory>
        ensures { OnOk result (self.new ≡ printed_onto self.old (map Fixed tokens.now)) }
    {
        for t in tokens {
            self.fixed(*t)?;
        }
        Ok(())
    }

    /// A name with a sign behind it.
    pub fn name_and(&mut self, name: &Name, sign: Tok) -> Result<(), Memory>
        ensures { OnOk result (self.new ≡ printed_onto self.old (Named name.now ∷ Fixed sign ∷ [])) }
    {
        self.name(name)?;
        self.fixed(sign)
    }

    #[tactic(auto, unfolding(crate::specs::Page::printed))]
    pub fn name(&mut self, name: &Name) -> Result<(), Memory>
        ensures { OnOk result (self.new ≡ printed self.old (Named name.now)) }
    {
        self.put(Kind::Name, name.as_slice())
    }

    #[tactic(auto, unfolding(crate::specs::Page::printed))]
    pub fn number(&mut self, n: Num) -> Result<(), Memory>
        ensures { OnOk result (self.new ≡ printed self.old (num_token n)) }
    {
        match n {
            Num::N32(n) => self.digits(n as u64, Suffix::Of32, b"u"),
            Num::N64(n) => self.digits(n, Suffix::Of64, b"ull"),
            Num::Plain(n) => self.digits(n, Suffix::OfPlain, b""),
        }
    }

    fn digits(&mut self, n: u64, suffix: Suffix, text: &[u8]) -> Result<(), Memory>
        ensures { OnOk result (self.new ≡ record { text = (self.old.text ++ gap self.old.last (Kind.Number suffix)) ++ (decimal n ++ text.now); last = Kind.Number suffix }) }
    {
        let mut buffer = Buffer::new();
        self.put(Kind::Number(suffix), buffer.format(n).as_bytes())?;
        self.text.extend(text)
    }

    /// A newline behind an item.
    #[tactic(auto, unfolding(crate::specs::Page::ended))]
    pub fn end(&mut self) -> Result<(), Memory>
        ensures { OnOk result (self.new ≡ ended self.old) }
    {
        self.text.push(b'\n')?;
        self.last = Kind::Fixed(Tok::Include);
        Ok(())
    }
}

#[tactic(auto, using(crate::proofs::Gaps::no_gap, crate::proofs::Gaps::one_gap))]
fn put_gap(text: &mut Bytes, last: Kind, next: Kind) -> Result<(), Memory>
    ensures { OnOk result (text.new ≡ text.old ++ gap last next) }
{
    match gap(last, next) {
        None => Ok(()),
        Some(byte) => {
            text.push(byte)?;
            Ok(())
        }
    }
}

fn gap(last: Kind, next: Kind) -> Option<u8>
    ensures { option_to_list result ≡ gap last next }
{
    if opens(last) {
        None
    } else if ends_line(last) {
        Some(b'\n')
    } else if ends_block(last, next) {
        Some(b'\n')
    } else if closes(next) {
        None
    } else if is_named(last) && begins_list(next) {
        None
    } else {
        Some(b' ')
    }
}

fn opens(kind: Kind) -> bool
    ensures { result ≡ opens kind }
{
    matches!(
        kind,
        Kind::Fixed(Tok::Include | Tok::LeftParen | Tok::LeftBracket)
    )
}

fn ends_line(kind: Kind) -> bool
    ensures { result ≡ ends_line kind }
{
    matches!(kind, Kind::Fixed(Tok::Semicolon | Tok::LeftBrace))
}

fn closes(kind: Kind) -> bool
    ensures { result ≡ closes kind }
{
    matches!(
        kind,
        Kind::Fixed(
            Tok::RightParen
                | Tok::RightBracket
                | Tok::RightBrace
                | Tok::Semicolon
                | Tok::Comma
                | Tok::Colon
        )
    )
}

fn ends_block(last: Kind, next: Kind) -> bool
    ensures { result ≡ ends_block last next }
{
    match (last, next) {
        (Kind::Fixed(Tok::RightBrace), Kind::Fixed(Tok::Semicolon)) => false,
        (Kind::Fixed(Tok::RightBrace), _) => true,
        _ => false,
    }
}

fn is_named(kind: Kind) -> bool
    ensures { result ≡ is_named kind }
{
    matches!(kind, Kind::Name)
}

fn begins_list(kind: Kind) -> bool
    ensures { result ≡ begins_list kind }
{
    matches!(kind, Kind::Fixed(Tok::LeftParen | Tok::LeftBracket))
}
