// Fixed texts, and what a word is: a key word, a name, or wrong.
ghost use Rattle.std.specs.Prelude.{◌≡◌};
ghost use Rattle.std.specs.List.{list_any};
ghost use Rattle.std.specs.Str.{bytes_eq};
ghost use Rattle.c_tree.specs.Text as text;
ghost use Rattle.c_lex.specs.Fixed.{among, word_of};
ghost use Rattle.c_lex.specs.Front.{token_of};

use crate::token::Token;
use c_tree::{KEY_WORDS, Tok, is_other_word};

/// The first of these tokens whose text this is.
pub fn find(toks: &[Tok], text: &[u8]) -> Option<Tok>
    ensures { result ≡ among toks.now text.now }
{
    for tok in toks {
        if text == tok.text() {
            return Some(*tok);
        }
    }
    None
}

fn key_word(word: &[u8]) -> Option<Tok>
    ensures { result ≡ among text.key_words word.now }
{
    find(&KEY_WORDS, word)
}

/// What a word is that is no key word of the subset.
fn other_token(word: &[u8]) -> Token<'_>
    ensures { token_of result ≡ word_of (list_any (bytes_eq word.now) text.other_words) word.now None }
{
    if is_other_word(word) {
        Token::Wrong
    } else {
        Token::Named(word)
    }
}

/// What a word is.
pub fn word_token(word: &[u8]) -> Token<'_>
    ensures { token_of result ≡ text.word_token word.now }
{
    match key_word(word) {
        Some(tok) => Token::Fixed(tok),
        None => other_token(word),
    }
}
