// What stands at the front of a text: a gap or a token.
ghost use Rattle.std.specs.Prelude.{◌≡◌, ◌<◌, ◌≤◌, ◌+◌, length, take, drop, slice_index, true, IfSome, ◌==◌, ◌&&◌};
ghost use Rattle.std.specs.List.{list_all};
ghost use Rattle.c_tree.specs.Text as text;
ghost use Rattle.c_lex.specs.Fixed.{sign_of};
ghost use Rattle.c_lex.specs.Front.{token_of, in_class, front_of, is_within};

use crate::token::Token;
use crate::word::{find, word_token};
use c_tree::{Suffix, Tok};

/// The signs of one byte.
const SHORT_SIGNS: [Tok; 20] = [
    Tok::LeftParen,
    Tok::RightParen,
    Tok::LeftBrace,
    Tok::RightBrace,
    Tok::LeftBracket,
    Tok::RightBracket,
    Tok::Semicolon,
    Tok::Comma,
    Tok::Colon,
    Tok::Assign,
    Tok::Star,
    Tok::Amp,
    Tok::Plus,
    Tok::Minus,
    Tok::Slash,
    Tok::Percent,
    Tok::Bar,
    Tok::Caret,
    Tok::Less,
    Tok::Greater,
];

/// The signs of two bytes.
const LONG_SIGNS: [Tok; 6] = [
    Tok::ShiftLeft,
    Tok::ShiftRight,
    Tok::Equal,
    Tok::NotEqual,
    Tok::LessEqual,
    Tok::GreaterEqual,
];

/// A class of bytes.
#[derive(Clone, Copy)]
pub enum Class {
    WordByte,
    Digit,
}

/// A gap or a token, with the number of its bytes but one.
#[derive(Clone, Copy)]
pub enum Front<'a> {
    Gap(usize),
    Begins(Token<'a>, usize),
}

fn is_digit(byte: u8) -> bool
    ensures { result ≡ text.is_digit byte }
{
    byte >= b'0' && byte <= b'9'
}

fn is_letter(byte: u8) -> bool
    ensures { result ≡ text.is_letter byte }
{
    (byte >= b'a' && byte <= b'z') || (byte >= b'A' && byte <= b'Z') || byte == b'_'
}

fn is_blank(byte: u8) -> bool
    ensures { result ≡ text.is_blank byte }
{
    byte == b' ' || (byte >= 9 && byte <= 13)
}

fn is_comment_byte(byte: u8) -> bool
    ensures { result ≡ text.is_comment_byte byte }
{
    byte == b'\n' || (byte >= 32 && byte <= 126 && !(byte == b'\\' || byte == b'?'))
}

fn is_in(class: Class, byte: u8) -> bool
    ensures { result ≡ in_class class byte }
{
    match class {
        Class::WordByte => is_letter(byte) || is_digit(byte),
        Class::Digit => is_digit(byte),
    }
}

/// How many bytes in front are of a class.
#[tactic(auto, using(crate::proofs::Runs::run_more, crate::proofs::Runs::run_stops, crate::proofs::Runs::run_ends))]
fn run_len(class: Class, bytes: &[u8]) -> usize
    ensures taken { take result bytes.now ≡ text.run (in_class class) bytes.now }
    ensures within { result ≤ length bytes.now }
{
    for (i, byte) in bytes.iter().enumerate() {
        if !is_in(class, *byte) {
            return i;
        }
    }
    bytes.len()
}

fn all_digits(digits: &[u8]) -> bool
    ensures { result ≡ list_all text.is_digit digits.now }
{
    digits.iter().all(|digit| is_digit(*digit))
}

/// Whether these are decimal digits with no leading zero but in 0.
#[tactic(auto, using(crate::proofs::Runs::no_digits, crate::proofs::Runs::one_digit, crate::proofs::Runs::more_digits))]
fn are_digits(digits: &[u8]) -> bool
    ensures { result ≡ text.are_digits digits.now }
{
    if digits.is_empty() {
        return false;
    }
    if digits.len() == 1 {
        return is_digit(digits[0]);
    }
    let rest = all_digits(&digits[1..]);
    is_digit(digits[0]) && digits[0] != b'0' && rest
}

fn number_token<'a>(digits: &'a [u8], suffix: &[u8]) -> Token<'a>
    ensures { token_of result ≡ text.number_token digits.now suffix.now }
{
    if !are_digits(digits) {
        Token::Wrong
    } else if suffix == b"".as_slice() {
        Token::Number(Suffix::OfPlain, digits)
    } else if suffix == b"u".as_slice() {
        Token::Number(Suffix::Of32, digits)
    } else if suffix == b"ull".as_slice() {
        Token::Number(Suffix::Of64, digits)
    } else {
        Token::Wrong
    }
}

/// What a run that begins with a digit is.
#[tactic(auto, using(crate::proofs::Runs::past_is))]
fn run_token(bytes: &[u8]) -> Token<'_>
    ensures { token_of result ≡ text.run_token bytes.now }
{
    let n = run_len(Class::Digit, bytes);
    let (digits, suffix) = bytes.split_at(n);
    number_token(digits, suffix)
}

fn closes_comment(first: u8, second: u8) -> bool
    ensures { result ≡ ((first == 42) && (second == 47)) }
{
    first == b'*' && second == b'/'
}

/// The length of a comment up to its end, behind what opens it. None where it is not closed, or
/// holds a byte that it may not.
#[tactic(auto, using(crate::proofs::Runs::comment_short, crate::proofs::Runs::comment_closed, crate::proofs::Runs::comment_more, crate::proofs::Runs::comment_bad))]
fn comment_end(bytes: &[u8]) -> Option<usize>
    ensures value { result ≡ text.comment_end bytes.now }
    ensures within { IfSome result (λ n. n ≤ length bytes.now) }
{
    let mut i = 0;
    while i + 1 < bytes.len() {
        if closes_comment(bytes[i], bytes[i + 1]) {
            return Some(i + 2);
        }
        if !is_comment_byte(bytes[i]) {
            return None;
        }
        i += 1;
    }
    None
}

fn comment_front<'a>(bytes: &[u8]) -> Front<'a>
    ensures value { front_of result ≡ text.comment_front (text.comment_end bytes.now) }
    ensures within { is_within result (length bytes.now + 2) }
{
    match comment_end(bytes) {
        None => Front::Begins(Token::Wrong, 0),
        Some(n) => Front::Gap(n + 1),
    }
}

fn opens_comment(first: u8, second: u8) -> bool
    ensures { result ≡ ((first == 47) && (second == 42)) }
{
    first == b'/' && second == b'*'
}

fn sign<'a>(found: Option<Tok>) -> Token<'a>
    ensures { token_of result ≡ sign_of found }
{
    match found {
        Some(tok) => Token::Fixed(tok),
        None => Token::Wrong,
    }
}

/// The sign of one byte.
fn one_sign<'a>(byte: u8) -> Token<'a>
    ensures { token_of result ≡ text.one_sign byte }
{
    sign(find(&SHORT_SIGNS, &[byte]))
}

/// The sign of two bytes.
fn two_sign(first: u8, second: u8) -> Option<Tok>
    ensures { sign_of result ≡ text.two_sign first second }
{
    find(&LONG_SIGNS, &[first, second])
}

/// A sign as long as possible, or a comment.
#[tactic(auto, using(crate::proofs::Runs::sign_last, crate::proofs::Runs::sign_more))]
fn sign_front<'a>(first: u8, rest: &[u8]) -> Front<'a>
    ensures value { front_of result ≡ text.sign_front first rest.now }
    ensures within { is_within result (length rest.now + 1) }
{
    if rest.is_empty() {
        return Front::Begins(one_sign(first), 0);
    }
    if opens_comment(first, rest[0]) {
        return comment_front(&rest[1..]);
    }
    match two_sign(first, rest[0]) {
        Some(tok) => Front::Begins(Token::Fixed(tok), 1),
        None => Front::Begins(one_sign(first), 0),
    }
}

fn is_include(bytes: &[u8]) -> bool
    ensures value { result ≡ text.is_include bytes.now }
    ensures long { result ≡ true → 20 ≤ length bytes.now }
{
    bytes.len() >= 20 && &bytes[..20] == Tok::Include.text()
}

/// What stands at the front of a text that is not empty.
#[tactic(auto, using(crate::proofs::Runs::front_cons))]
pub fn read_front(bytes: &[u8]) -> Front<'_>
    requires { 0 < length bytes.now }
    ensures value { front_of result ≡ text.front (slice_index bytes.now 0) (drop 1 bytes.now) }
    ensures within { is_within result (length bytes.now) }
{
    let first = bytes[0];
    let (_, rest) = bytes.split_at(1);
    if is_blank(first) {
        return Front::Gap(0);
    }
    if is_letter(first) {
        let n = run_len(Class::WordByte, rest);
        return Front::Begins(word_token(&bytes[..n + 1]), n);
    }
    if is_digit(first) {
        let n = run_len(Class::WordByte, rest);
        return Front::Begins(run_token(&bytes[..n + 1]), n);
    }
    if first != b'#' {
        return sign_front(first, rest);
    }
    if is_include(bytes) {
        Front::Begins(Token::Fixed(Tok::Include), 19)
    } else {
        Front::Begins(Token::Wrong, 0)
    }
}
