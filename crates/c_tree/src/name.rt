// Which words are names, and whose names.
ghost use Rattle.std.specs.Prelude.{◌≡◌, ◌≢◌, ◌^◌, ◌<◌, ℕ, true, List, ◌∷◌, ◌++◌, codes, map};
ghost use Rattle.std.specs.Fmt.{decimal};
ghost use Rattle.std.specs.List.{list_all, list_any};
ghost use Rattle.std.specs.Str.{bytes_eq};
ghost use Rattle.c_tree.specs.Rules.{is_own_name, is_symbol};
ghost use Rattle.c_tree.specs.Text.{is_letter, is_word_byte, other_words};
ghost use Rattle.c_tree.specs.Tokens.{fixed_text};
ghost use Rattle.c_tree.specs.WellFormed.{is_key_word, is_name, IsName};

use crate::token::Tok;

/// The key words of the subset.
pub const KEY_WORDS: [Tok; 15] = [
    Tok::WordStatic,
    Tok::WordConst,
    Tok::WordVoid,
    Tok::WordU8,
    Tok::WordU32,
    Tok::WordU64,
    Tok::WordW2cMem,
    Tok::WordW2cTab,
    Tok::WordW2cFn,
    Tok::WordGoto,
    Tok::WordIf,
    Tok::WordSwitch,
    Tok::WordCase,
    Tok::WordDefault,
    Tok::WordReturn,
];

/// The other key words of C11 (6.4.1).
const OTHER_WORDS: [&[u8]; 35] = [
    b"auto",
    b"break",
    b"char",
    b"continue",
    b"do",
    b"double",
    b"else",
    b"enum",
    b"extern",
    b"float",
    b"for",
    b"inline",
    b"int",
    b"long",
    b"register",
    b"restrict",
    b"short",
    b"signed",
    b"sizeof",
    b"struct",
    b"typedef",
    b"union",
    b"unsigned",
    b"volatile",
    b"while",
    b"_Alignas",
    b"_Alignof",
    b"_Atomic",
    b"_Bool",
    b"_Complex",
    b"_Generic",
    b"_Imaginary",
    b"_Noreturn",
    b"_Static_assert",
    b"_Thread_local",
];

/// Letters, digits and `_`, not beginning with a digit, and no key word.
pub fn is_name(name: &[u8]) -> bool
    ensures { result ≡ is_name name.now }
{
    match name {
        [] => false,
        [first, rest @ ..] => is_letter(*first) && are_word_bytes(rest) && !is_key_word(name),
    }
}

fn is_key_word(word: &[u8]) -> bool
    ensures { result ≡ is_key_word word.now }
{
    is_text_among(word, &KEY_WORDS) || is_other_word(word)
}

// Whether a word is the text of one of these tokens.
fn is_text_among(word: &[u8], toks: &[Tok]) -> bool
    ensures { result ≡ list_any (bytes_eq word.now) (map fixed_text toks.now) }
{
    for tok in toks {
        if word == tok.text() {
            return true;
        }
    }
    false
}

/// Whether a word is one of the other key words of C11 (6.4.1).
pub fn is_other_word(word: &[u8]) -> bool
    ensures { result ≡ list_any (bytes_eq word.now) other_words }
{
    is_among(word, &OTHER_WORDS)
}

fn is_among(word: &[u8], words: &[&[u8]]) -> bool
    ensures { result ≡ list_any (λ other. bytes_eq word.now other.now) words.now }
{
    for other in words {
        if word == *other {
            return true;
        }
    }
    false
}

fn are_word_bytes(bytes: &[u8]) -> bool
    ensures { result ≡ list_all is_word_byte bytes.now }
{
    for byte in bytes {
        if !is_word_byte(*byte) {
            return false;
        }
    }
    true
}

fn is_word_byte(byte: u8) -> bool
    ensures { result ≡ is_word_byte byte }
{
    is_letter(byte) || (48 <= byte && byte <= 57)
}

fn is_letter(byte: u8) -> bool
    ensures { result ≡ is_letter byte }
{
    (97 <= byte && byte <= 122) || (65 <= byte && byte <= 90) || byte == 95
}

/// The runtime's one variable.
pub const DEPTH_NAME: &[u8] = b"w2c_depth";

/// Whether a name is that of the runtime's one variable.
pub fn is_depth(name: &[u8]) -> bool
    ensures { result ≡ bytes_eq name.now (codes "w2c_depth") }
{
    name == DEPTH_NAME
}

/// Whether a name is not reserved for the runtime or for other units.
pub fn is_own_name(name: &[u8]) -> bool
    ensures { result ≡ is_own_name name.now }
{
    !name.starts_with(b"w2c_") && !is_symbol(name)
}

/// Whether a name is reserved for what other units see.
pub fn is_symbol(name: &[u8]) -> bool
    ensures { result ≡ is_symbol name.now }
{
    name.starts_with(b"w2cZ_")
}

/// The law that two kinds of words are names: a letter other than `u` and `w` with a number behind
/// it, and `w2cZ_` with letters, digits and `_` behind it.
pub fn words_that_are_names()
    ensures numbered { (letter number : ℕ) → is_letter letter ≡ true → letter ≢ 117 → letter ≢ 119
        → number < 2 ^ 64 → IsName (letter ∷ decimal number) }
    ensures external { (rest : List ℕ) → list_all is_word_byte rest ≡ true → IsName (codes "w2cZ_" ++ rest) }
{}
