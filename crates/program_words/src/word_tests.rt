// What a word must be.
ghost use Rattle.std.specs.Prelude.{◌≡◌};
ghost use Rattle.std.specs.List.{list_all};
ghost use Rattle.std.specs.Char.{is_ascii_digit};
ghost use Rattle.program_words.specs.Tests.{is_decimal as is_decimal_text, is_module_name as is_name_of_module};

use w2c_base::NAME_LENGTH;

/// Whether a text has 1 to `most` bytes, all of them decimal digits.
pub fn is_decimal(text: &[u8], most: usize) -> bool
    ensures { result ≡ is_decimal_text most text.now }
{
    !text.is_empty() && text.len() <= most && are_digits(text)
}

fn are_digits(text: &[u8]) -> bool
    ensures { result ≡ list_all is_ascii_digit text.now }
{
    text.iter().all(|byte| is_digit(*byte))
}

fn is_digit(byte: u8) -> bool
    ensures { result ≡ is_ascii_digit byte }
{
    byte.is_ascii_digit()
}

/// Whether a module may have a name: it has 1 to 1,024 bytes.
pub fn is_module_name(name: &[u8]) -> bool
    ensures { result ≡ is_name_of_module name.now }
{
    !name.is_empty() && name.len() <= NAME_LENGTH as usize
}
