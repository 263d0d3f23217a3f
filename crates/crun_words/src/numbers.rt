// Numbers as words.
ghost use Rattle.std.specs.Prelude.{◌≡◌, ◌^◌};
ghost use Rattle.crun_words.specs.Numbers.{number_below};

use c_lex::value;
use program_words::is_decimal;

/// The number below 2^64 that 1 to 20 decimal digits write, with leading zeros or without. None for any other text.
pub fn number(text: &[u8]) -> Option<u64>
    ensures { result ≡ number_below (2 ^ 64) text.now }
{
    if !is_decimal(text, 20) {
        return None;
    }
    value(text)
}
