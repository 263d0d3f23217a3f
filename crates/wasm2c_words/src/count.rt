// How many functions are generated.
ghost use Rattle.std.specs.Prelude.{◌≡◌};
ghost use Rattle.wasm2c_words.specs.CommandLine.{count_of as count_of_text, in_range as in_range_of};

use program_words::is_decimal;

/// The number 1 to 20,000 that 1 to 5 decimal digits write. None for any other text.
pub(crate) fn count_of(text: &str) -> Option<u32>
    ensures { result ≡ count_of_text text.now }
{
    if !is_decimal(text.as_bytes(), 5) {
        return None;
    }
    match text.parse::<u32>() {
        Ok(count) => in_range(count),
        Err(_) => None,
    }
}

fn in_range(count: u32) -> Option<u32>
    ensures { result ≡ in_range_of count }
{
    if count >= 1 && count <= 20000 {
        Some(count)
    } else {
        None
    }
}
