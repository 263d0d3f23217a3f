// The value of a number's digits.
ghost use Rattle.std.specs.Prelude.{◌≡◌, ◌<◌, ◌≤◌, ◌^◌, IfSome, IfNone};
ghost use Rattle.c_tree.specs.Grammar.{limit, value_of};
ghost use Rattle.c_lex.specs.Reading.{num_of};

use c_tree::{Num, Suffix};

/// The number that decimal digits write, with leading zeros or without (C11, 6.4.4.1). None where it is not below 2^64.
#[tactic(auto, using(crate::proofs::Digits::value_step, crate::proofs::Digits::value_grows))]
pub fn value(digits: &[u8]) -> Option<u64>
    ensures some { IfSome result (λ n. n ≡ value_of 0 digits.now) }
    ensures none { IfNone result (2 ^ 64 ≤ value_of 0 digits.now) }
{
    let mut n: u64 = 0;
    for digit in digits {
        let Some(tens) = n.checked_mul(10) else {
            return None;
        };
        let Some(more) = tens.checked_add(u64::from(digit.saturating_sub(48))) else {
            return None;
        };
        n = more;
    }
    Some(n)
}

/// A number of a suffix, where it is below the suffix's limit.
pub fn num(suffix: Suffix, n: u64) -> Option<Num>
    ensures some { IfSome result (λ num. (n < limit suffix) × (num ≡ num_of suffix n)) }
    ensures none { IfNone result (limit suffix ≤ n) }
{
    match suffix {
        Suffix::Of64 => Some(Num::N64(n)),
        Suffix::Of32 if n <= 0xffff_ffff => Some(Num::N32(n as u32)),
        Suffix::OfPlain if n <= 0xffff_ffff => Some(Num::Plain(n)),
        _ => None,
    }
}
