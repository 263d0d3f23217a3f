// Numbers in a file's bytes, from a place on and before the end of a window.
ghost use Rattle.std.specs.Prelude.{◌≡◌, ◌≤◌, IfOk, length, slice_range};
ghost use Rattle.w2c_base.specs.SpelledNumber.{SpellsSigned, SpellsUnsigned};
ghost use Rattle.leb_bytes.specs.Computed.{s32_of, s64_of, u32_of};
ghost use Rattle.leb_bytes.specs.Reading.{AnswersSigned, AnswersUnsigned, counted, placed};

use crate::{LebFault, front_s32, front_s64, front_u32};

/// The 32-bit number without sign that is spelled from `at` on and before `end`, and the place
/// after it (WebAssembly Core 1.0, 5.2.2). It may be padded, up to 5 bytes.
///
/// # Errors
///
/// `Ends` where fewer than 5 bytes stand before `end` and none of them ends the number, `TooLong`
/// where none of the first 5 does, and `Unused` where the fifth ends it and has a bit past the 32.
pub fn read_u32(bytes: &[u8], at: usize, end: usize) -> Result<(u32, usize), LebFault>
    requires order { at ≤ end }
    requires within { end ≤ length bytes.now }
    ensures spelled { IfOk result (λ x. SpellsUnsigned 32 (slice_range bytes.now at x.1) x.0) }
    ensures exact { AnswersUnsigned 32 (slice_range bytes.now at end) (counted at result) }
    ensures computed { result ≡ placed at (u32_of (slice_range bytes.now at end)) }
{
    let (number, count) = front_u32(&bytes[at..end])?;
    Ok((number, at + count))
}

/// The signed 32-bit number that is spelled from `at` on and before `end`, and the place after it
/// (WebAssembly Core 1.0, 5.2.2). It may be padded, up to 5 bytes.
///
/// # Errors
///
/// As for `read_u32`, but the fifth byte's bits past the 32 must be copies of the sign.
pub fn read_s32(bytes: &[u8], at: usize, end: usize) -> Result<(i32, usize), LebFault>
    requires order { at ≤ end }
    requires within { end ≤ length bytes.now }
    ensures spelled { IfOk result (λ x. SpellsSigned 32 (slice_range bytes.now at x.1) x.0) }
    ensures exact { AnswersSigned 32 (slice_range bytes.now at end) (counted at result) }
    ensures computed { result ≡ placed at (s32_of (slice_range bytes.now at end)) }
{
    let (number, count) = front_s32(&bytes[at..end])?;
    Ok((number, at + count))
}

/// The signed 64-bit number that is spelled from `at` on and before `end`, and the place after it
/// (WebAssembly Core 1.0, 5.2.2). It may be padded, up to 10 bytes.
///
/// # Errors
///
/// As for `read_s32`, with 10 bytes and 64 bits.
pub fn read_s64(bytes: &[u8], at: usize, end: usize) -> Result<(i64, usize), LebFault>
    requires order { at ≤ end }
    requires within { end ≤ length bytes.now }
    ensures spelled { IfOk result (λ x. SpellsSigned 64 (slice_range bytes.now at x.1) x.0) }
    ensures exact { AnswersSigned 64 (slice_range bytes.now at end) (counted at result) }
    ensures computed { result ≡ placed at (s64_of (slice_range bytes.now at end)) }
{
    let (number, count) = front_s64(&bytes[at..end])?;
    Ok((number, at + count))
}
