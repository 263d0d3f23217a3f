// Numbers at the front of a window of bytes, which is all that a call may read.
ghost use Rattle.std.specs.Prelude.{◌≡◌, ℕ, ◌+◌, ◌*◌, ◌^◌, ◌<◌, ◌≤◌, IfSome, length, get_or};
ghost use Rattle.w2c_base.specs.SpelledNumber.{signed_sum};
ghost use Rattle.leb_bytes.specs.Computed.{s32_of, s64_of, u32_of};
ghost use Rattle.leb_bytes.specs.Reading.{Answers, AnswersSigned, AnswersUnsigned};
ghost use Rattle.leb_bytes.specs.Run.{IsRunOf, NeverWrong};

use crate::LebFault;

/// The 32-bit number without sign at the front, and how many bytes it takes (WebAssembly Core 1.0,
/// 5.2.2). Its errors are those of `read_u32`.
pub fn front_u32(window: &[u8]) -> Result<(u32, usize), LebFault>
    ensures exact { AnswersUnsigned 32 window.now result }
    ensures computed { result ≡ u32_of window.now }
{
    match only_byte(window, 0x80) {
        Some(byte) => Ok((u32::from(byte), 1)),
        None => any_u32(window),
    }
}

/// The signed 32-bit number at the front, and how many bytes it takes (WebAssembly Core 1.0, 5.2.2).
/// Its errors are those of `read_s32`.
pub fn front_s32(window: &[u8]) -> Result<(i32, usize), LebFault>
    ensures exact { AnswersSigned 32 window.now result }
    ensures computed { result ≡ s32_of window.now }
{
    match only_byte(window, 0x40) {
        Some(byte) => Ok((i32::from(byte), 1)),
        None => any_s32(window),
    }
}

/// The signed 64-bit number at the front, and how many bytes it takes (WebAssembly Core 1.0, 5.2.2).
/// Its errors are those of `read_s64`.
pub fn front_s64(window: &[u8]) -> Result<(i64, usize), LebFault>
    ensures exact { AnswersSigned 64 window.now result }
    ensures computed { result ≡ s64_of window.now }
{
    match only_byte(window, 0x40) {
        Some(byte) => Ok((i64::from(byte), 1)),
        None => any_s64(window),
    }
}

// The byte at the front, where it is below a bound. Most numbers of a module are of one byte.
fn only_byte(window: &[u8], below: u8) -> Option<u8>
    ensures { IfSome result (λ byte. (byte < below) × (0 < length window.now) × (byte ≡ get_or window.now 0 0)) }
{
    if window.is_empty() {
        return None;
    }
    let byte = window[0];
    if byte < below { Some(byte) } else { None }
}

// A 32-bit number without sign, of any bytes.
fn any_u32(window: &[u8]) -> Result<(u32, usize), LebFault>
    ensures exact { AnswersUnsigned 32 window.now result }
    ensures computed { result ≡ u32_of window.now }
{
    match run(window, 5) {
        Ok((sum, count)) => {
            if sum >> 32 != 0 {
                return Err(LebFault::Unused);
            }
            Ok((sum as u32, count))
        }
        Err(fault) => Err(fault),
    }
}

// A signed 32-bit number, of any bytes.
fn any_s32(window: &[u8]) -> Result<(i32, usize), LebFault>
    ensures exact { AnswersSigned 32 window.now result }
    ensures computed { result ≡ s32_of window.now }
{
    match front_signed(window, 32) {
        Ok((number, count)) => Ok((number as i32, count)),
        Err(fault) => Err(fault),
    }
}

// A signed 64-bit number, of any bytes.
fn any_s64(window: &[u8]) -> Result<(i64, usize), LebFault>
    ensures exact { AnswersSigned 64 window.now result }
    ensures computed { result ≡ s64_of window.now }
{
    front_signed(window, 64)
}

// A signed number of a width in bits.
fn front_signed(window: &[u8], width: usize) -> Result<(i64, usize), LebFault>
    requires some { 0 < width }
    requires most { width ≤ 64 }
    ensures exact { AnswersSigned width window.now result }
{
    let (sum, count) = run(window, (width + 6) / 7)?;
    let number = signed(sum, count);
    let half = (1u128 << (width - 1)) as i128;
    if number < -half || number >= half {
        return Err(LebFault::Unused);
    }
    Ok((number as i64, count))
}

// The low seven bits of the bytes up to the first whose top bit is clear, of at most so many, and
// how many bytes these are. Ten bytes have 70 bits.
fn run(window: &[u8], most: usize) -> Result<(u128, usize), LebFault>
    requires { most ≤ 10 }
    ensures { Answers most (IsRunOf most) NeverWrong window.now result }
{
    let mut sum = 0u128;
    for i in 0..most {
        if i == window.len() {
            return Err(LebFault::Ends);
        }
        let byte = window[i];
        sum |= u128::from(byte & 0x7f) << (7 * i);
        if byte & 0x80 == 0 {
            return Ok((sum, i + 1));
        }
    }
    Err(LebFault::TooLong)
}

// The signed reading of the seven bits each of so many bytes.
fn signed(sum: u128, count: usize) -> i128
    requires some { 0 < count }
    requires most { count ≤ 10 }
    requires fits { sum < 2 ^ (7 * count) }
    ensures { result ≡ signed_sum count sum }
{
    let bits = 7 * count;
    if sum >> (bits - 1) == 0 {
        sum as i128
    } else {
        -(((1u128 << bits) - sum) as i128)
    }
}
