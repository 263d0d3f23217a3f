// Single fields: bytes, numbers and names (WebAssembly Core 1.0, 5.2).
ghost use Rattle.std.specs.Prelude.{◌≡◌, ◌≤◌, ◌+◌, drop, length};
ghost use Rattle.std.specs.Str.{is_utf8 as is_utf8_of};
ghost use Rattle.wasm_spelling.specs.Steps.{cause_of as the_cause, byte_at, number_at, signed32_at, signed64_at, bytes_at};
ghost use Rattle.wasm_spelling.specs.Reading.{exactly_at, limited_at, name_at, counted_bytes_at, utf8_at};
ghost use Rattle.wasm_binary.specs.View.{Gives, at, seen};

use crate::rest::Rest;
use leb_bytes::{LebFault, front_s32, front_s64, front_u32};
use std::alloc::Global;
use std::str::from_utf8;
use w2c_base::{Bytes, NAME_LENGTH};
use wasm_spelling::{Cause, ReadFault, Which};

pub fn byte(rest: Rest) -> Result<(u8, Rest), ReadFault>
    ensures { Gives seen result (byte_at (at rest.entry)) }
{
    match rest.left {
        [] => Err(ReadFault::Malformed(rest.place, Cause::UnexpectedEnd)),
        [byte, left @ ..] => Ok((
            *byte,
            Rest {
                place: rest.place + 1,
                left,
                counts: rest.counts,
            },
        )),
    }
}

/// The field that is spelled by one byte alone.
#[tactic(auto, unfolding(wasm_spelling::specs::Steps::checked, wasm_spelling::specs::Reading::exactly_at))]
pub fn exactly(wanted: u8, cause: Cause, rest: Rest) -> Result<Rest, ReadFault>
    ensures { Gives (λ x. (tt, at x)) result (exactly_at wanted cause (at rest.entry)) }
{
    let place = rest.place;
    let (byte, rest) = byte(rest)?;
    if byte == wanted {
        Ok(rest)
    } else {
        Err(ReadFault::Malformed(place, cause))
    }
}

fn cause_of(fault: LebFault) -> Cause
    ensures { result ≡ the_cause fault }
{
    match fault {
        LebFault::Ends => Cause::UnexpectedEnd,
        LebFault::TooLong => Cause::IntegerTooLong,
        LebFault::Unused => Cause::UnusedBits,
    }
}

/// What stands behind so many bytes.
fn behind(taken: usize, rest: Rest) -> Rest
    requires { taken ≤ length rest.left.now }
    ensures place { result.place ≡ rest.entry.place + taken }
    ensures left { result.left.now ≡ drop taken rest.entry.left.now }
    ensures counts { result.counts ≡ rest.entry.counts }
{
    let (_, left) = rest.left.split_at(taken);
    let place = rest.place + taken as u32;
    Rest {
        place,
        left,
        counts: rest.counts,
    }
}

#[tactic(auto, unfolding(wasm_spelling::specs::Steps::number_at))]
pub fn number(rest: Rest) -> Result<(u32, Rest), ReadFault>
    ensures { Gives seen result (number_at (at rest.entry)) }
{
    match front_u32(rest.left) {
        Ok((number, taken)) => Ok((number, behind(taken, rest))),
        Err(fault) => Err(ReadFault::Malformed(rest.place, cause_of(fault))),
    }
}

#[tactic(auto, unfolding(wasm_spelling::specs::Steps::signed32_at))]
pub fn signed32(rest: Rest) -> Result<(i32, Rest), ReadFault>
    ensures { Gives seen result (signed32_at (at rest.entry)) }
{
    match front_s32(rest.left) {
        Ok((number, taken)) => Ok((number, behind(taken, rest))),
        Err(fault) => Err(ReadFault::Malformed(rest.place, cause_of(fault))),
    }
}

#[tactic(auto, unfolding(wasm_spelling::specs::Steps::signed64_at))]
pub fn signed64(rest: Rest) -> Result<(i64, Rest), ReadFault>
    ensures { Gives seen result (signed64_at (at rest.entry)) }
{
    match front_s64(rest.left) {
        Ok((number, taken)) => Ok((number, behind(taken, rest))),
        Err(fault) => Err(ReadFault::Malformed(rest.place, cause_of(fault))),
    }
}

/// A number of at most so much.
#[tactic(auto, unfolding(wasm_spelling::specs::Steps::checked, wasm_spelling::specs::Reading::limited_at))]
pub fn limited(most: u32, which: Which, rest: Rest) -> Result<(u32, Rest), ReadFault>
    ensures { Gives seen result (limited_at most which (at rest.entry)) }
{
    let place = rest.place;
    let (number, rest) = number(rest)?;
    if number <= most {
        Ok((number, rest))
    } else {
        Err(ReadFault::Limit(place, which))
    }
}

/// So many bytes.
#[tactic(auto, unfolding(wasm_spelling::specs::Steps::bytes_at))]
fn bytes(count: u32, rest: Rest) -> Result<(&[u8], Rest), ReadFault>
    ensures { Gives (λ x. (x.0.now, at x.1)) result (bytes_at count (at rest.entry)) }
{
    let size = count as usize;
    if rest.left.len() < size {
        return Err(ReadFault::Malformed(rest.place, Cause::UnexpectedEnd));
    }
    let (front, left) = rest.left.split_at(size);
    let place = rest.place + count;
    Ok((
        front,
        Rest {
            place,
            left,
            counts: rest.counts,
        },
    ))
}

fn is_utf8(bytes: &[u8]) -> bool
    ensures { result ≡ is_utf8_of bytes.now }
{
    match from_utf8(bytes) {
        Ok(_) => true,
        Err(_) => false,
    }
}

/// So many bytes, which are UTF-8.
#[tactic(auto, unfolding(wasm_spelling::specs::Steps::checked, wasm_spelling::specs::Reading::utf8_at))]
pub fn utf8(count: u32, rest: Rest) -> Result<(&[u8], Rest), ReadFault>
    ensures { Gives (λ x. (x.0.now, at x.1)) result (utf8_at count (at rest.entry)) }
{
    let place = rest.place;
    let (front, rest) = bytes(count, rest)?;
    if !is_utf8(front) {
        return Err(ReadFault::Malformed(place, Cause::BadUTF8));
    }
    Ok((front, rest))
}

/// The name of an import or an export.
#[tactic(auto, unfolding(wasm_spelling::specs::Steps::reads, wasm_spelling::specs::Reading::name_at, wasm_spelling::specs::Reading::limited_at))]
pub fn name(alloc: Global, rest: Rest) -> Result<(Bytes, Rest), ReadFault>
    ensures { Gives seen result (name_at (at rest.entry)) }
{
    let (count, rest) = limited(NAME_LENGTH, Which::NameLength, rest)?;
    let (front, rest) = utf8(count, rest)?;
    let name = Vec::from_slice(alloc, front)?;
    Ok((Bytes::from_vec(name), rest))
}

/// A count, and so many bytes.
#[tactic(auto, unfolding(wasm_spelling::specs::Steps::reads, wasm_spelling::specs::Reading::counted_bytes_at))]
pub fn counted_bytes(alloc: Global, rest: Rest) -> Result<(Bytes, Rest), ReadFault>
    ensures { Gives seen result (counted_bytes_at (at rest.entry)) }
{
    let (count, rest) = number(rest)?;
    let (front, rest) = bytes(count, rest)?;
    let counted = Vec::from_slice(alloc, front)?;
    Ok((Bytes::from_vec(counted), rest))
}
