// The shortest spelling of a number (WebAssembly Core 1.0, 5.2.2).
ghost use Rattle.std.specs.Prelude.{◌≡◌, ℕ, ◌*◌, ◌^◌, ◌<◌, ◌≤◌, drop, length, take};
ghost use Rattle.w2c_base.specs.SpelledNumber.{IsNumberRun, SpellsSigned, SpellsUnsigned, seven_bit_sum, signed_sum};
ghost use Rattle.leb_bytes.specs.Run.{InRange, IsRunOf};
ghost use Rattle.leb_bytes.specs.Shortest.{IsShortest};

/// Writes the shortest spelling of a number without sign at the front, and gives its length. The
/// bytes after it stay.
pub fn write_u32(n: u32, out: &mut [u8; 10]) -> usize
    ensures shortest { IsShortest (SpellsUnsigned 32) (take result out.new) n }
    ensures length { result ≤ 5 }
    ensures rest { drop result out.new ≡ drop result out.old }
{
    let count = groups(u128::from(n));
    put(u128::from(n), count, out);
    count
}

/// Writes the shortest spelling of a signed number at the front, and gives its length. The bytes
/// after it stay.
pub fn write_s32(n: i32, out: &mut [u8; 10]) -> usize
    ensures shortest { IsShortest (SpellsSigned 32) (take result out.new) n }
    ensures length { result ≤ 5 }
    ensures rest { drop result out.new ≡ drop result out.old }
{
    write_signed(i64::from(n), out)
}

/// Writes the shortest spelling of a signed number at the front, and gives its length. The bytes
/// after it stay.
pub fn write_s64(n: i64, out: &mut [u8; 10]) -> usize
    ensures shortest { IsShortest (SpellsSigned 64) (take result out.new) n }
    ensures length { result ≤ 10 }
    ensures rest { drop result out.new ≡ drop result out.old }
{
    write_signed(n, out)
}

// The spelling with the fewest bytes whose bits hold the number.
fn write_signed(n: i64, out: &mut [u8; 10]) -> usize
    ensures run { IsNumberRun (take result out.new) }
    ensures length { length (take result out.new) ≡ result }
    ensures value { n ≡ signed_sum result (seven_bit_sum (take result out.new)) }
    ensures least { (k : ℕ) → 0 < k → InRange (7 * k) n → result ≤ k }
    ensures rest { drop result out.new ≡ drop result out.old }
{
    let count = signed_groups(n);
    put(pattern(n, count), count, out);
    count
}

// The least number of groups of seven bits that hold a number and its sign.
fn signed_groups(n: i64) -> usize
    ensures some { 0 < result }
    ensures most { result ≤ 10 }
    ensures holds { InRange (7 * result) n }
    ensures least { (k : ℕ) → 0 < k → InRange (7 * k) n → result ≤ k }
{
    let above = if n < 0 { -(n + 1) } else { n };
    groups(u128::from(above as u64) << 1)
}

// A number's bits in so many groups of seven.
fn pattern(n: i64, count: usize) -> u128
    requires some { 0 < count }
    requires most { count ≤ 10 }
    requires range { InRange (7 * count) n }
    ensures value { n ≡ signed_sum count result }
    ensures fits { result < 2 ^ (7 * count) }
{
    if n < 0 {
        (1u128 << (7 * count)) - (-i128::from(n)) as u128
    } else {
        n as u128
    }
}

// The least number of groups of seven bits that hold a number, at least one.
fn groups(n: u128) -> usize
    requires { n < 2 ^ 70 }
    ensures some { 0 < result }
    ensures most { result ≤ 10 }
    ensures holds { n < 2 ^ (7 * result) }
    ensures least { (k : ℕ) → 0 < k → n < 2 ^ (7 * k) → result ≤ k }
{
    for count in 1..10 {
        if n >> (7 * count) == 0 {
            return count;
        }
    }
    10
}

// Writes so many groups of seven bits, the lowest first, as the bytes of one number.
fn put(pattern: u128, count: usize, out: &mut [u8; 10])
    requires some { 0 < count }
    requires most { count ≤ 10 }
    requires fits { pattern < 2 ^ (7 * count) }
    ensures run { IsRunOf count (take count out.new) pattern }
    ensures rest { drop count out.new ≡ drop count out.old }
{
    for i in 0..count - 1 {
        out[i] = ((pattern >> (7 * i)) & 0x7f) as u8 | 0x80;
    }
    out[count - 1] = (pattern >> (7 * (count - 1))) as u8;
}
