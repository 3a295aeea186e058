// Bytes, bits, little-endian numbers, and units of 1, 2 and 4 bytes at a place of a slice.
#![tactic(auto)]

ghost use Rattle.std.specs.Prelude.{◌≡◌, [], ◌∷◌, true, ◌+◌, ◌≤◌, ◌<◌, ◌^◌, leb, length, take, get_or, set};
ghost use Rattle.words.specs.rules.Bits.{bit, join, with_field};
ghost use Rattle.words.specs.rules.Bytes.{byte, number, put, size_of, fits, field_fits, written, field_written, word_at};

// A unit of 1, 2 or 4 bytes.
#[derive(Clone, Copy, Debug, PartialEq, Eq)]
pub enum Unit {
    One,
    Two,
    Four,
}

impl Unit {
    // How many bytes a unit has.
    pub fn size(self) -> usize
        ensures { result ≡ size_of self }
    {
        match self {
            Unit::One => 1,
            Unit::Two => 2,
            Unit::Four => 4,
        }
    }
}

// A bit of a value; 0 past its highest.
pub fn bit_of(value: u32, place: u32) -> u32
    ensures { result ≡ bit value place }
{
    if place < 32 { (value >> place) % 2 } else { 0 }
}

// A byte of a value; 0 past its highest.
pub fn byte_of(value: u32, place: u32) -> u8
    ensures { result ≡ byte value place }
{
    if place < 4 {
        ((value >> (8 * place)) % 256) as u8
    } else {
        0
    }
}

// The byte at a place; 0 past the end.
fn byte_at(s: &[u8], place: usize) -> u8
    ensures { result ≡ get_or s.now place 0 }
{
    s.get(place).copied().unwrap_or(0)
}

// The number that four bytes make.
fn number_by(first: u8, second: u8, third: u8, fourth: u8) -> u32
    ensures { result ≡ number (first ∷ second ∷ third ∷ fourth ∷ []) }
{
    let low = first as u32 + 256 * (second as u32);
    let high = third as u32 + 256 * (fourth as u32);
    low + 65536 * high
}

// The number that the first four bytes make; those that are missing count as 0. Where none is missing, no byte is asked for by itself.
pub fn number_of(s: &[u8]) -> u32
    ensures { result ≡ number (take 4 s.now) }
{
    if 4 <= s.len() {
        return number_by(s[0], s[1], s[2], s[3]);
    }
    number_by(byte_at(s, 0), byte_at(s, 1), byte_at(s, 2), byte_at(s, 3))
}

// The number of the four bytes from a place on; those that are missing count as 0.
pub fn word_at(s: &[u8], at: usize) -> u32
    ensures { result ≡ word_at s.now at }
{
    if at < s.len() { number_of(&s[at..]) } else { 0 }
}

// The low bits of one number with another above them.
fn joined(bits: u32, low: u64, high: u64) -> u64
    requires { (bits ≤ 32) × (high < 2 ^ 32) }
    ensures { result ≡ join bits low high }
{
    (high << bits) + low % (1 << bits)
}

// A word with some of its bits taken from the low bits of the data.
fn with_field(word: u32, start: u32, width: u32, field: u32) -> u32
    requires { start + width ≤ 32 }
    ensures { result ≡ with_field word start width field }
{
    let wide = word as u64;
    let above = joined(width, field as u64, wide >> (start + width));
    joined(start, wide, above) as u32
}

// Writes one byte; past the end nothing.
pub fn put_byte(m: &mut [u8], at: usize, value: u8)
    ensures { m.new ≡ set m.old at value }
{
    if at < m.len() {
        m[at] = value;
    }
}

// The low bytes of a value, one after the other.
fn put_bytes(m: &mut [u8], at: usize, n: usize, value: u32)
    requires { at + n ≤ length m.old }
    ensures { m.new ≡ put m.old at n (byte value) }
{
    let mut rest = value;
    for i in 0..n {
        m[at + i] = (rest % 256) as u8;
        rest /= 256;
    }
}

// Do so many bytes from a place on lie inside a length?
pub fn is_inside(length: usize, at: usize, size: usize) -> bool
    ensures { result ≡ leb (at + size) length }
{
    size <= length && at <= length - size
}

// Writes the low bytes of a value as a unit, if it fits.
pub fn write(m: &mut [u8], at: usize, unit: Unit, value: u32) -> bool
    ensures value { result ≡ fits m.old at (size_of unit) }
    ensures m_after { m.new ≡ written m.old at unit value }
{
    let n = unit.size();
    if !is_inside(m.len(), at, n) {
        return false;
    }
    put_bytes(m, at, n, value);
    true
}

// Writes the low bits of the data into some bits of the unit at a place, if they fit; every other bit is kept.
pub fn write_field(m: &mut [u8], at: usize, unit: Unit, start: u32, width: u32, field: u32) -> bool
    ensures value { result ≡ field_fits m.old at unit start width }
    ensures m_after { m.new ≡ field_written m.old at unit start width field }
{
    let n = unit.size();
    if !is_inside(m.len(), at, n) {
        return false;
    }
    let bits = 8 * (n as u32);
    if bits < start || bits - start < width {
        return false;
    }
    let old = number_of(&m[at..at + n]);
    put_bytes(m, at, n, with_field(old, start, width, field));
    true
}
