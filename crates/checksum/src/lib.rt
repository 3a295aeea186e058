// The checksum: bits go in one at a time, the highest first.
#![tactic(auto)]

ghost use Rattle.std.specs.Prelude.{◌≡◌, ◌*◌, ◌<◌, ◌≤◌, min};
ghost use Rattle.checksum.specs.rules.Checksum.{fed_bit, fed};

const POLYNOMIAL: u32 = 0x04C1_1DB7;

// The checksum after one bit.
fn feed_bit(checksum: u32, bit: u32) -> u32
    requires { bit < 2 }
    ensures { result ≡ fed_bit checksum bit }
{
    let shifted = (checksum << 1) + bit;
    if checksum >> 31 == 1 {
        shifted ^ POLYNOMIAL
    } else {
        shifted
    }
}

// The checksum after the low `count` bits of `value`.
fn feed_low(checksum: u32, value: u32, count: u32) -> u32
    requires { count ≤ 32 }
    ensures { result ≡ fed checksum value count }
{
    let mut reached = checksum;
    for place in (0..count).rev() {
        reached = feed_bit(reached, (value >> place) % 2);
    }
    reached
}

// The checksum after a whole word.
pub fn feed_word(checksum: u32, word: u32) -> u32
    ensures { result ≡ fed checksum word 32 }
{
    feed_low(checksum, word, 32)
}

// The checksum after the low `bytes` bytes of `value`: all four where `bytes` is larger.
pub fn feed(checksum: u32, value: u32, bytes: u32) -> u32
    ensures { result ≡ fed checksum value (8 * min bytes 4) }
{
    if bytes < 4 {
        feed_low(checksum, value, 8 * bytes)
    } else {
        feed_word(checksum, value)
    }
}
