// What goes out: what each wait sends on entering, what it sends again, and a stretch as a part of the image.
ghost use Rattle.std.specs.Prelude.{[], ◌≡◌, ◌-◌};
ghost use Rattle.words.specs.rules.Bytes.{word_at, bytes_at};
ghost use Rattle.words.specs.rules.Choice.{pick};
ghost use Rattle.host_answers.specs.rules.Sendings.{echoed, opens, repeats, is_part};

use crate::{Host, Sending, Wait};

// The opcodes that the host sends of its own.
pub const PING: u32 = 0x5853_590B;

pub const START_OVER: u32 = 0x5853_5908;

// What is echoed: Ping's count first, then the words from 1 up to it.
pub fn echo_of(host: Host, k: u32) -> u32
    ensures { result ≡ echoed host k }
{
    if k == 0 { host.pings } else { k }
}

// The opcode at the host's offset.
pub fn opcode_at(host: Host, image: &[u8]) -> u32
    ensures { result ≡ word_at image.now host.offset }
{
    words::word_at(image, host.offset as usize)
}

// What goes out as a wait begins.
pub fn opening(wait: Wait, host: Host, image: &[u8]) -> Sending
    ensures { result ≡ opens wait host image.now }
{
    match wait {
        Wait::Greeting => Sending::Nothing,
        Wait::Start => Sending::Start,
        Wait::Ping => Sending::Word(PING),
        Wait::Echo(k) => Sending::Word(echo_of(host, k)),
        Wait::Nothing => Sending::Nothing,
        Wait::Opcode(_, _) => Sending::Word(opcode_at(host, image)),
        Wait::Over(_) => Sending::Word(START_OVER),
        Wait::Closing => Sending::Nothing,
    }
}

// What goes out again: all of these but Ping's count and its words.
pub fn repetition(wait: Wait, host: Host, image: &[u8]) -> Sending
    ensures { result ≡ repeats wait host image.now }
{
    match wait {
        Wait::Echo(_) => Sending::Nothing,
        _ => opening(wait, host, image),
    }
}

// Is there a part of the image from one offset to another?
pub fn is_part(image: &[u8], from: usize, to: usize) -> bool
    ensures { result ≡ is_part image.now from to }
{
    from <= to && to <= image.len()
}

// The part of the image from one offset to another; empty where it is not there.
pub fn part(image: &[u8], from: usize, to: usize) -> &[u8]
    ensures { result.now ≡ pick (is_part image.now from to) (bytes_at image.now from (to - from)) [] }
{
    if is_part(image, from, to) {
        return &image[from..to];
    }
    &image[0..0]
}
