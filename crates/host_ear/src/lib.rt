// What a host hears, and whether it ends with a reply of the loader's: the ear of the group controller's half of the line.
#![tactic(auto)]

ghost use Rattle.std.specs.Prelude.{◌&&◌, ◌≡◌, ◌+◌, ◌*◌, ◌/◌, ◌^◌, ◌≤◌, leb, eqb};
ghost use Rattle.machine_answers.specs.rules.Replies.{one_word, acknowledged};
ghost use Rattle.sent.specs.rules.Line.{start_answer};
ghost use Rattle.sent.specs.rules.Opening.{greeting};
ghost use Rattle.host_ear.specs.rules.Ear.{nothing_heard, hearing, looked_at, newest, ends_with, ends_with_checksum};

use sent::Bus;

// What was heard since the wait began: the last eight bytes, the newest highest, how many came, eight at most, and whether one came since the last turn.
#[derive(Clone, Copy, Debug, PartialEq, Eq)]
pub struct Ear {
    pub last: u64,
    pub count: u8,
    pub fresh: bool,
}

// BOOTME, and the answers to the start unit, as numbers: of the bytes that came the newest is the highest.
const BOOTME: u64 = 0x454D_544F_4F42;

const START_ANSWER: u64 = 0x52;

const START_ANSWER_HALF: u64 = 0x5253;

// Nothing has come since the wait began.
pub fn unheard() -> Ear
    ensures { result ≡ nothing_heard }
{
    Ear {
        last: 0,
        count: 0,
        fresh: false,
    }
}

// The last eight bytes with one more.
fn push(last: u64, byte: u8) -> u64
    ensures { result ≡ last / 2 ^ 8 + byte * 2 ^ 56 }
{
    (last >> 8) + ((byte as u64) << 56)
}

// One byte more is heard, eight counted at most.
pub fn hear(ear: Ear, byte: u8) -> Ear
    ensures { result ≡ hearing ear byte }
{
    Ear {
        last: push(ear.last, byte),
        count: ear.count.min(7) + 1,
        fresh: true,
    }
}

// A turn has looked.
pub fn look(ear: Ear) -> Ear
    ensures { result ≡ looked_at ear }
{
    Ear {
        fresh: false,
        ..ear
    }
}

// The newest word.
pub fn newest_word(ear: Ear) -> u32
    ensures { result ≡ newest ear 4 }
{
    (ear.last >> 32) as u32
}

// Are the newest bytes, so many, those of a number?
fn ends_with(ear: Ear, count: u8, number: u64) -> bool
    requires { count ≤ 8 }
    ensures { result ≡ (leb count ear.count && eqb (newest ear count) number) }
{
    if ear.count < count {
        return false;
    }
    if count == 0 {
        return 0 == number;
    }
    ear.last >> (64 - 8 * (count as u32)) == number
}

// Do the bytes that came end with BOOTME? On the line of halves there is none.
pub fn ends_with_greeting(ear: Ear, bus: Bus) -> bool
    ensures { result ≡ ends_with ear (greeting bus) }
{
    match bus {
        Bus::Bytes => ends_with(ear, 6, BOOTME),
        Bus::Halves => ends_with(ear, 0, 0),
    }
}

// With the answer to the start unit?
pub fn ends_with_start(ear: Ear, bus: Bus) -> bool
    ensures { result ≡ ends_with ear (start_answer bus) }
{
    match bus {
        Bus::Bytes => ends_with(ear, 1, START_ANSWER),
        Bus::Halves => ends_with(ear, 2, START_ANSWER_HALF),
    }
}

// With a word?
pub fn ends_with_word(ear: Ear, word: u32) -> bool
    ensures { result ≡ ends_with ear (one_word word) }
{
    ends_with(ear, 4, word as u64)
}

// With the acknowledgement of an opcode?
pub fn acknowledges(ear: Ear, opcode: u32) -> bool
    ensures { result ≡ ends_with ear (one_word (acknowledged opcode)) }
{
    ends_with_word(ear, machine_answers::acknowledgement(opcode))
}

// With the acknowledgement of an opcode and a word after it, a checksum?
pub fn ends_with_checksum(ear: Ear, opcode: u32) -> bool
    ensures { result ≡ ends_with_checksum ear opcode }
{
    8 <= ear.count && (ear.last % 0x1_0000_0000) as u32 == machine_answers::acknowledgement(opcode)
}
