// A host, the group controller's half of the line: its opening, what it hears, what goes out of it, and the answers to a turn.
#![tactic(auto)]

pub mod answers;
pub mod sendings;

ghost use Rattle.std.specs.Prelude.{◌&&◌, ◌≡◌, leb};
ghost use Rattle.host_answers.specs.rules.Hosts.{heard, opened_by, refused_by, at_start, most_tries};
ghost use Rattle.host_answers.specs.rules.Sendings.{stretch_of};

use host_ear::Ear;
use opcodes::{Command, Dialect, Refusal};
use sent::Bus;

// What the host waits for: BOOTME, the answer to the start unit, Ping's acknowledgement, the echo of Ping's count (0) or of its word, nothing, so that the next
// command is met, the acknowledgement of a command that ends at an offset, that of a Start-Over before an offset is sought, DONE.
#[derive(Clone, Copy)]
pub enum Wait {
    Greeting,
    Start,
    Ping,
    Echo(u32),
    Nothing,
    Opcode(Command, u32),
    Over(u32),
    Closing,
}

// A wait in a struct of its own, since an enum field is not assigned.
#[derive(Clone, Copy)]
pub struct Stage {
    pub wait: Wait,
}

// What goes out in a turn: nothing, the start unit, a word, or the stretch of the image from one offset to another.
#[derive(Clone, Copy)]
pub enum Sending {
    Nothing,
    Start,
    Word(u32),
    Stretch(u32, u32),
}

// A standing host: the line and the dialect, the image's length, the tries of a wait, Ping's count and the retry limit, as its opening was told; whether it has
// ended, the retries counted, the offset in the image, the tries spent in this wait, the wait and what was heard in it.
#[derive(Clone, Copy)]
pub struct Host {
    pub bus: Bus,
    pub dialect: Dialect,
    pub length: u32,
    pub tries: u32,
    pub pings: u32,
    pub limit: u8,
    pub ended: bool,
    pub retries: u8,
    pub offset: u32,
    pub spent: u32,
    pub stage: Stage,
    pub ear: Ear,
}

#[derive(Clone, Copy)]
pub struct Opened {
    pub refusal: Option<Refusal>,
    pub host: Host,
}

// The answer to a turn.
#[derive(Clone, Copy)]
pub struct Turned {
    pub refusal: Option<Refusal>,
    pub sending: Sending,
    pub host: Host,
}

impl Host {
    // The most tries that a wait allows.
    pub const MOST_TRIES: u32 = 1000;

    // A host at its first wait, from a line, a dialect, an image, the tries of a wait, a retry limit and Ping's count; refused it is ended.
    pub fn open(
        bus: Bus,
        dialect: Dialect,
        image: &[u8],
        tries: u32,
        limit: u8,
        pings: u32,
    ) -> Opened
        ensures { result ≡ opened_by bus dialect image.now tries limit pings }
    {
        if !flash_session::is_length(image.len()) {
            return shut(Refusal::Image);
        }
        if words::word_at(image, 0) != flash_session::Session::MAGIC {
            return shut(Refusal::Magic);
        }
        if !is_allowed(tries) {
            return shut(Refusal::Tries);
        }
        let length = image.len() as u32;
        Opened {
            refusal: None,
            host: at_start(bus, dialect, length, tries, limit, pings, false),
        }
    }

    // One byte is heard.
    pub fn hear(self, byte: u8) -> Host
        ensures { result ≡ heard self byte }
    {
        Host {
            ear: host_ear::hear(self.ear, byte),
            ..self
        }
    }
}

// The bytes of the image that go out in a sending: none but those of a stretch that is there.
pub fn stretch(sending: Sending, image: &[u8]) -> &[u8]
    ensures { result.now ≡ stretch_of sending image.now }
{
    match sending {
        Sending::Nothing => &image[0..0],
        Sending::Start => &image[0..0],
        Sending::Word(_) => &image[0..0],
        Sending::Stretch(from, to) => sendings::part(image, from as usize, to as usize),
    }
}

// A host at its first wait, or one that never opened.
fn at_start(
    bus: Bus,
    dialect: Dialect,
    length: u32,
    tries: u32,
    limit: u8,
    pings: u32,
    ended: bool,
) -> Host
    ensures { result ≡ at_start bus dialect length tries limit pings ended }
{
    let stage = Stage {
        wait: Wait::Greeting,
    };
    let ear = host_ear::unheard();
    Host {
        bus,
        dialect,
        length,
        tries,
        pings,
        limit,
        ended,
        retries: 0,
        offset: 4,
        spent: 0,
        stage,
        ear,
    }
}

// A refused opening.
fn shut(refusal: Refusal) -> Opened
    ensures { result ≡ refused_by (Some refusal) }
{
    Opened {
        refusal: Some(refusal),
        host: at_start(Bus::Bytes, Dialect::Am17xx, 0, 0, 0, 0, true),
    }
}

// May a wait have so many tries?
fn is_allowed(tries: u32) -> bool
    ensures { result ≡ (leb 1 tries && leb tries most_tries) }
{
    1 <= tries && tries <= Host::MOST_TRIES
}
