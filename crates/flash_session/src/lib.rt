// A flash session: its opening, and the answers to a call.
#![tactic(auto)]

pub mod answers;
mod opening;

ghost use Rattle.std.specs.Prelude.{◌&&◌, ◌≡◌, eqb};
ghost use Rattle.flash_session.specs.rules.Opening.{good_length, opened_by, numbering_from};

use commands::Wrote;
use ledger::Totals;
use opcodes::{Dialect, Event, Refusal};
use windows::Window;

// A standing flash session. The windows past the map's count are all zero; `fetched` counts the words fetched since the opening, `totals` what a DM648 has
// loaded.
#[derive(Clone, Copy)]
pub struct Session {
    pub windows: [Window; 8],
    pub checksum: u32,
    pub offset: u32,
    pub length: u32,
    pub fetched: u32,
    pub totals: Totals,
    pub ended: bool,
    pub on: bool,
    pub limit: u8,
    pub retries: u8,
    pub dialect: Dialect,
}

#[derive(Clone, Copy)]
pub struct Opened {
    pub refusal: Option<Refusal>,
    pub session: Session,
}

// The answer to a call: `at` is the offset of the opcode, `wrote` the bits of memory that were written.
#[derive(Clone, Copy)]
pub struct Called {
    pub refusal: Option<Refusal>,
    pub event: Event,
    pub at: u32,
    pub session: Session,
    pub wrote: Wrote,
}

impl Session {
    pub const MAGIC: u32 = 0x4150_4954;

    pub const LONGEST: usize = 65536;

    pub const FIRST: u32 = 4;

    // A session from a dialect, a map, an image and a retry limit; refused it is ended.
    pub fn open(
        dialect: Dialect,
        count: usize,
        windows: [Window; 8],
        image: &[u8],
        limit: u8,
    ) -> Opened
        ensures { result ≡ opened_by dialect count windows image.now limit }
    {
        if !windows::is_good(count, windows) {
            return opening::shut(Refusal::Map, 0);
        }
        if !is_length(image.len()) {
            return opening::shut(Refusal::Image, 0);
        }
        if words::word_at(image, 0) != Self::MAGIC {
            return opening::shut(Refusal::Magic, 1);
        }
        opening::begin(
            dialect,
            windows::kept(count, windows),
            image.len() as u32,
            limit,
        )
    }

    // The same with its commands numbered from 1.
    pub fn open_numbering(
        dialect: Dialect,
        count: usize,
        windows: [Window; 8],
        image: &[u8],
        limit: u8,
    ) -> Opened
        ensures { result ≡ numbering_from (opened_by dialect count windows image.now limit) }
    {
        let opened = Self::open(dialect, count, windows, image, limit);
        opening::number_from(opened)
    }
}

// Is this the length of an image?
pub fn is_length(n: usize) -> bool
    ensures { result ≡ good_length n }
{
    if n % 4 != 0 {
        return false;
    }
    if n < 4 {
        return false;
    }
    n <= Session::LONGEST
}

// Is this the length of an image, and that of the opening?
pub fn is_image(n: usize, length: usize) -> bool
    ensures { result ≡ (good_length n && eqb n length) }
{
    if is_length(n) {
        return n == length;
    }
    false
}
