// An image run to the session's end, and what is shown of it.
use crate::ends;
use checking::Report;
use flash_session::{Called, Session};
use opcodes::{Dialect, Event};
use std::{fmt, io};
use words::Unit;

// A bit that reads wrongly: the offset of its word, its place there, and how many retries heal it, if any do.
#[derive(Clone, Copy)]
pub struct Flip {
    pub at: usize,
    pub bit: u32,
    pub heal: Option<u8>,
}

impl fmt::Display for Flip {
    fn fmt<W: fmt::Write>(&self, f: &mut fmt::Formatter<W>) -> fmt::Result {
        write!(
            f,
            "flip={} bit={} heal={}",
            self.at,
            self.bit,
            self.heal.unwrap_or(0)
        )
    }
}

// A run of an image: the names of the image and of the case, the dialect, the window's first address, what memory holds before, how many bytes of it are shown,
// the retry limit and the flipped bits.
#[derive(Clone, Copy)]
pub struct Setting<'a> {
    pub image: &'a str,
    pub case: &'a str,
    pub dialect: Dialect,
    pub first: u32,
    pub background: u8,
    pub shown: usize,
    pub limit: u8,
    pub flips: &'a [Flip],
}

const REQUEST: u32 = 0x5853_5902;

// More calls than any of the runs makes.
const TURNS: u32 = 1000;

fn flip_bit(image: &mut [u8], at: usize, bit: u32) {
    let old = words::bit_of(words::word_at(image, at), bit);
    words::write_field(image, at, Unit::Four, bit, 1, old ^ 1);
}

// Flips the bits that still read wrongly after so many retries; once more and they are as before.
fn misread(image: &mut [u8], flips: &[Flip], retries: u8) {
    for flip in flips {
        if flip.heal.is_none_or(|heal| retries < heal) {
            flip_bit(image, flip.at, flip.bit);
        }
    }
}

// The checksum before a Request.
fn show_request(rt: &impl Print, session: Session, image: &[u8]) -> io::Result<()> {
    let at = session.offset;
    if words::word_at(image, at as usize) == REQUEST {
        println!(rt; "request={at} register={:#010X}", session.checksum)?;
    }
    Ok(())
}

// One call, the image lent as it then reads.
fn turn(
    rt: &impl Print,
    flips: &[Flip],
    session: Session,
    memory: &mut [u8],
    image: &mut [u8],
) -> io::Result<Called> {
    misread(image, flips, session.retries);
    show_request(rt, session, image)?;
    let called = flash::step(session, memory, image);
    misread(image, flips, session.retries);
    Ok(called)
}

// Calls until the session is ended.
fn play(
    rt: &impl Print,
    flips: &[Flip],
    begun: Called,
    memory: &mut [u8],
    image: &mut [u8],
) -> io::Result<Called> {
    let mut last = begun;
    for _ in 0..TURNS {
        if last.session.ended {
            break;
        }
        last = turn(rt, flips, last.session, memory, image)?;
    }
    Ok(last)
}

// The opening's answer as a call's.
fn opening(setting: Setting<'_>, image: &[u8]) -> Called {
    let windows = checking::one_window(setting.first, 4096);
    let opened = Session::open(setting.dialect, 1, windows, image, setting.limit);
    Called {
        refusal: opened.refusal,
        event: Event::Nothing,
        at: 0,
        session: opened.session,
        wrote: commands::wrote_none(),
    }
}

fn show_setting(rt: &impl Print, setting: Setting<'_>) -> io::Result<()> {
    println!(rt;
        "image={}\ncase={}\nlimit={}",
        setting.image, setting.case, setting.limit
    )?;
    if setting.flips.is_empty() {
        return println!(rt; "flip=none");
    }
    for flip in setting.flips {
        println!(rt; "{flip}")?;
    }
    Ok(())
}

// Opens and calls, and shows setting, requests, end and memory.
pub fn run(rt: &impl Print, setting: Setting<'_>, image: &mut [u8]) -> io::Result<()> {
    show_setting(rt, setting)?;
    let flips = setting.flips;
    let mut memory = [setting.background; 4096];
    misread(image, flips, 0);
    let begun = opening(setting, image);
    misread(image, flips, 0);
    let last = play(rt, flips, begun, &mut memory, image)?;
    print!(rt; "{}", Report::from(last))?;
    ends::show_memory(
        rt,
        setting.first,
        setting.background,
        setting.shown,
        &memory,
    )
}
