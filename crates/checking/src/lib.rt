// What the check program decides, and what is told of the words that an image fetches: it is opened and run, and reported.
#![tactic(auto)]

ghost use Rattle.std.specs.Prelude.{◌≡◌};
ghost use Rattle.flash_session.specs.rules.Opening.{opened_by};
ghost use Rattle.checking.specs.rules.Counting.{most_of, counted_of};
ghost use Rattle.checking.specs.rules.Limit.{limit_of};
ghost use Rattle.checking.specs.rules.Report.{one_window, windows, opened, end_of, reported, code_told, entry_told, last_answer, report_of};

use flash_session::{Called, Opened, Session};
use opcodes::{Dialect, Event, Refusal};
use std::fmt;
use windows::Window;

// How a run ended, by the address entered or the refusal, and the offset of its last command, its checksum and its retries.
#[derive(Clone, Copy)]
pub struct Report {
    pub end: Result<u32, Refusal>,
    pub at: u32,
    pub crc: u32,
    pub retries: u8,
}

impl Report {
    // The number of the refusal, 0 where it entered.
    pub fn code(self) -> u8
        ensures { result ≡ code_told self }
    {
        match self.end {
            Ok(_) => 0,
            Err(refusal) => refusal.code(),
        }
    }

    // The address entered, 0 where it is refused.
    pub fn entry(self) -> u32
        ensures { result ≡ entry_told self }
    {
        match self.end {
            Ok(entry) => entry,
            Err(_) => 0,
        }
    }
}

// The six lines of the check program.
impl fmt::Display for Report {
    fn fmt<W: fmt::Write>(&self, f: &mut fmt::Formatter<W>) -> fmt::Result {
        let outcome = if self.end.is_ok() {
            "entered"
        } else {
            "refused"
        };
        let (code, entry) = (self.code(), self.entry());
        writeln!(f, "outcome={outcome}\ncode={code}\nat={}", self.at)?;
        writeln!(
            f,
            "entry={entry:#010X}\ncrc={:#010X}\nretries={}",
            self.crc, self.retries
        )
    }
}

// The refusal or 0, the words fetched, and the most that may be.
#[derive(Clone, Copy)]
pub struct Counted {
    pub code: u8,
    pub fetched: u32,
    pub ceiling: u32,
}

// The address that is entered where nothing is refused, else the refusal.
fn end_of(refusal: Option<Refusal>, event: Event) -> Result<u32, Refusal>
    ensures { result ≡ end_of refusal event }
{
    match refusal {
        None => Ok(event.value()),
        Some(refusal) => Err(refusal),
    }
}

// What is reported of a last answer.
impl From<Called> for Report {
    ghost use Rattle.checking.specs.rules.Report.{reported};

    ghost from_gives = { λ called report. report ≡ reported called };

    fn from(called: Called) -> Report {
        Report {
            end: end_of(called.refusal, called.event),
            at: called.at,
            crc: called.session.checksum,
            retries: called.session.retries,
        }
    }
}

// The last answer: the refused opening's, or a run's over memory of zeros.
#[tactic(auto, unfolding(crate::specs::rules::Report::last_answer))]
fn answer_to(image: &[u8], opened: Opened) -> Called
    ensures { result ≡ last_answer image.now opened }
{
    let mut memory = [0u8; 4096];
    flash_runs::run_plain(opened, &mut memory, image)
}

// A map of one window that grants everything.
pub fn one_window(first: u32, length: u32) -> [Window; 8]
    ensures { result ≡ one_window first length }
{
    let mut windows = [Window::NONE; 8];
    windows[0] = Window {
        first,
        length,
        rights: 7,
    };
    windows
}

// The check program's window.
pub fn windows() -> [Window; 8]
    ensures { result ≡ windows }
{
    one_window(0x8000_0000, 4096)
}

// Opens an image in that window.
fn open_on(dialect: Dialect, image: &[u8], limit: u8) -> Opened
    ensures { result ≡ opened_by dialect 1 windows image.now limit }
{
    Session::open(dialect, 1, windows(), image, limit)
}

// Opens an image for the check program: its window, and no retries.
pub fn open(dialect: Dialect, image: &[u8]) -> Opened
    ensures { result ≡ opened dialect image.now }
{
    open_on(dialect, image, 0)
}

// Opens and runs an image, and reports the end.
#[tactic(auto, unfolding(crate::specs::rules::Report::report_of))]
pub fn check(dialect: Dialect, image: &[u8]) -> Report
    ensures { result ≡ report_of dialect image.now }
{
    Report::from(answer_to(image, open_on(dialect, image, 0)))
}

// The most words that an image of so many bytes may fetch.
fn ceiling_of(n: usize, limit: u8) -> u32
    ensures { result ≡ most_of n limit }
{
    if flash_session::is_length(n) {
        (limit as u32 + 1) * (n / 4) as u32
    } else {
        0
    }
}

// Opens and runs an image, and counts the words that it fetches.
#[tactic(auto, unfolding(crate::specs::rules::Counting::counted_of))]
pub fn count_fetches(image: &[u8], limit: u8) -> Counted
    ensures { result ≡ counted_of image.now limit }
{
    let called = answer_to(image, open_on(Dialect::Am17xx, image, limit));
    Counted {
        code: opcodes::code_of(called.refusal),
        fetched: called.session.fetched,
        ceiling: ceiling_of(image.len(), limit),
    }
}

// The retry limit that a text gives.
pub fn limit_of(text: &[u8]) -> Option<u8>
    ensures { result ≡ limit_of text.now }
{
    let retries = digits::decimal(text, 255)?;
    Some(retries as u8)
}
