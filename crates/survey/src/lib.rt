// The release survey: what becomes of each image, a line an image, and the totals.
#![tactic(auto)]

ghost use Rattle.std.specs.Prelude.{◌≡◌};
ghost use Rattle.survey.specs.rules.Images.{ended, absent, image_of, is_opened, set_of, unlike};
ghost use Rattle.survey.specs.rules.Survey.{begun, is_full, entered_by, latest, line_of, including, totals_of};

use checking::Report;
use opcodes::{Dialect, Refusal};
use std::fmt;

#[derive(Clone, Copy)]
pub enum Outcome {
    Entered,
    Refused,
    Absent,
}

impl fmt::Display for Outcome {
    ghost use Rattle.std.specs.Prelude.{Some};
    ghost use Rattle.survey.specs.rules.Images.{word_of};

    ghost output = { λ outcome. Some (word_of outcome) };

    fn fmt<W: fmt::Write>(&self, f: &mut fmt::Formatter<W>) -> fmt::Result {
        match self {
            Outcome::Entered => f.write_str("entered"),
            Outcome::Refused => f.write_str("refused"),
            Outcome::Absent => f.write_str("absent"),
        }
    }
}

// A named image: its outcome, and the option word that its run left.
#[derive(Clone, Copy)]
pub struct Image {
    pub outcome: Outcome,
    pub word: u32,
}

// The survey so far: lines written, those entered, the sum of differ, and the last image that was opened.
#[derive(Clone, Copy)]
pub struct Survey {
    pub written: u32,
    pub entered: u32,
    pub differ: u32,
    pub last: Image,
}

#[derive(Clone, Copy)]
pub struct SurveyLine {
    pub image: u32,
    pub outcome: Outcome,
    pub set: u32,
    pub differ: u32,
}

#[derive(Clone, Copy)]
pub struct SurveyTotals {
    pub images: u32,
    pub entered: u32,
    pub differ: u32,
}

impl Image {
    // A name that can't be opened.
    pub fn absent() -> Image
        ensures { result ≡ absent }
    {
        Image {
            outcome: Outcome::Absent,
            word: 0,
        }
    }

    // What the bytes of an opened image come to, run from cleared memory as the check program runs it.
    pub fn of(bytes: &[u8]) -> Image
        ensures { result ≡ image_of bytes.now }
    {
        let opened = checking::open(Dialect::Am17xx, bytes);
        let mut memory = [0u8; 4096];
        let report = Report::from(flash_runs::run_plain(opened, &mut memory, bytes));
        Image {
            outcome: ended(report.end),
            word: words::word_at(&memory, 0),
        }
    }
}

// The outcome of an opened image, by how its run ended.
fn ended(end: Result<u32, Refusal>) -> Outcome
    ensures { result ≡ ended end }
{
    match end {
        Ok(_) => Outcome::Entered,
        Err(_) => Outcome::Refused,
    }
}

// Was it opened?
fn is_opened(image: Image) -> bool
    ensures { result ≡ is_opened image }
{
    !matches!(image.outcome, Outcome::Absent)
}

// The one bits of its option word.
#[tactic(auto, unfolding(crate::specs::rules::Images::set_of, words::specs::rules::Choice::pick))]
fn set_of(image: Image) -> u32
    ensures { result ≡ set_of image }
{
    if is_opened(image) {
        image.word.count_ones()
    } else {
        0
    }
}

// The bits unlike in the option words of an image and of the last one opened.
#[tactic(auto, unfolding(crate::specs::rules::Images::unlike, words::specs::rules::Choice::pick))]
fn unlike(last: Image, image: Image) -> u32
    ensures { result ≡ unlike last image }
{
    if is_opened(last) && is_opened(image) {
        (last.word ^ image.word).count_ones()
    } else {
        0
    }
}

// What an image adds to those entered.
fn entered_by(image: Image) -> u32
    ensures { result ≡ entered_by image }
{
    match image.outcome {
        Outcome::Entered => 1,
        Outcome::Refused => 0,
        Outcome::Absent => 0,
    }
}

// The last one opened, with an image after it: an absent one is skipped.
#[tactic(auto, unfolding(crate::specs::rules::Survey::latest, words::specs::rules::Choice::pick))]
fn latest(last: Image, image: Image) -> Image
    ensures { result ≡ latest last image }
{
    if is_opened(image) { image } else { last }
}

impl Survey {
    pub const MOST_IMAGES: u32 = 16;

    // No line is written yet.
    pub fn begin() -> Survey
        ensures { result ≡ begun }
    {
        Survey {
            written: 0,
            entered: 0,
            differ: 0,
            last: Image::absent(),
        }
    }

    // Are all lines written that a survey has?
    pub fn is_full(self) -> bool
        ensures { result ≡ is_full self }
    {
        self.written >= Survey::MOST_IMAGES
    }

    // The line of the next image.
    #[tactic(auto, unfolding(crate::specs::rules::Survey::line_of))]
    pub fn line(self, image: Image) -> SurveyLine
        ensures { result ≡ line_of self image }
    {
        SurveyLine {
            image: self.written.wrapping_add(1),
            outcome: image.outcome,
            set: set_of(image),
            differ: unlike(self.last, image),
        }
    }

    // The survey once that line is written.
    #[tactic(auto, unfolding(crate::specs::rules::Survey::including))]
    pub fn including(self, image: Image) -> Survey
        ensures { result ≡ including self image }
    {
        Survey {
            written: self.written.wrapping_add(1),
            entered: self.entered.wrapping_add(entered_by(image)),
            differ: self.differ.wrapping_add(unlike(self.last, image)),
            last: latest(self.last, image),
        }
    }

    // The last line.
    pub fn totals(self) -> SurveyTotals
        ensures { result ≡ totals_of self }
    {
        SurveyTotals {
            images: self.written,
            entered: self.entered,
            differ: self.differ,
        }
    }
}
