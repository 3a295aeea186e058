// The register of option fields: its text read into lines, and what it answers.
#![tactic(auto)]

ghost use Rattle.std.specs.Prelude.{◌≡◌, ◌<◌, [], fold, find};
ghost use Rattle.std.specs.List.{list_any};
ghost use Rattle.field_lines.specs.rules.Clashes.{clash};
ghost use Rattle.field_lines.specs.declared.FieldLine.{FieldLine as LineOf};
ghost use Rattle.commands.specs.rules.Commands.{width_of};
ghost use Rattle.field_register.specs.rules.Refusals.{field_code};
ghost use Rattle.field_register.specs.rules.Reading.{kept, lines_in, refused_at, reading_of};
ghost use Rattle.field_register.specs.rules.Questions.{is_about, answers as line_answers, asked, field_of, line_of_name, sooner as sooner_of};
ghost use Rattle.field_register.specs.rules.Questions.{last_before as last_before_of, stretch_from};
ghost use Rattle.field_register.specs.rules.Commands.{words_for, command_of, command_for};

use field_lines::FieldLine;

// Why a text or a question is refused.
#[derive(Clone, Copy, PartialEq, Eq, Debug)]
pub enum FieldRefusal {
    Room,
    Malformed,
    Clash,
    NoField,
    TooWide,
}

impl FieldRefusal {
    // The number on a fitter's card.
    pub fn code(self) -> u8
        ensures { result ≡ field_code self }
    {
        match self {
            FieldRefusal::Room => 23,
            FieldRefusal::Malformed => 26,
            FieldRefusal::Clash => 27,
            FieldRefusal::NoField => 28,
            FieldRefusal::TooWide => 16,
        }
    }
}

// The most lines of a register.
pub const MOST_LINES: usize = 200;

// So many lines; those past the count are none.
#[derive(Clone, Copy)]
pub struct Register {
    pub count: usize,
    pub lines: [FieldLine; MOST_LINES],
}

impl Register {
    // A register of no line.
    #[tactic(auto, unfolding(crate::specs::rules::Reading::kept))]
    pub fn empty() -> Register
        ensures { result ≡ kept [] }
    {
        let none = field_lines::no_line();
        Register {
            count: 0,
            lines: [none; MOST_LINES],
        }
    }

    // Its lines.
    #[tactic(auto, unfolding(crate::specs::rules::Reading::lines_in))]
    fn lines(&self) -> &[FieldLine]
        ensures { result.now ≡ lines_in self.now }
    {
        if self.count < MOST_LINES {
            return &self.lines[..self.count];
        }
        &self.lines
    }
}

// A text that is refused: why, and the number of its line.
#[derive(Clone, Copy)]
pub struct RefusedText {
    pub refusal: FieldRefusal,
    pub line: usize,
}

// What is asked about: a name, or a bit of a word.
#[derive(Clone, Copy)]
pub enum Subject {
    Name([u8; 16]),
    Bit { word: u32, bit: u32 },
}

impl Subject {
    // Is a line about it?
    #[tactic(auto, unfolding(crate::specs::rules::Questions::is_about))]
    fn is_about(self, line: FieldLine) -> bool
        ensures { result ≡ is_about self line }
    {
        match self {
            Subject::Name(name) => line.has_name(name),
            Subject::Bit { word, bit } => line.has_bit(word, bit),
        }
    }

    // Is it, and in force in a release?
    #[tactic(auto, unfolding(crate::specs::rules::Questions::answers))]
    fn answers(self, release: u32, line: FieldLine) -> bool
        ensures { result ≡ line_answers self release line }
    {
        self.is_about(line) && line.is_in_force(release)
    }
}

// What a subject is up to a release, 0 for no end.
#[derive(Clone, Copy)]
pub struct Stretch {
    pub found: Option<FieldLine>,
    pub last: u32,
}

// The refusal of a text at a line.
fn refused_at(refusal: FieldRefusal, line: usize) -> Result<Register, RefusedText>
    ensures { result ≡ refused_at refusal line }
{
    Err(RefusedText { refusal, line })
}

// Does a line clash with an earlier one?
fn clashes_any(lines: &[FieldLine], line: FieldLine) -> bool
    ensures { result ≡ list_any (λ earlier. clash earlier line) lines.now }
{
    lines.iter().any(|earlier| earlier.clashes_with(line))
}

// Reads a text.
pub fn read(text: &[u8]) -> Result<Register, RefusedText>
    ensures { result ≡ reading_of text.now }
{
    let none = field_lines::no_line();
    let mut lines = [none; MOST_LINES];
    let mut count: usize = 0;
    let mut at: usize = 0;
    while at < text.len() {
        if MOST_LINES <= count {
            return refused_at(FieldRefusal::Malformed, count + 1);
        }
        let Some(parsed) = field_lines::line_at(text, at) else {
            return refused_at(FieldRefusal::Malformed, count + 1);
        };
        let line = parsed.line;
        if clashes_any(&lines[..count], line) {
            return refused_at(FieldRefusal::Clash, count + 1);
        }
        lines[count] = line;
        count += 1;
        at = parsed.next;
    }
    Ok(Register { count, lines })
}

// The first line that answers.
fn find_in(lines: &[FieldLine], subject: Subject, release: u32) -> Option<FieldLine>
    ensures { result ≡ find (line_answers subject release) lines.now }
{
    lines
        .iter()
        .copied()
        .find(|line| subject.answers(release, *line))
}

// The line that a subject is in a release.
#[tactic(auto, using(crate::proofs::Lines::found_is))]
pub fn ask(register: Register, subject: Subject, release: u32) -> Option<FieldLine>
    ensures { result ≡ asked register subject release }
{
    find_in(register.lines(), subject, release)
}

// Which field a bit of a word is in a release.
pub fn field_of(register: Register, word: u32, bit: u32, release: u32) -> Option<FieldLine>
    ensures { result ≡ field_of register word bit release }
{
    ask(register, Subject::Bit { word, bit }, release)
}

// Which line a name is in a release.
pub fn line_of_name(register: Register, name: &[u8], release: u32) -> Option<FieldLine>
    ensures { result ≡ line_of_name register name.now release }
{
    let letters = field_lines::name_of(name)?;
    ask(register, Subject::Name(letters), release)
}

// The sooner of a release, 0 for none, and the first release of a line about the subject that begins later than another.
#[tactic(auto, unfolding(crate::specs::rules::Questions::sooner, words::specs::rules::Choice::pick))]
fn sooner(subject: Subject, release: u32, best: u32, line: FieldLine) -> u32
    ensures { result ≡ sooner_of subject release best line }
{
    if subject.is_about(line) && release < line.since && (best == 0 || line.since < best) {
        return line.since;
    }
    best
}

// The first release later than another in which a line about the subject begins, 0 for none.
fn soonest(lines: &[FieldLine], subject: Subject, release: u32) -> u32
    ensures { result ≡ fold (sooner_of subject release) 0 lines.now }
{
    lines
        .iter()
        .fold(0, |best, line| sooner(subject, release, best, *line))
}

// The release before one; 0 where there is none.
#[tactic(auto, unfolding(crate::specs::rules::Questions::last_before, words::specs::rules::Choice::pick))]
fn last_before(next: u32) -> u32
    ensures { result ≡ last_before_of next }
{
    next.saturating_sub(1)
}

// What a subject is from a release on, and up to which one.
#[tactic(auto, using(crate::proofs::Lines::soonest_is), unfolding(crate::specs::rules::Questions::stretch_from))]
pub fn stretch_from(register: Register, subject: Subject, release: u32) -> Stretch
    ensures { result ≡ stretch_from register subject release }
{
    let found = ask(register, subject, release);
    let last = match found {
        Some(line) => line.until,
        None => last_before(soonest(register.lines(), subject, release)),
    };
    Stretch { found, last }
}

// The opcode of Boot Table.
pub const BOOT_TABLE: u32 = 0x5853_5907;

// How many bits a field has.
fn width_of(start: u32, stop: u32) -> u32
    requires { stop < 256 }
    ensures { result ≡ width_of start stop }
{
    if stop < start {
        return 1;
    }
    stop - start + 1
}

// The words that set a field, START and STOP in a byte each.
fn words_for(line: FieldLine, value: u32) -> [u32; 5]
    ensures { result ≡ words_for line value }
{
    let kind = 3 + ((line.start % 256) << 8) + ((line.stop % 256) << 16);
    [BOOT_TABLE, kind, line.word, value, 0]
}

// The command that sets the field of a line, if the value fits it.
#[tactic(auto, unfolding(crate::specs::rules::Commands::command_of, words::specs::rules::Choice::pick))]
fn command_of(line: FieldLine, value: u32) -> Result<[u32; 5], FieldRefusal>
    ensures { result ≡ command_of line value }
{
    if commands::too_wide(width_of(line.start % 256, line.stop % 256), value) {
        return Err(FieldRefusal::TooWide);
    }
    Ok(words_for(line, value))
}

// A field, a release and a value as the one Boot Table command that sets it.
pub fn command(
    register: Register,
    name: &[u8],
    release: u32,
    value: u32,
) -> Result<[u32; 5], FieldRefusal>
    ensures { result ≡ command_for register name.now release value }
{
    let line = line_of_name(register, name, release).ok_or(FieldRefusal::NoField)?;
    command_of(line, value)
}
