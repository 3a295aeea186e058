// The running totals of a session and the numbers of its commands, their mark, and the Request that waits to be settled.
#![tactic(auto)]

ghost use Rattle.std.specs.Prelude.{◌≡◌};
ghost use Rattle.ledger.specs.rules.Totals.{nothing, at_opening, from_one, is_past, would_pass, differs, one_more, counted, is_spent};
ghost use Rattle.ledger.specs.rules.Totals.{following, numbered, marked, settled, asking, put_back, turned, in_flash};

use opcodes::{Command, Dialect};

// How many sections were loaded.
#[derive(Clone, Copy, Debug, PartialEq, Eq)]
pub struct Sections(pub u32);

// How many bytes were loaded.
#[derive(Clone, Copy, Debug, PartialEq, Eq)]
pub struct Bytes(pub u32);

// What stands at a point of a session.
#[derive(Clone, Copy, Debug, PartialEq, Eq)]
pub struct Standing {
    pub sections: Sections,
    pub bytes: Bytes,
}

// What stands now and what stood at the mark; `asked` while a Request stands unsettled. `next` is the number of the next command, `back` what it was at the
// mark; both are 0 where no numbers are kept.
#[derive(Clone, Copy, Debug, PartialEq, Eq)]
pub struct Totals {
    pub now: Standing,
    pub mark: Standing,
    pub asked: bool,
    pub next: u32,
    pub back: u32,
}

// What a flash call that is accepted may be to the totals: a load or a fill of so many bytes, a setting, an Enable, a Request that matches, one that leads to a
// retry, any other command.
#[derive(Clone, Copy, Debug, PartialEq, Eq)]
pub enum Happening {
    Section(u32),
    Setting,
    Enable,
    Passed,
    Retried,
    Other,
}

impl Totals {
    // The largest total.
    pub const MOST: u64 = 4294967295;

    // The first number that no command gets.
    pub const SPENT: u32 = 65536;

    // At an opening; no numbers are kept.
    pub fn zero() -> Totals
        ensures { result ≡ at_opening }
    {
        Totals {
            now: nothing(),
            mark: nothing(),
            asked: false,
            next: 0,
            back: 0,
        }
    }

    // The same totals, put together field by field: copied whole they take along the bytes between the fields, which the next step then waits for.
    pub fn anew(self) -> Totals
        ensures { result ≡ self }
    {
        let now = self.now;
        let mark = self.mark;
        Totals {
            now,
            mark,
            asked: self.asked,
            next: self.next,
            back: self.back,
        }
    }

    // The same, the commands numbered from 1.
    pub fn from_one(self) -> Totals
        ensures { result ≡ from_one self }
    {
        Totals {
            next: 1,
            back: 1,
            ..self
        }
    }

    // Are the numbers spent?
    pub fn is_spent(self) -> bool
        ensures { result ≡ is_spent self }
    {
        Self::SPENT <= self.next
    }

    // The next number is taken.
    pub fn number(self) -> Totals
        ensures { result ≡ numbered self }
    {
        Totals {
            next: following(self.next),
            ..self
        }
    }

    // Does one more section of so many bytes take a total past the largest? Only a DM648 counts.
    pub fn would_pass(self, dialect: Dialect, size: u32) -> bool
        ensures { result ≡ would_pass dialect self size }
    {
        match dialect {
            Dialect::Am17xx => false,
            Dialect::Dm648 => is_past(self.now, size),
        }
    }

    // Are the totals that a close names other than those that stand now? Only a DM648 names them.
    pub fn differ(self, dialect: Dialect, named: Standing) -> bool
        ensures { result ≡ differs dialect self named }
    {
        match dialect {
            Dialect::Am17xx => false,
            Dialect::Dm648 => self.now != named,
        }
    }

    // One more section of so many bytes.
    pub fn count(self, dialect: Dialect, size: u32) -> Totals
        ensures { result ≡ counted dialect self size }
    {
        match dialect {
            Dialect::Am17xx => self,
            Dialect::Dm648 => Totals {
                now: one_more(self.now, size),
                ..self
            },
        }
    }

    // The mark is now.
    pub fn mark(self) -> Totals
        ensures { result ≡ marked self }
    {
        Totals {
            mark: self.now,
            asked: false,
            back: self.next,
            ..self
        }
    }

    // A Request that stands unsettled is settled: no retry came, so the mark is now.
    pub fn settle(self) -> Totals
        ensures { result ≡ settled self }
    {
        if self.asked {
            return self.mark();
        }
        self
    }

    // A Request is taken, and stands unsettled.
    pub fn ask(self) -> Totals
        ensures { result ≡ asking self }
    {
        Totals {
            asked: true,
            ..self
        }
    }

    // A retry: what stands now is what stood at the mark.
    pub fn put_back(self) -> Totals
        ensures { result ≡ put_back self }
    {
        Totals {
            now: self.mark,
            asked: false,
            next: self.back,
            ..self
        }
    }

    // A sent opcode is taken: what it does to the mark and to a Request that stands.
    pub fn turn(self, command: Command) -> Totals
        ensures { result ≡ turned command self }
    {
        match command {
            Command::Load => self.settle(),
            Command::Fill => self.settle(),
            Command::BootTable => self.settle(),
            Command::Enable => self.mark(),
            Command::Disable => self.settle(),
            Command::Request => self.settle().ask(),
            Command::StartOver => self.put_back(),
            Command::JumpAndClose => self.settle(),
            Command::Ping => self.settle(),
            Command::SequentialRead => self.settle(),
        }
    }

    // A flash call is accepted: what happened in it.
    pub fn happen(self, dialect: Dialect, happening: Happening) -> Totals
        ensures { result ≡ in_flash dialect self happening }
    {
        match happening {
            Happening::Section(size) => self.count(dialect, size).number(),
            Happening::Setting => self.number(),
            Happening::Enable => self.mark(),
            Happening::Passed => self.mark(),
            Happening::Retried => self.put_back(),
            Happening::Other => self,
        }
    }
}

// Nothing is loaded.
fn nothing() -> Standing
    ensures { result ≡ nothing }
{
    Standing {
        sections: Sections(0),
        bytes: Bytes(0),
    }
}

// Would a total pass the largest with one more section of so many bytes?
fn is_past(now: Standing, size: u32) -> bool
    ensures { result ≡ is_past now size }
{
    Totals::MOST < (now.sections.0 as u64) + 1
        || Totals::MOST < (now.bytes.0 as u64) + (size as u64)
}

// One more section of so many bytes.
fn one_more(now: Standing, size: u32) -> Standing
    ensures { result ≡ one_more now size }
{
    Standing {
        sections: Sections(now.sections.0.wrapping_add(1)),
        bytes: Bytes(now.bytes.0.wrapping_add(size)),
    }
}

// The number after a number: none after none, and a spent one stays.
fn following(number: u32) -> u32
    ensures { result ≡ following number }
{
    if number == 0 {
        return 0;
    }
    if Totals::SPENT <= number {
        return number;
    }
    number + 1
}
