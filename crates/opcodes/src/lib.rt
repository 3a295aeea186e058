// The words of an Application Image Script: opcode rows, refusal numbers and events.
#![tactic(auto)]

ghost use Rattle.std.specs.Prelude.{◌≡◌};
ghost use Rattle.opcodes.specs.rules.Answers.{number_of, code_of, kind_of, value_of};
ghost use Rattle.opcodes.specs.rules.Opcodes.{in_mode, in_dialect, row_serves, looked_up};

// Why a call is refused.
#[derive(Clone, Copy, Debug, PartialEq, Eq)]
pub enum Refusal {
    Map,
    Memory,
    Image,
    Magic,
    Missing,
    Opcode,
    Range,
    TypeWord,
    Unaligned,
    Entry,
    Checksum,
    Seek,
    Ended,
    Retired,
    TooWide,
    Totals,
    Overflow,
    Call,
    Tries,
    Length,
    Digit,
    Room,
    Chosen,
    Number,
}

impl Refusal {
    // The number on a fitter's card.
    pub fn code(self) -> u8
        ensures { result ≡ number_of self }
    {
        match self {
            Refusal::Map => 1,
            Refusal::Memory => 2,
            Refusal::Image => 3,
            Refusal::Magic => 4,
            Refusal::Missing => 5,
            Refusal::Opcode => 6,
            Refusal::Range => 7,
            Refusal::TypeWord => 8,
            Refusal::Unaligned => 9,
            Refusal::Entry => 10,
            Refusal::Checksum => 11,
            Refusal::Seek => 12,
            Refusal::Ended => 14,
            Refusal::Retired => 15,
            Refusal::TooWide => 16,
            Refusal::Totals => 17,
            Refusal::Overflow => 18,
            Refusal::Call => 19,
            Refusal::Tries => 20,
            Refusal::Length => 21,
            Refusal::Digit => 22,
            Refusal::Room => 23,
            Refusal::Chosen => 24,
            Refusal::Number => 25,
        }
    }
}

// The number of what is said of a call; 0 where nothing is refused.
pub fn code_of(refusal: Option<Refusal>) -> u8
    ensures { result ≡ code_of refusal }
{
    match refusal {
        None => 0,
        Some(refusal) => refusal.code(),
    }
}

// What the caller is asked to do, since nothing is executed here.
#[derive(Clone, Copy, Debug, PartialEq, Eq)]
pub enum Event {
    Nothing,
    Wait(u32),
    Enter(u32),
}

impl Event {
    // 0 nothing, 1 wait, 3 enter; 2 was a call of the retired Jump.
    pub fn kind(self) -> u8
        ensures { result ≡ kind_of self }
    {
        match self {
            Event::Nothing => 0,
            Event::Wait(_) => 1,
            Event::Enter(_) => 3,
        }
    }

    // The cycles to wait, or the address to enter.
    pub fn value(self) -> u32
        ensures { result ≡ value_of self }
    {
        match self {
            Event::Nothing => 0,
            Event::Wait(cycles) => cycles,
            Event::Enter(address) => address,
        }
    }
}

// How the words of a script arrive.
#[derive(Clone, Copy, Debug, PartialEq, Eq)]
pub enum Mode {
    Sent,
    Flash,
}

// The board family that a script is written for.
#[derive(Clone, Copy, Debug, PartialEq, Eq)]
pub enum Dialect {
    Am17xx,
    Dm648,
}

#[derive(Clone, Copy, Debug, PartialEq, Eq)]
pub enum Command {
    Load,
    Fill,
    BootTable,
    Enable,
    Disable,
    Request,
    StartOver,
    JumpAndClose,
    Ping,
    SequentialRead,
}

// A row of the opcode table: how many argument words follow, and the modes and dialects that allow it.
#[derive(Clone, Copy)]
pub struct Row {
    pub opcode: u32,
    pub command: Command,
    pub words: u32,
    pub sent: bool,
    pub flash: bool,
    pub am17xx: bool,
    pub dm648: bool,
}

pub const ROWS: [Row; 12] = [
    Row {
        opcode: 0x5853_5901,
        command: Command::Load,
        words: 2,
        sent: true,
        flash: true,
        am17xx: true,
        dm648: true,
    },
    Row {
        opcode: 0x5853_590A,
        command: Command::Fill,
        words: 4,
        sent: true,
        flash: true,
        am17xx: true,
        dm648: true,
    },
    Row {
        opcode: 0x5853_5907,
        command: Command::BootTable,
        words: 4,
        sent: true,
        flash: true,
        am17xx: true,
        dm648: true,
    },
    Row {
        opcode: 0x5853_5903,
        command: Command::Enable,
        words: 0,
        sent: true,
        flash: true,
        am17xx: true,
        dm648: true,
    },
    Row {
        opcode: 0x5853_5904,
        command: Command::Disable,
        words: 0,
        sent: true,
        flash: true,
        am17xx: true,
        dm648: true,
    },
    Row {
        opcode: 0x5853_5902,
        command: Command::Request,
        words: 2,
        sent: false,
        flash: true,
        am17xx: true,
        dm648: true,
    },
    Row {
        opcode: 0x5853_5902,
        command: Command::Request,
        words: 0,
        sent: true,
        flash: false,
        am17xx: true,
        dm648: true,
    },
    Row {
        opcode: 0x5853_5908,
        command: Command::StartOver,
        words: 0,
        sent: true,
        flash: false,
        am17xx: true,
        dm648: true,
    },
    Row {
        opcode: 0x5853_5906,
        command: Command::JumpAndClose,
        words: 1,
        sent: true,
        flash: true,
        am17xx: true,
        dm648: false,
    },
    Row {
        opcode: 0x5853_5906,
        command: Command::JumpAndClose,
        words: 3,
        sent: true,
        flash: true,
        am17xx: false,
        dm648: true,
    },
    Row {
        opcode: 0x5853_590B,
        command: Command::Ping,
        words: 1,
        sent: true,
        flash: false,
        am17xx: true,
        dm648: true,
    },
    Row {
        opcode: 0x5853_5963,
        command: Command::SequentialRead,
        words: 0,
        sent: false,
        flash: true,
        am17xx: true,
        dm648: true,
    },
];

// The opcode that no mode takes any more: Jump.
pub const RETIRED: u32 = 0x5853_5905;

// A command with the count of its argument words, as the table has them.
#[derive(Clone, Copy, Debug, PartialEq, Eq)]
pub struct Known {
    pub command: Command,
    pub words: u32,
}

// Does a mode allow a row?
fn in_mode(row: Row, mode: Mode) -> bool
    ensures { result ≡ in_mode row mode }
{
    match mode {
        Mode::Sent => row.sent,
        Mode::Flash => row.flash,
    }
}

// Does a dialect allow a row?
fn in_dialect(row: Row, dialect: Dialect) -> bool
    ensures { result ≡ in_dialect row dialect }
{
    match dialect {
        Dialect::Am17xx => row.am17xx,
        Dialect::Dm648 => row.dm648,
    }
}

// Is this the row of an opcode in a mode and a dialect?
fn serves(row: Row, opcode: u32, mode: Mode, dialect: Dialect) -> bool
    ensures { result ≡ row_serves row opcode mode dialect }
{
    row.opcode == opcode && in_mode(row, mode) && in_dialect(row, dialect)
}

// The command of an opcode in a mode and a dialect, with its argument words: the first row that serves has them. Refused is the retired opcode, and an opcode
// that no row serves.
pub fn look_up(opcode: u32, mode: Mode, dialect: Dialect) -> Result<Known, Refusal>
    ensures { result ≡ looked_up opcode mode dialect }
{
    if opcode == RETIRED {
        return Err(Refusal::Retired);
    }
    for row in &ROWS {
        if serves(*row, opcode, mode, dialect) {
            return Ok(Known {
                command: row.command,
                words: row.words,
            });
        }
    }
    Err(Refusal::Opcode)
}
