// Sent mode: a host feeds units over a line, bytes or halves of a word; so many make a word, and the word machine takes whole words.
#![tactic(auto)]

ghost use Rattle.std.specs.Prelude.{◌≡◌, [], true, ◌+◌, ◌-◌, ◌*◌, ◌^◌, ◌<◌, eqb, get_or, replicate, Some};
ghost use Rattle.words.specs.rules.Choice.{pick};
ghost use Rattle.checksum.specs.rules.Checksum.{fed};
ghost use Rattle.windows.specs.rules.Map.{zero_window};
ghost use Rattle.opcodes.specs.rules.Answers.{accepted, code_of};
ghost use Rattle.ledger.specs.declared.Totals.{Totals};
ghost use Rattle.sent.specs.rules.Bus.{unit_bits, units_in_word, start_unit, halves_of, units_fed, pushed};
ghost use Rattle.sent.specs.rules.Line.{plainly, gathered, carried, is_start, unit_step};
ghost use Rattle.machine_answers.specs.rules.Answers.{◌leaving◌};
ghost use Rattle.machine.specs.rules.Machine.{begun};
ghost use Rattle.sent.specs.rules.Opening.{greeting, at_start, opened_by, from_one_on, numbering_from};
ghost use Rattle.machine_answers.specs.rules.Replies.{silence};
ghost use Rattle.sent.specs.rules.Line.{start_answer};

use commands::Wrote;
use ledger::Totals;
use machine_answers::{Core, Phase, Reply, Stage, Taken, Tally};
use opcodes::{Dialect, Event, Refusal};
use windows::Window;

// A line by its unit of transfer: bytes, or halves of a word.
#[derive(Clone, Copy)]
pub enum Bus {
    Bytes,
    Halves,
}

// What the line has gathered: whether the start unit was answered, and the units of an unfinished word.
#[derive(Clone, Copy)]
pub struct Line {
    pub started: bool,
    pub have: u8,
    pub word: u32,
}

// A standing sent session.
#[derive(Clone, Copy)]
pub struct Session {
    pub core: Core,
    pub line: Line,
}

// The answer to a unit, likewise.
#[derive(Clone, Copy)]
pub struct Answer {
    pub refusal: Option<Refusal>,
    pub reply: Reply,
    pub event: Event,
    pub session: Session,
    pub wrote: Wrote,
}

// The answer to an opening, with the greeting where it is not refused.
#[derive(Clone, Copy)]
pub struct Opened {
    pub refusal: Option<Refusal>,
    pub reply: Reply,
    pub session: Session,
}

impl Session {
    // BOOTME, sent once when a session is opened on the line of bytes.
    pub const GREETING: [u8; 6] = [0x42, 0x4F, 0x4F, 0x54, 0x4D, 0x45];

    // The most bytes of a reply.
    pub const MOST_REPLY: usize = 8;

    // The start byte and the start half.
    pub const START: u8 = 0x58;

    pub const START_HALF: u16 = 0x5853;

    // A session of a dialect from a map, and its greeting; refused it is ended and says nothing.
    pub fn open(dialect: Dialect, count: usize, windows: [Window; 8]) -> Opened
        ensures { result ≡ opened_by Bus.Bytes dialect count windows }
    {
        open_on(Bus::Bytes, dialect, count, windows)
    }

    // The same on the line of halves, which has no greeting.
    pub fn open_halves(dialect: Dialect, count: usize, windows: [Window; 8]) -> Opened
        ensures { result ≡ opened_by Bus.Halves dialect count windows }
    {
        open_on(Bus::Halves, dialect, count, windows)
    }

    // One byte from the host.
    pub fn step(self, memory: &mut [u8], byte: u8) -> Answer
        ensures value { result ≡ (unit_step Bus.Bytes self memory.old byte).answer }
        ensures memory_after { memory.new ≡ (unit_step Bus.Bytes self memory.old byte).memory }
    {
        take_unit(self, memory, Bus::Bytes, byte as u32)
    }

    // One half from the host.
    pub fn step_half(self, memory: &mut [u8], half: u16) -> Answer
        ensures value { result ≡ (unit_step Bus.Halves self memory.old half).answer }
        ensures memory_after { memory.new ≡ (unit_step Bus.Halves self memory.old half).memory }
    {
        take_unit(self, memory, Bus::Halves, half as u32)
    }

    // One unit of lent bytes, by its place among them, of a line that is itself given.
    pub fn step_at(self, memory: &mut [u8], bus: Bus, fed: &[u8], i: usize) -> Answer
        ensures value { result ≡ (unit_step bus self memory.old (get_or (units_fed bus fed.now) i 0)).answer }
        ensures memory_after { memory.new ≡ (unit_step bus self memory.old (get_or (units_fed bus fed.now) i 0)).memory }
    {
        take_unit(self, memory, bus, unit_at(bus, fed, i))
    }
}

// A byte by its place; 0 past the last.
fn byte_at(fed: &[u8], i: usize) -> u8
    ensures { result ≡ get_or fed.now i 0 }
{
    if i < fed.len() { fed[i] } else { 0 }
}

// A half of two bytes, the low one first.
fn half_of(low: u8, high: u8) -> u16
    ensures { result ≡ low + high * 2 ^ 8 }
{
    (low as u16) + ((high as u16) << 8)
}

// A half by its place; 0 past the last.
fn half_at(fed: &[u8], i: usize) -> u16
    ensures { result ≡ get_or (halves_of fed.now) i 0 }
{
    if i < fed.len() / 2 {
        let low = fed[2 * i];
        let high = fed[2 * i + 1];
        return half_of(low, high);
    }
    0
}

// A unit by its place; 0 past the last.
fn unit_at(bus: Bus, fed: &[u8], i: usize) -> u32
    ensures value { result ≡ get_or (units_fed bus fed.now) i 0 }
    ensures upper_bound { result < 2 ^ unit_bits bus }
{
    match bus {
        Bus::Bytes => byte_at(fed, i) as u32,
        Bus::Halves => half_at(fed, i) as u32,
    }
}

// A session on a line that is itself given, of a dialect, from a map, and its greeting; refused it is ended and says nothing.
pub fn open_on(bus: Bus, dialect: Dialect, count: usize, windows: [Window; 8]) -> Opened
    ensures { result ≡ opened_by bus dialect count windows }
{
    if !windows::is_good(count, windows) {
        return shut();
    }
    Opened {
        refusal: None,
        reply: greet(bus),
        session: begin(dialect, windows::kept(count, windows), false),
    }
}

// The same with its commands numbered from 1.
pub fn open_numbering(bus: Bus, dialect: Dialect, count: usize, windows: [Window; 8]) -> Opened
    ensures { result ≡ numbering_from (opened_by bus dialect count windows) }
{
    let opened = open_on(bus, dialect, count, windows);
    number_from(opened)
}

// An opening that is not refused, its commands numbered from 1.
fn number_from(opened: Opened) -> Opened
    ensures { result ≡ numbering_from opened }
{
    let refusal = opened.refusal;
    if refusal.is_none() {
        let reply = opened.reply;
        let session = from_one(opened.session);
        return Opened {
            refusal,
            reply,
            session,
        };
    }
    opened
}

// The session with its commands numbered from 1.
fn from_one(session: Session) -> Session
    ensures { result ≡ from_one_on session }
{
    let core = session.core;
    let tally = core.tally;
    let totals = tally.totals;
    let first = Tally {
        checksum: tally.checksum,
        totals: totals.from_one(),
    };
    let mut numbered = core;
    numbered.tally = first;
    let mut next = session;
    next.core = numbered;
    next
}

// One unit of a line.
fn take_unit(session: Session, memory: &mut [u8], bus: Bus, unit: u32) -> Answer
    requires { unit < 2 ^ unit_bits bus }
    ensures value { result ≡ (unit_step bus session memory.old unit).answer }
    ensures memory_after { memory.new ≡ (unit_step bus session memory.old unit).memory }
{
    hear(anew(session), memory, bus, unit)
}

// What a session does with it: the tests in their order, then the gathering, then the whole word.
fn hear(session: Session, memory: &mut [u8], bus: Bus, unit: u32) -> Answer
    requires { unit < 2 ^ unit_bits bus }
    ensures value { result ≡ (unit_step bus session memory.old unit).answer }
    ensures memory_after { memory.new ≡ (unit_step bus session memory.old unit).memory }
{
    let core = session.core;
    if core.ended {
        return tell(Some(Refusal::Ended), machine_answers::silent(), session);
    }
    let windows = core.windows;
    if memory.len() != windows::sum(windows) {
        return tell(Some(Refusal::Memory), machine_answers::silent(), session);
    }
    let line = session.line;
    if is_start(bus, session, unit) {
        let started = gather(session, true, line.have, line.word);
        return tell(None, start_reply(bus), started);
    }
    if !line.started {
        return tell(None, machine_answers::silent(), session);
    }
    let word = push(bus, line.word, unit);
    if line.have < last_unit(bus) {
        let gathered = gather(session, true, line.have + 1, word);
        return tell(None, machine_answers::silent(), gathered);
    }
    carry(session, machine::take_word(core, memory, word))
}

// A session at the very start, or one that never opened.
fn begin(dialect: Dialect, windows: [Window; 8], ended: bool) -> Session
    ensures { result ≡ at_start dialect windows ended }
{
    let totals = Totals::zero();
    let tally = Tally {
        checksum: 0,
        totals,
    };
    let stage = Stage {
        phase: Phase::Opcode,
    };
    Session {
        core: Core {
            windows,
            dialect,
            ended,
            on: false,
            begun: false,
            tally,
            stage,
        },
        line: Line {
            started: false,
            have: 0,
            word: 0,
        },
    }
}

// A refused opening.
fn shut() -> Opened
    ensures { result ≡ record { refusal = Some Refusal.Map; reply = silence; session = at_start Dialect.Am17xx (replicate 8 zero_window) true } }
{
    let none = Window {
        first: 0,
        length: 0,
        rights: 0,
    };
    Opened {
        refusal: Some(Refusal::Map),
        reply: machine_answers::silent(),
        session: begin(Dialect::Am17xx, [none; 8], true),
    }
}

// BOOTME, or nothing on the line of halves.
fn greet(bus: Bus) -> Reply
    ensures { result ≡ greeting bus }
{
    match bus {
        Bus::Bytes => bootme(),
        Bus::Halves => machine_answers::silent(),
    }
}

// BOOTME.
fn bootme() -> Reply
    ensures { result ≡ greeting Bus.Bytes }
{
    let letters = Session::GREETING;
    Reply {
        bytes: [
            letters[0], letters[1], letters[2], letters[3], letters[4], letters[5], 0, 0,
        ],
        count: 6,
    }
}

// The answer to the start unit.
fn start_reply(bus: Bus) -> Reply
    ensures { result ≡ start_answer bus }
{
    match bus {
        Bus::Bytes => Reply {
            bytes: [0x52, 0, 0, 0, 0, 0, 0, 0],
            count: 1,
        },
        Bus::Halves => Reply {
            bytes: [0x53, 0x52, 0, 0, 0, 0, 0, 0],
            count: 2,
        },
    }
}

// An answer with no event.
fn tell(refusal: Option<Refusal>, reply: Reply, session: Session) -> Answer
    ensures { result ≡ (plainly refusal reply session []).answer }
{
    Answer {
        refusal,
        reply,
        event: Event::Nothing,
        session,
        wrote: commands::wrote_none(),
    }
}

// The session with other things gathered on the line.
fn gather(session: Session, started: bool, have: u8, word: u32) -> Session
    ensures { result ≡ gathered session started have word }
{
    let line = Line {
        started,
        have,
        word,
    };
    let mut next = session;
    next.line = line;
    next
}

// The same session, put together field by field, so that no unit waits for the bytes between the fields of the last one.
fn anew(session: Session) -> Session
    ensures { result ≡ session }
{
    let core = session.core;
    let tally = core.tally;
    let totals = tally.totals;
    let same = Tally {
        checksum: tally.checksum,
        totals: totals.anew(),
    };
    let windows = core.windows;
    let dialect = core.dialect;
    let stage = core.stage;
    let line = session.line;
    Session {
        core: Core {
            windows,
            dialect,
            ended: core.ended,
            on: core.on,
            begun: core.begun,
            tally: same,
            stage,
        },
        line: Line {
            started: line.started,
            have: line.have,
            word: line.word,
        },
    }
}

// The start unit of a line.
fn start_unit(bus: Bus) -> u32
    ensures { result ≡ start_unit bus }
{
    match bus {
        Bus::Bytes => Session::START as u32,
        Bus::Halves => Session::START_HALF as u32,
    }
}

// Is a unit the start unit?
fn is_start(bus: Bus, session: Session, unit: u32) -> bool
    ensures { result ≡ is_start bus session unit }
{
    if unit != start_unit(bus) {
        return false;
    }
    let line = session.line;
    if !line.started {
        return true;
    }
    if line.have != 0 {
        return false;
    }
    let core = session.core;
    !core.begun
}

// How many units of a word come before its last.
fn last_unit(bus: Bus) -> u8
    ensures { result ≡ units_in_word bus - 1 }
{
    match bus {
        Bus::Bytes => 3,
        Bus::Halves => 1,
    }
}

// A unit comes into a word from above.
fn push(bus: Bus, word: u32, unit: u32) -> u32
    requires { unit < 2 ^ unit_bits bus }
    ensures { result ≡ pushed bus word unit }
{
    match bus {
        Bus::Bytes => (word >> 8) + (unit << 24),
        Bus::Halves => (word >> 16) + (unit << 16),
    }
}

// The line after a whole word: refused, its units stay gathered; accepted, the next word begins.
fn line_after(line: Line, refusal: Option<Refusal>) -> Line
    ensures { result ≡ pick (accepted refusal) (record { started = line.started; have = 0; word = 0 }) line }
{
    if refusal.is_none() {
        return Line {
            started: line.started,
            have: 0,
            word: 0,
        };
    }
    line
}

// The answer to a whole word, on the line.
fn carry(session: Session, taken: Taken) -> Answer
    ensures { result ≡ (carried session (taken leaving [])).answer }
{
    let refusal = taken.refusal;
    let reply = taken.reply;
    let event = taken.event;
    let core = taken.core;
    let wrote = taken.wrote;
    let line = line_after(session.line, refusal);
    Answer {
        refusal,
        reply,
        event,
        session: Session { core, line },
        wrote,
    }
}
