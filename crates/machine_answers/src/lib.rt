// What a word of sent mode may change, and the answers to a word: refused, said, with what was written, done, entered.
#![tactic(auto)]

pub mod counts;

ghost use Rattle.std.specs.Prelude.{◌≡◌, Some};
ghost use Rattle.machine_answers.specs.rules.Answers.{tallied, await, stop, refused, said, writing, after, entered};
ghost use Rattle.machine_answers.specs.rules.Replies.{silence, one_word, acknowledged, farewell};

use commands::{Done, Wrote};
use ledger::Totals;
use opcodes::{Command, Dialect, Event, Refusal};
use windows::Window;

// What Start-Over takes back.
#[derive(Clone, Copy)]
pub struct Tally {
    pub checksum: u32,
    pub totals: Totals,
}

// The last three argument words of a command that came before its last, the latest third.
#[derive(Clone, Copy)]
pub struct Kept {
    pub third: u32,
    pub second: u32,
    pub first: u32,
}

// What the word machine awaits next, with what it needs to know then. Argument: of which command, how many are left, and those kept. Data: the place past
// the range, and the bytes left. Echo: how many words are left.
#[derive(Clone, Copy)]
pub enum Phase {
    Opcode,
    Argument(Command, u32, Kept),
    Data(usize, u32),
    Echo(u32),
}

// A phase in a struct of its own, since an enum field is not assigned.
#[derive(Clone, Copy)]
pub struct Stage {
    pub phase: Phase,
}

// What a word may change: the windows and the dialect stay. `begun` says that an opcode has been acknowledged.
#[derive(Clone, Copy)]
pub struct Core {
    pub windows: [Window; 8],
    pub dialect: Dialect,
    pub ended: bool,
    pub on: bool,
    pub begun: bool,
    pub tally: Tally,
    pub stage: Stage,
}

// At most eight bytes for the host.
#[derive(Clone, Copy)]
pub struct Reply {
    pub bytes: [u8; 8],
    pub count: u32,
}

// The answer to a whole word; `wrote` is the bits of memory that were written.
#[derive(Clone, Copy)]
pub struct Taken {
    pub refusal: Option<Refusal>,
    pub reply: Reply,
    pub event: Event,
    pub core: Core,
    pub wrote: Wrote,
}

// No reply.
pub fn silent() -> Reply
    ensures { result ≡ silence }
{
    Reply {
        bytes: [0; 8],
        count: 0,
    }
}

// An opcode with the top byte of an acknowledgement.
#[tactic(auto, unfolding(crate::specs::rules::Replies::acknowledged))]
pub fn acknowledgement(opcode: u32) -> u32
    ensures { result ≡ acknowledged opcode }
{
    0x5200_0000 + opcode % 0x0100_0000
}

// One word for the host.
#[tactic(auto, unfolding(crate::specs::rules::Replies::one_word))]
pub fn reply_word(word: u32) -> Reply
    ensures { result ≡ one_word word }
{
    Reply {
        bytes: [
            words::byte_of(word, 0),
            words::byte_of(word, 1),
            words::byte_of(word, 2),
            words::byte_of(word, 3),
            0,
            0,
            0,
            0,
        ],
        count: 4,
    }
}

// DONE, which a DM648 says on entering.
pub const DONE: u32 = 0x454E_4F44;

// What is said on entering.
fn last_reply(dialect: Dialect) -> Reply
    ensures { result ≡ farewell dialect }
{
    match dialect {
        Dialect::Am17xx => silent(),
        Dialect::Dm648 => reply_word(DONE),
    }
}

// The core with another checksum and other totals, awaiting another word.
pub fn moved(core: Core, checksum: u32, totals: Totals, phase: Phase) -> Core
    ensures { result ≡ await core (tallied checksum totals) phase }
{
    let tally = Tally { checksum, totals };
    let stage = Stage { phase };
    let mut next = core;
    next.tally = tally;
    next.stage = stage;
    next
}

// The core, ended.
fn stopped(core: Core) -> Core
    ensures { result ≡ stop core }
{
    let mut over = core;
    over.ended = true;
    over
}

// Refused: no reply, no event, the session ended.
pub fn refuse(core: Core, refusal: Refusal) -> Taken
    ensures { result ≡ refused core (Some refusal) }
{
    Taken {
        refusal: Some(refusal),
        reply: silent(),
        event: Event::Nothing,
        core: stopped(core),
        wrote: commands::wrote_none(),
    }
}

// Accepted, with a reply.
pub fn say(reply: Reply, core: Core) -> Taken
    ensures { result ≡ said reply core }
{
    let refusal = None;
    Taken {
        refusal,
        reply,
        event: Event::Nothing,
        core,
        wrote: commands::wrote_none(),
    }
}

// The answer with what was written.
pub fn tell_wrote(taken: Taken, wrote: Wrote) -> Taken
    ensures { result ≡ writing wrote taken }
{
    let mut told = taken;
    told.wrote = wrote;
    told
}

// The answer to a command that was judged and done, with the totals that it leaves.
#[tactic(auto, unfolding(crate::specs::rules::Answers::after, words::specs::rules::Choice::pick))]
pub fn finish(core: Core, totals: Totals, done: Done) -> Taken
    ensures { result ≡ after core totals done }
{
    match done.refusal {
        None => Taken {
            refusal: None,
            reply: silent(),
            event: done.event,
            core: moved(core, done.checksum, totals, Phase::Opcode),
            wrote: commands::wrote_none(),
        },
        Some(refusal) => refuse(core, refusal),
    }
}

// Entered: the session is ended, and a DM648 says DONE.
#[tactic(auto, unfolding(crate::specs::rules::Answers::entered, words::specs::rules::Choice::pick))]
pub fn enter(taken: Taken) -> Taken
    ensures { result ≡ entered taken }
{
    if taken.refusal.is_none() {
        let core = taken.core;
        let mut last = taken;
        last.reply = last_reply(core.dialect);
        last.core = stopped(core);
        return last;
    }
    taken
}
