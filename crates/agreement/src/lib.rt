// One image run from flash and sent by line, and what the two leave compared.
#![tactic(auto)]

ghost use Rattle.std.specs.Prelude.{◌≡◌, length};
ghost use Rattle.event_room.specs.rules.Room.{place_after, room_after};
ghost use Rattle.flash_runs.specs.rules.Events.{events_from};
ghost use Rattle.flash_runs.specs.rules.Run.{ran_from};
ghost use Rattle.checking.specs.rules.Report.{windows};
ghost use Rattle.agreement.specs.rules.Comparison.{in_flash, flash_events, by_line, end_of, lowest, difference_of, compared_of};
ghost use Rattle.agreement.specs.rules.Differing.{same_word, differing, first_unlike};

use exchange::Exchanged;
use flash_runs::Ran;
use flash_session::Session;
use opcodes::{Dialect, Event, Refusal};
use sent::Bus;

// How a flash run ended: its refusal, the offset of its last command, its retries, the event of its last call, and how many bytes of the room
// hold events.
#[derive(Clone, Copy)]
pub struct FlashEnd {
    pub refusal: Option<Refusal>,
    pub at: u32,
    pub retries: u8,
    pub event: Event,
    pub told: usize,
}

// How many words of two memories differ, and the address of the first.
#[derive(Clone, Copy)]
pub struct Difference {
    pub words: u32,
    pub first: u32,
}

// What a comparison tells: how the flash run and the exchange ended, and where the memories that they left differ.
#[derive(Clone, Copy)]
pub struct Compared {
    pub flash: FlashEnd,
    pub line: Exchanged,
    pub difference: Difference,
}

// The words of the check program's window, and the most tries of a wait.
const WORDS: u32 = 1024;

const MOST_TRIES: u32 = 1000;

// Is the word at a place the same in both memories?
fn is_same(flash: &[u8], line: &[u8], place: usize) -> bool
    ensures { result ≡ same_word flash.now line.now place }
{
    words::word_at(flash, place) == words::word_at(line, place)
}

// How many words of two memories differ.
fn count_differing(flash: &[u8], line: &[u8]) -> u32
    ensures { result ≡ differing 1024 0 flash.now line.now }
{
    let mut count: u32 = 0;
    for word in 0..WORDS {
        if !is_same(flash, line, 4 * word as usize) {
            count += 1;
        }
    }
    count
}

// The place of the first word that differs; the place behind them all where none does.
fn first_unlike(flash: &[u8], line: &[u8]) -> u32
    ensures { result ≡ first_unlike 1024 0 flash.now line.now }
{
    for word in 0..WORDS {
        if !is_same(flash, line, 4 * word as usize) {
            return 4 * word;
        }
    }
    4 * WORDS
}

// The first address of the window.
fn lowest() -> u32
    ensures { result ≡ lowest windows }
{
    let windows = checking::windows();
    windows[0].first
}

// Where two memories differ.
fn differ(flash: &[u8], line: &[u8]) -> Difference
    ensures { result ≡ difference_of flash.now line.now }
{
    let words = count_differing(flash, line);
    if words == 0 {
        return Difference { words: 0, first: 0 };
    }
    let first = lowest() + first_unlike(flash, line);
    Difference { words, first }
}

// What is told of a run.
fn end_of(ran: Ran) -> FlashEnd
    ensures { result ≡ end_of ran.called ran.told }
{
    let called = ran.called;
    let event = called.event;
    FlashEnd {
        refusal: called.refusal,
        at: called.at,
        retries: called.session.retries,
        event,
        told: ran.told,
    }
}

// The flash run.
fn run_flash(
    dialect: Dialect,
    memory: &mut [u8],
    image: &[u8],
    limit: u8,
    room: &mut [u8],
) -> FlashEnd
    ensures value { result ≡ end_of (ran_from (in_flash dialect image.now limit) memory.old image.now).answer
        (place_after (length room.old) 0 (events_from (in_flash dialect image.now limit) memory.old image.now)) }
    ensures memory_after { memory.new ≡ (ran_from (in_flash dialect image.now limit) memory.old image.now).memory }
    ensures room_after { room.new
        ≡ room_after room.old 0 (events_from (in_flash dialect image.now limit) memory.old image.now) }
{
    let opened = Session::open(dialect, 1, checking::windows(), image, limit);
    end_of(flash_runs::run_told(opened, memory, image, room))
}

// Both ends, and the memories compared, however the two ended.
fn compare_ends(ran: FlashEnd, talked: Exchanged, flash: &[u8], line: &[u8]) -> Compared
    ensures flash_value { result.flash ≡ ran }
    ensures line_value { result.line ≡ talked }
    ensures difference_value { result.difference ≡ difference_of flash.now line.now }
{
    let difference = differ(flash, line);
    Compared {
        flash: ran,
        line: talked,
        difference,
    }
}

// Runs an image from flash and by line with so many retries at most, and compares what they leave. The events of the run are told in the first room, those of
// the exchange in the second.
pub fn compare(
    bus: Bus,
    dialect: Dialect,
    image: &[u8],
    limit: u8,
    first: &mut [u8],
    second: &mut [u8],
) -> Compared
    ensures value { result ≡ compared_of bus dialect image.now limit (length first.old) (length second.old) }
    ensures first_after { first.new ≡ room_after first.old 0 (flash_events dialect image.now limit) }
    ensures second_after { second.new ≡ room_after second.old 0 (by_line bus dialect image.now limit).events }
{
    let mut flash = [0u8; 4096];
    let mut line = [0u8; 4096];
    let ran = run_flash(dialect, &mut flash, image, limit, first);
    let talked = exchange::exchange(
        bus,
        dialect,
        1,
        checking::windows(),
        &mut line,
        image,
        MOST_TRIES,
        limit,
        0,
        second,
    );
    compare_ends(ran, talked, &flash, &line)
}
