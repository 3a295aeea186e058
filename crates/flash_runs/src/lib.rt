// A run of one unchanged image from its opening, and beside chosen words two rows of entries. In one stands the number of the command that
// wrote each bit last, in the other that command's offset in the image. Its events are written into lent room.
#![tactic(auto)]

ghost use Rattle.std.specs.Prelude.{◌≡◌, length, take};
ghost use Rattle.bit_stamps.specs.rules.Stamps.{stamped};
ghost use Rattle.event_room.specs.rules.Room.{place_after, room_after};
ghost use Rattle.flash.specs.rules.Step.{step_of};
ghost use Rattle.flash_runs.specs.rules.Entries.{call_entries, call_offsets, run_entries, run_offsets, entries_from, offsets_from};
ghost use Rattle.commands.specs.rules.Wrote.{renumbered};
ghost use Rattle.flash_runs.specs.rules.Events.{run_events, events_from};
ghost use Rattle.flash_runs.specs.rules.Run.{goes_on, run_of, ran_from};

use commands::Wrote;
use flash_session::{Called, Opened, Session};
use opcodes::Event;

// What a run comes to: its last answer, and how many bytes of the room hold its events.
#[derive(Clone, Copy)]
pub struct Ran {
    pub called: Called,
    pub told: usize,
}

// Does the session go on after a call?
fn goes_on(called: Called) -> bool
    ensures { result ≡ goes_on called }
{
    called.refusal.is_none() && !called.session.ended
}

// The same bits, by another number.
fn renumber(number: u32, wrote: Wrote) -> Wrote
    ensures { result ≡ renumbered number wrote }
{
    Wrote {
        place: wrote.place,
        start: wrote.start,
        count: wrote.count,
        number,
    }
}

// The bits that a command at an offset wrote get its number, and its offset. Where there is nothing to stamp, no word is looked at.
fn stamp_both(
    wrote: Wrote,
    at: u32,
    count: usize,
    places: &[usize],
    numbers: &mut [u8],
    offsets: &mut [u8],
)
    ensures numbers_after { numbers.new ≡ stamped numbers.old (take count places.now) wrote }
    ensures offsets_after { offsets.new ≡ stamped offsets.old (take count places.now) (renumbered at wrote) }
{
    if wrote.count == 0 {
        return;
    }
    if count == 0 {
        return;
    }
    bit_stamps::stamp(numbers, count, places, wrote);
    if offsets.len() == 0 {
        return;
    }
    bit_stamps::stamp(offsets, count, places, renumber(at, wrote));
}

// One call, and what it wrote told in the entries.
fn call(
    session: Session,
    count: usize,
    places: &[usize],
    memory: &mut [u8],
    image: &[u8],
    numbers: &mut [u8],
    offsets: &mut [u8],
) -> Called
    ensures value { result ≡ (step_of session memory.old image.now).answer }
    ensures memory_after { memory.new ≡ (step_of session memory.old image.now).memory }
    ensures numbers_after { numbers.new ≡ call_entries (take count places.now) numbers.old session memory.old image.now }
    ensures offsets_after { offsets.new ≡ call_offsets (take count places.now) offsets.old session memory.old image.now }
{
    let called = flash::step(session, memory, image);
    let wrote = called.wrote;
    stamp_both(wrote, called.at, count, places, numbers, offsets);
    called
}

// Calls until one is refused or the session ends; the event of each is told in the room.
fn run(
    session: Session,
    count: usize,
    places: &[usize],
    memory: &mut [u8],
    image: &[u8],
    numbers: &mut [u8],
    offsets: &mut [u8],
    room: &mut [u8],
) -> Ran
    ensures called_value { result.called ≡ (run_of session memory.old image.now).answer }
    ensures memory_after { memory.new ≡ (run_of session memory.old image.now).memory }
    ensures numbers_after { numbers.new ≡ run_entries (take count places.now) numbers.old session memory.old image.now }
    ensures offsets_after { offsets.new ≡ run_offsets (take count places.now) offsets.old session memory.old image.now }
    ensures told_value { result.told ≡ place_after (length room.old) 0 (run_events session memory.old image.now) }
    ensures room_after { room.new ≡ room_after room.old 0 (run_events session memory.old image.now) }
{
    let mut left = ((session.limit as u64) + 1) * ((session.length as u64) / 4);
    let mut live = session;
    let mut place: usize = 0;
    loop {
        let called = call(live, count, places, memory, image, numbers, offsets);
        let event = called.event;
        place = event_room::tell(room, place, event);
        if left == 0 || !goes_on(called) {
            return Ran {
                called,
                told: place,
            };
        }
        live = called.session;
        left -= 1;
    }
}

// Runs the image from an opening, the first count places watched; where that is refused, nothing is run. An empty row of entries stays empty, and so does an
// empty room.
pub fn run_from(
    opened: Opened,
    count: usize,
    places: &[usize],
    memory: &mut [u8],
    image: &[u8],
    numbers: &mut [u8],
    offsets: &mut [u8],
    room: &mut [u8],
) -> Ran
    ensures called_value { result.called ≡ (ran_from opened memory.old image.now).answer }
    ensures memory_after { memory.new ≡ (ran_from opened memory.old image.now).memory }
    ensures numbers_after { numbers.new ≡ entries_from (take count places.now) numbers.old opened memory.old image.now }
    ensures offsets_after { offsets.new ≡ offsets_from (take count places.now) offsets.old opened memory.old image.now }
    ensures told_value { result.told ≡ place_after (length room.old) 0 (events_from opened memory.old image.now) }
    ensures room_after { room.new ≡ room_after room.old 0 (events_from opened memory.old image.now) }
{
    let refusal = opened.refusal;
    let session = opened.session;
    if refusal.is_none() {
        return run(
            session, count, places, memory, image, numbers, offsets, room,
        );
    }
    let wrote = commands::wrote_none();
    let called = Called {
        refusal,
        event: Event::Nothing,
        at: 0,
        session,
        wrote,
    };
    Ran { called, told: 0 }
}

// The same with no word watched, its events told in the room. All runs share one loop, so that the step has one caller.
pub fn run_told(opened: Opened, memory: &mut [u8], image: &[u8], room: &mut [u8]) -> Ran
    ensures called_value { result.called ≡ (ran_from opened memory.old image.now).answer }
    ensures memory_after { memory.new ≡ (ran_from opened memory.old image.now).memory }
    ensures told_value { result.told ≡ place_after (length room.old) 0 (events_from opened memory.old image.now) }
    ensures room_after { room.new ≡ room_after room.old 0 (events_from opened memory.old image.now) }
{
    let places = [0usize; 0];
    let mut numbers = [0u8; 0];
    let mut offsets = [0u8; 0];
    run_from(
        opened,
        0,
        &places,
        memory,
        image,
        &mut numbers,
        &mut offsets,
        room,
    )
}

// The same with nothing told.
pub fn run_plain(opened: Opened, memory: &mut [u8], image: &[u8]) -> Called
    ensures value { result ≡ (ran_from opened memory.old image.now).answer }
    ensures memory_after { memory.new ≡ (ran_from opened memory.old image.now).memory }
{
    let mut room = [0u8; 0];
    let ran = run_told(opened, memory, image, &mut room);
    ran.called
}
