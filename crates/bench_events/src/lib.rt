// Flash runs and exchanges for C with their events: each event two words in lent room, and one number.
#![tactic(auto)]

ghost use Rattle.std.specs.Prelude.{◌≡◌, ◌+◌, ◌*◌, ◌/◌, ◌%◌, ◌^◌, min};
ghost use Rattle.opcodes.specs.rules.Answers.{code_of};
ghost use Rattle.flash_session.specs.rules.Opening.{longest};
ghost use Rattle.flash_runs.specs.rules.Events.{most_events};
ghost use Rattle.bench_sessions.specs.rules.Feeding.{outcome};
ghost use Rattle.bench_events.specs.rules.Events.{is_short, told_value, flash_events, host_events};

use flash_session::Session;
use opcodes::Refusal;

// The bytes of room that the most events take. Of an image at most the longest counts.
fn room_for(limit: u8, length: usize) -> usize
    ensures { result ≡ 8 * most_events limit length }
{
    let waits = length.min(Session::LONGEST) / 20;
    8 * (((limit as usize) + 1) * waits + 1)
}

// Is a room of so many bytes too short for the events of a run?
fn is_short(lent: usize, limit: u8, length: usize) -> bool
    ensures { result ≡ is_short lent limit length }
{
    lent < room_for(limit, length)
}

// A refusal and a count of events in one number.
fn value_of(code: u8, told: usize) -> u64
    ensures { result ≡ told_value code told }
{
    ((code as u64) << 56) + ((told as u64) / 8) % (1 << 56)
}

// One whole flash run in a dialect by number, its events told in the room.
pub fn flash_events(
    dialect: u8,
    map: &[u8],
    memory: &mut [u8],
    image: &[u8],
    limit: u8,
    room: &mut [u8],
) -> u64
    ensures { outcome result memory.new room.new
        ≡ flash_events dialect map.now memory.old image.now limit room.old }
{
    if 1 < dialect {
        return bench_sessions::only_refusal(Refusal::Call);
    }
    if is_short(room.len(), limit, image.len()) {
        return bench_sessions::only_refusal(Refusal::Room);
    }
    let opened = Session::open(
        bench_sessions::dialect_of(dialect),
        bench_sessions::maps::count_of(map),
        bench_sessions::maps::windows_of(map),
        image,
        limit,
    );
    let ran = flash_runs::run_told(opened, memory, image, room);
    value_of(opcodes::code_of(ran.called.refusal), ran.told)
}

// A whole exchange of a freshly opened host and loader, the loader's events told in the room.
pub fn host_events(
    line: u8,
    dialect: u8,
    map: &[u8],
    memory: &mut [u8],
    image: &[u8],
    tries: u32,
    limit: u8,
    pings: u32,
    room: &mut [u8],
) -> u64
    ensures { outcome result memory.new room.new
        ≡ host_events line dialect map.now memory.old image.now tries limit pings room.old }
{
    if !bench_hosts::are_named(line, dialect) {
        return bench_sessions::only_refusal(Refusal::Call);
    }
    if is_short(room.len(), limit, image.len()) {
        return bench_sessions::only_refusal(Refusal::Room);
    }
    if let Some(refusal) = bench_hosts::bar(line, dialect, map, memory.len()) {
        return bench_sessions::only_refusal(refusal);
    }
    let bus = bench_sessions::line_of(line);
    let exchanged = exchange::exchange(
        bus,
        bench_sessions::dialect_of(dialect),
        bench_sessions::maps::count_of(map),
        bench_sessions::maps::windows_of(map),
        memory,
        image,
        tries,
        limit,
        pings,
        room,
    );
    value_of(opcodes::code_of(exchanged.refusal), exchanged.told)
}
