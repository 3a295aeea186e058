// A flash run and an exchange for C with their events: each event two words in lent room, its kind and its value.
ghost use Rattle.std.specs.Prelude.{◌≡◌};
ghost use Rattle.bench_sessions.specs.rules.Feeding.{outcome};
ghost use Rattle.bench_events.specs.rules.Events.{flash_events, host_events};

// One whole flash run in a dialect by number: its refusal, and the count of its events.
pub fn ais_flash_events(
    dialect: u8,
    map: &[u8],
    memory: &mut [u8],
    image: &[u8],
    limit: u8,
    room: &mut [u8],
) -> u64
    ensures { outcome result memory.new room.new
        ≡ flash_events dialect map.now memory.old image.now limit room.old }
{
    bench_events::flash_events(dialect, map, memory, image, limit, room)
}

// A whole exchange: the host's refusal, and the count of the loader's events.
pub fn ais_host_events(
    line: u8,
    dialect: u8,
    map: &[u8],
    memory: &mut [u8],
    image: &[u8],
    tries: u32,
    limit: u8,
    pings: u32,
    room: &mut [u8],
) -> u64
    ensures { outcome result memory.new room.new
        ≡ host_events line dialect map.now memory.old image.now tries limit pings room.old }
{
    bench_events::host_events(line, dialect, map, memory, image, tries, limit, pings, room)
}
