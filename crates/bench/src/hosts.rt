// The host's four calls for C: a host is lent as 41 bytes, and a whole exchange goes from its opening to its end.
ghost use Rattle.std.specs.Prelude.{◌≡◌};
ghost use Rattle.bench_hosts.specs.rules.HostCalls.{leaving, host_opened, host_heard, host_turned, exchange_session};

// Opens a host: 0 or the refusal.
pub fn ais_host_open(
    host: &mut [u8],
    line: u8,
    dialect: u8,
    image: &[u8],
    tries: u32,
    limit: u8,
    pings: u32,
) -> u8
    ensures { leaving result host.new ≡ host_opened host.old line dialect image.now tries limit pings }
{
    bench_hosts::open_host(host, line, dialect, image, tries, limit, pings)
}

// A host hears a byte: 0 or the refusal.
pub fn ais_host_hear(host: &mut [u8], byte: u8) -> u8
    ensures { leaving result host.new ≡ host_heard host.old byte }
{
    bench_hosts::hear_host(host, byte)
}

// A host takes a turn: its refusal, whether it has ended, what goes out.
pub fn ais_host_turn(host: &mut [u8], image: &[u8]) -> u64
    ensures { leaving result host.new ≡ host_turned host.old image.now }
{
    bench_hosts::turn_host(host, image)
}

// A whole exchange: the host's refusal, its retries, the loader's refusal, the entry.
pub fn ais_host_session(
    line: u8,
    dialect: u8,
    map: &[u8],
    memory: &mut [u8],
    image: &[u8],
    tries: u32,
    limit: u8,
    pings: u32,
) -> u64
    ensures { leaving result memory.new
        ≡ exchange_session line dialect map.now memory.old image.now tries limit pings }
{
    bench_hosts::exchange_session(line, dialect, map, memory, image, tries, limit, pings)
}
