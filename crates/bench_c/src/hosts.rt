// The host's calls and a whole exchange, for C.
ghost use Rattle.std.specs.Prelude.{◌≡◌};
ghost use Rattle.bench_hosts.specs.rules.HostCalls.{leaving, host_opened, host_heard, host_turned, exchange_session};

// Opens a host: 0 or the refusal.
#[unsafe(no_mangle)]
pub extern "C" fn ais_host_open(
    host: &mut [u8],
    line: u8,
    dialect: u8,
    image: &[u8],
    tries: u32,
    limit: u8,
    pings: u32,
) -> u8
    ensures { leaving result host.new ≡ host_opened host.old line dialect image.now tries limit pings }
{
    bench::hosts::ais_host_open(host, line, dialect, image, tries, limit, pings)
}

// A host hears a byte: 0 or the refusal.
#[unsafe(no_mangle)]
pub extern "C" fn ais_host_hear(host: &mut [u8], byte: u8) -> u8
    ensures { leaving result host.new ≡ host_heard host.old byte }
{
    bench::hosts::ais_host_hear(host, byte)
}

// A host takes a turn: its refusal, whether it has ended, what goes out.
#[unsafe(no_mangle)]
pub extern "C" fn ais_host_turn(host: &mut [u8], image: &[u8]) -> u64
    ensures { leaving result host.new ≡ host_turned host.old image.now }
{
    bench::hosts::ais_host_turn(host, image)
}

// A whole exchange: the host's refusal, its retries, the loader's refusal, the entry.
#[unsafe(no_mangle)]
pub extern "C" fn ais_host_session(
    line: u8,
    dialect: u8,
    map: &[u8],
    memory: &mut [u8],
    image: &[u8],
    tries: u32,
    limit: u8,
    pings: u32,
) -> u64
    ensures { leaving result memory.new
        ≡ exchange_session line dialect map.now memory.old image.now tries limit pings }
{
    bench::hosts::ais_host_session(line, dialect, map, memory, image, tries, limit, pings)
}
