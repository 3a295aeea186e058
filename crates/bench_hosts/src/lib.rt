// The host for C: a host as 41 bytes, its calls on them, and whole exchanges of a host and a loader.
#![tactic(auto)]

pub mod layout;

ghost use Rattle.std.specs.Prelude.{◌≡◌, ◌*◌, ◌^◌, ◌<◌};
ghost use Rattle.opcodes.specs.rules.Answers.{code_of};
ghost use Rattle.bench_hosts.specs.rules.HostCalls.{
  leaving,
  are_named,
  host_opened,
  host_heard,
  sent_value,
  turn_value,
  host_turned,
  entry_value,
  exchange_value,
  exchange_refused,
  exchange_session,
};
ghost use Rattle.bench_hosts.specs.claims.Outgoing.{InImage};

use exchange::Exchanged;
use host_answers::{Host, Sending, Turned};
use opcodes::{Event, Refusal};

// Are a line and a dialect 0 or 1?
pub fn are_named(line: u8, dialect: u8) -> bool
    ensures { result ≡ are_named line dialect }
{
    if line <= 1 {
        return dialect <= 1;
    }
    false
}

// Opens a host.
pub fn open_host(
    host: &mut [u8],
    line: u8,
    dialect: u8,
    image: &[u8],
    tries: u32,
    limit: u8,
    pings: u32,
) -> u8
    ensures { leaving result host.new ≡ host_opened host.old line dialect image.now tries limit pings }
{
    if host.len() != layout::HOST_BYTES {
        return Refusal::Call.code();
    }
    if !are_named(line, dialect) {
        return Refusal::Call.code();
    }
    let bus = bench_sessions::line_of(line);
    let opened = Host::open(
        bus,
        bench_sessions::dialect_of(dialect),
        image,
        tries,
        limit,
        pings,
    );
    layout::write_host(host, opened.host);
    opcodes::code_of(opened.refusal)
}

// A host hears a byte.
pub fn hear_host(host: &mut [u8], byte: u8) -> u8
    ensures { leaving result host.new ≡ host_heard host.old byte }
{
    if host.len() != layout::HOST_BYTES {
        return Refusal::Call.code();
    }
    let standing = layout::read_host(host);
    layout::write_host(host, standing.hear(byte));
    0
}

// What goes out, as a number.
fn sent_value(sending: Sending) -> u64
    requires { InImage sending }
    ensures value { result ≡ sent_value sending }
    ensures upper_bound { result < 2 ^ 50 }
{
    match sending {
        Sending::Nothing => 0,
        Sending::Start => 1 << 48,
        Sending::Word(word) => (2 << 48) + (word as u64),
        Sending::Stretch(from, to) => (3 << 48) + (((to - from) as u64) << 24) + (from as u64),
    }
}

// A turn, as a number.
fn turn_value(turned: Turned) -> u64
    requires { InImage turned.sending }
    ensures { result ≡ turn_value turned }
{
    let sending = turned.sending;
    let ended = layout::flag(turned.host.ended);
    ((opcodes::code_of(turned.refusal) as u64) << 56) + ((ended as u64) << 52) + sent_value(sending)
}

// A host takes a turn.
pub fn turn_host(host: &mut [u8], image: &[u8]) -> u64
    ensures { leaving result host.new ≡ host_turned host.old image.now }
{
    if host.len() != layout::HOST_BYTES {
        return bench_sessions::only_refusal(Refusal::Call);
    }
    let standing = layout::read_host(host);
    let turned = host::turn(standing, image);
    layout::write_host(host, turned.host);
    turn_value(turned)
}

// The entry, as a number.
fn entry_value(event: Event) -> u64
    ensures value { result ≡ entry_value event }
    ensures upper_bound { result < 2 ^ 33 }
{
    match event {
        Event::Nothing => 0,
        Event::Wait(_) => 0,
        Event::Enter(address) => (1 << 32) + (address as u64),
    }
}

// What an exchange comes to, as a number.
fn exchange_value(exchanged: Exchanged) -> u64
    ensures { result ≡ exchange_value exchanged }
{
    let event = exchanged.event;
    let codes = ((opcodes::code_of(exchanged.refusal) as u64) << 56)
        + ((exchanged.retries as u64) << 48)
        + ((opcodes::code_of(exchanged.refused) as u64) << 40);
    codes + entry_value(event)
}

// Why an exchange does not begin.
pub fn bar(line: u8, dialect: u8, map: &[u8], lent: usize) -> Option<Refusal>
    ensures { result ≡ exchange_refused line dialect map.now lent }
{
    if !are_named(line, dialect) {
        return Some(Refusal::Call);
    }
    let count = bench_sessions::maps::count_of(map);
    let windows = bench_sessions::maps::windows_of(map);
    if !windows::is_good(count, windows) {
        return Some(Refusal::Map);
    }
    if lent != windows::sum(windows::kept(count, windows)) {
        return Some(Refusal::Memory);
    }
    None
}

// A whole exchange of a freshly opened host and loader.
pub fn exchange_session(
    line: u8,
    dialect: u8,
    map: &[u8],
    memory: &mut [u8],
    image: &[u8],
    tries: u32,
    limit: u8,
    pings: u32,
) -> u64
    ensures { leaving result memory.new
        ≡ exchange_session line dialect map.now memory.old image.now tries limit pings }
{
    if let Some(refusal) = bar(line, dialect, map, memory.len()) {
        return bench_sessions::only_refusal(refusal);
    }
    let bus = bench_sessions::line_of(line);
    let mut room = [0u8; 0];
    let exchanged = exchange::exchange(
        bus,
        bench_sessions::dialect_of(dialect),
        bench_sessions::maps::count_of(map),
        bench_sessions::maps::windows_of(map),
        memory,
        image,
        tries,
        limit,
        pings,
        &mut room,
    );
    exchange_value(exchanged)
}
