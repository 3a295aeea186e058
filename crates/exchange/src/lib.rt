// A host and a loader on one line, every reply heard before the host's next turn, the loader's events told in lent room.
#![tactic(auto)]

mod feeding;

ghost use Rattle.std.specs.Prelude.{◌≡◌, [], length};
ghost use Rattle.event_room.specs.rules.Room.{room_after};
ghost use Rattle.exchange.specs.rules.Exchange.{meeting, exchanged};
ghost use Rattle.exchange.specs.rules.Standing.{outcome_of, standing_of, left_by, host_turned, standing_onward, memory_onward, room_onward};

use host_answers::{Host, Turned};
use opcodes::{Dialect, Event, Refusal};
use sent::Bus;
use windows::Window;

// What an exchange comes to: the host's first refusal, its retries, the loader's first refusal but 14, the last event, and how many
// bytes of the room hold events.
#[derive(Clone, Copy)]
pub struct Exchanged {
    pub refusal: Option<Refusal>,
    pub retries: u8,
    pub refused: Option<Refusal>,
    pub event: Event,
    pub told: usize,
}

// What stands between turns: the host, the loader, the last event, their first refusals, and the place of the next event in the room.
#[derive(Clone, Copy)]
pub struct Standing {
    pub host: Host,
    pub session: sent::Session,
    pub event: Event,
    pub refusal: Option<Refusal>,
    pub refused: Option<Refusal>,
    pub told: usize,
}

// A freshly opened host and a freshly opened loader, whose greeting is heard.
fn meet(
    bus: Bus,
    dialect: Dialect,
    count: usize,
    windows: [Window; 8],
    image: &[u8],
    tries: u32,
    limit: u8,
    pings: u32,
) -> Standing
    ensures { result ≡ standing_of 0 (meeting bus dialect count windows [] image.now tries limit pings) }
{
    let opened = Host::open(bus, dialect, image, tries, limit, pings);
    let loader = sent::open_on(bus, dialect, count, windows);
    let reply = loader.reply;
    let session = loader.session;
    Standing {
        host: feeding::hear_all(opened.host, reply),
        session,
        event: Event::Nothing,
        refusal: opened.refusal,
        refused: None,
        told: 0,
    }
}

// What the host's own turn changes.
fn take_turn(standing: Standing, turned: Turned) -> Standing
    ensures { result ≡ host_turned standing turned }
{
    let host = turned.host;
    let session = standing.session;
    let event = standing.event;
    let refusal = turned.refusal;
    Standing {
        host,
        session,
        event,
        refusal: feeding::first_but_ended(standing.refusal, refusal),
        refused: standing.refused,
        told: standing.told,
    }
}

// One turn, its units fed and every reply heard.
fn go_on(standing: Standing, memory: &mut [u8], image: &[u8], room: &mut [u8]) -> Standing
    ensures value { result ≡ standing_onward (length room.old) standing memory.old image.now }
    ensures memory_after { memory.new ≡ memory_onward standing memory.old image.now }
    ensures room_after { room.new ≡ room_onward standing memory.old room.old image.now }
{
    let host = standing.host;
    let bus = host.bus;
    let turned = host::turn(host, image);
    let sending = turned.sending;
    feeding::send(
        bus,
        sending,
        take_turn(standing, turned),
        memory,
        image,
        room,
    )
}

// What an exchange comes to.
fn outcome(standing: Standing) -> Exchanged
    ensures { result ≡ left_by standing }
{
    let event = standing.event;
    Exchanged {
        refusal: standing.refusal,
        retries: standing.host.retries,
        refused: standing.refused,
        event,
        told: standing.told,
    }
}

// A whole exchange: turn by turn until the host has ended.
pub fn exchange(
    bus: Bus,
    dialect: Dialect,
    count: usize,
    windows: [Window; 8],
    memory: &mut [u8],
    image: &[u8],
    tries: u32,
    limit: u8,
    pings: u32,
    room: &mut [u8],
) -> Exchanged
    ensures value { result ≡ outcome_of (length room.old)
        (exchanged (meeting bus dialect count windows memory.old image.now tries limit pings) image.now) }
    ensures memory_after { memory.new
        ≡ (exchanged (meeting bus dialect count windows memory.old image.now tries limit pings) image.now).loader.memory }
    ensures room_after { room.new ≡ room_after room.old 0
        (exchanged (meeting bus dialect count windows memory.old image.now tries limit pings) image.now).events }
{
    let mut live = meet(bus, dialect, count, windows, image, tries, limit, pings);
    while !live.host.ended {
        live = go_on(live, memory, image, room);
    }
    outcome(live)
}
