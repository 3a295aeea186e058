// What goes out is fed to the loader unit by unit, what it answers is heard by the host, and its events are told in the room.
ghost use Rattle.std.specs.Prelude.{◌≡◌, [], ◌∷◌, length};
ghost use Rattle.opcodes.specs.rules.Answers.{told};
ghost use Rattle.event_room.specs.rules.Room.{room_after};
ghost use Rattle.machine_answers.specs.rules.Replies.{sent_bytes};
ghost use Rattle.sent.specs.rules.Bus.{start_unit, units_of, units_fed};
ghost use Rattle.std.specs.Option.{option_or};
ghost use Rattle.host_answers.specs.rules.Hosts.{heard_all};
ghost use Rattle.exchange.specs.rules.Exchange.{units_sent, but_ended};
ghost use Rattle.exchange.specs.rules.Standing.{last_after, noted, standing_fed, memory_fed, room_fed};

use crate::Standing;
use host_answers::{Host, Sending};
use machine_answers::Reply;
use opcodes::{Event, Refusal};
use sent::{Answer, Bus};

// The host hears a reply.
pub fn hear_all(host: Host, reply: Reply) -> Host
    ensures { result ≡ heard_all host (sent_bytes reply) }
{
    let bytes = reply.bytes;
    let said = &bytes[..(reply.count as usize).min(sent::Session::MOST_REPLY)];
    let mut live = host;
    for byte in said {
        live = live.hear(*byte);
    }
    live
}

// The last of two events.
fn later(before: Event, event: Event) -> Event
    ensures { result ≡ last_after before (told event) }
{
    match event {
        Event::Nothing => before,
        Event::Wait(_) => event,
        Event::Enter(_) => event,
    }
}

// The first of two refusals, 14 not counted.
pub fn first_but_ended(first: Option<Refusal>, refusal: Option<Refusal>) -> Option<Refusal>
    ensures { result ≡ option_or first (but_ended refusal) }
{
    let Some(other) = refusal else {
        return first;
    };
    if other == Refusal::Ended {
        return first;
    }
    first.or(refusal)
}

// What a unit's answer changes.
fn note(standing: Standing, answer: Answer, room: &mut [u8]) -> Standing
    ensures value { result ≡ noted (length room.old) standing answer }
    ensures room_after { room.new ≡ room_after room.old standing.told (told answer.event) }
{
    let reply = answer.reply;
    let session = answer.session;
    let before = standing.event;
    let event = answer.event;
    let refusal = answer.refusal;
    Standing {
        host: hear_all(standing.host, reply),
        session,
        event: later(before, event),
        refusal: standing.refusal,
        refused: first_but_ended(standing.refused, refusal),
        told: event_room::tell(room, standing.told, event),
    }
}

// How many units lent bytes are.
fn units_in(bus: Bus, fed: &[u8]) -> usize
    ensures { result ≡ length (units_fed bus fed.now) }
{
    match bus {
        Bus::Bytes => fed.len(),
        Bus::Halves => fed.len() / 2,
    }
}

// Feeds the units that lent bytes are; every reply is heard.
fn feed(bus: Bus, standing: Standing, memory: &mut [u8], fed: &[u8], room: &mut [u8]) -> Standing
    ensures value { result ≡ standing_fed (length room.old) bus standing memory.old (units_fed bus fed.now) }
    ensures memory_after { memory.new ≡ memory_fed bus standing memory.old (units_fed bus fed.now) }
    ensures room_after { room.new ≡ room_fed bus standing memory.old room.old (units_fed bus fed.now) }
{
    let mut live = standing;
    for i in 0..units_in(bus, fed) {
        let session = live.session;
        let answer = session.step_at(memory, bus, fed, i);
        live = note(live, answer, room);
    }
    live
}

// Feeds the start unit.
fn send_start(bus: Bus, standing: Standing, memory: &mut [u8], room: &mut [u8]) -> Standing
    ensures value { result ≡ standing_fed (length room.old) bus standing memory.old (start_unit bus ∷ []) }
    ensures memory_after { memory.new ≡ memory_fed bus standing memory.old (start_unit bus ∷ []) }
    ensures room_after { room.new ≡ room_fed bus standing memory.old room.old (start_unit bus ∷ []) }
{
    match bus {
        Bus::Bytes => {
            let fed = [0x58u8; 1];
            feed(Bus::Bytes, standing, memory, &fed, room)
        }
        Bus::Halves => {
            let fed = [0x53u8, 0x58u8];
            feed(Bus::Halves, standing, memory, &fed, room)
        }
    }
}

// Feeds a word.
fn send_word(
    bus: Bus,
    standing: Standing,
    memory: &mut [u8],
    word: u32,
    room: &mut [u8],
) -> Standing
    ensures value { result ≡ standing_fed (length room.old) bus standing memory.old (units_of bus word) }
    ensures memory_after { memory.new ≡ memory_fed bus standing memory.old (units_of bus word) }
    ensures room_after { room.new ≡ room_fed bus standing memory.old room.old (units_of bus word) }
{
    let fed = [
        words::byte_of(word, 0),
        words::byte_of(word, 1),
        words::byte_of(word, 2),
        words::byte_of(word, 3),
    ];
    feed(bus, standing, memory, &fed, room)
}

// Feeds what goes out.
pub fn send(
    bus: Bus,
    sending: Sending,
    standing: Standing,
    memory: &mut [u8],
    image: &[u8],
    room: &mut [u8],
) -> Standing
    ensures value { result ≡ standing_fed (length room.old) bus standing memory.old (units_sent bus sending image.now) }
    ensures memory_after { memory.new ≡ memory_fed bus standing memory.old (units_sent bus sending image.now) }
    ensures room_after { room.new ≡ room_fed bus standing memory.old room.old (units_sent bus sending image.now) }
{
    match sending {
        Sending::Nothing => standing,
        Sending::Start => send_start(bus, standing, memory, room),
        Sending::Word(word) => send_word(bus, standing, memory, word, room),
        Sending::Stretch(_, _) => feed(
            bus,
            standing,
            memory,
            host_answers::stretch(sending, image),
            room,
        ),
    }
}
