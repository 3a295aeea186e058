// Whole sent sessions on lent bytes: units fed one after the other, replies laid into a room, and the numbers of chosen bits beside (02, request 6).
#![tactic(auto)]

pub mod maps;

ghost use Rattle.std.specs.Prelude.{◌≡◌, ◌+◌, ◌*◌, ◌/◌, ◌%◌, ◌^◌, ◌≤◌, eqb, length, take};
ghost use Rattle.std.proofs.lemmas.List.Edits.{sets};
ghost use Rattle.opcodes.specs.rules.Answers.{number_of, code_of};
ghost use Rattle.sent.specs.rules.Bus.{units_fed};
ghost use Rattle.sent.specs.rules.Feeding.{first_of};
ghost use Rattle.machine_answers.specs.rules.Replies.{sent_bytes};
ghost use Rattle.bench_sessions.specs.rules.Feeding.{outcome, unit_bytes, most_fed, opening_room, unit_room, roomy, sent_session, line_session};
ghost use Rattle.bench_sessions.specs.rules.Numbers.{
  watched,
  watched_fed,
  cleared,
  session_watched,
  choice_on,
  barred,
  watched_from,
  line_of,
  dialect_of,
  bits_session,
};

use bit_choice::Choice;
use machine_answers::Reply;
use opcodes::{Dialect, Refusal};
use sent::Bus;

// The most units that are fed in one call.
const MOST_FED: usize = 65536;

// The room that the opening's reply needs, and that the replies to each byte and to each half need.
const OPENING_ROOM: usize = 6;

const BYTE_ROOM: usize = 2;

const HALF_ROOM: usize = 4;

// The bytes of the numbers beside one chosen word.
const WORD_NUMBERS: usize = 64;

// Writes a reply into the room from a place on; the place past it.
fn put_reply(room: &mut [u8], at: usize, reply: Reply) -> usize
    requires { at ≤ length room.old }
    ensures value { result ≡ at + length (sent_bytes reply) }
    ensures room_after { room.new ≡ sets room.old at (sent_bytes reply) }
{
    let bytes = reply.bytes;
    let said = &bytes[..(reply.count as usize).min(sent::Session::MOST_REPLY)];
    for (i, byte) in said.iter().enumerate() {
        words::put_byte(room, at + i, *byte);
    }
    at + said.len()
}

// The first of two refusals.
fn first_of(first: u8, refusal: Option<Refusal>) -> u8
    ensures { result ≡ first_of first (code_of refusal) }
{
    if first == 0 {
        return opcodes::code_of(refusal);
    }
    first
}

// How many units so many lent bytes are.
fn units_in(bus: Bus, lent: usize) -> usize
    ensures { result ≡ lent / unit_bytes bus }
{
    match bus {
        Bus::Bytes => lent,
        Bus::Halves => lent / 2,
    }
}

// Are so many lent bytes whole units?
fn are_whole(bus: Bus, lent: usize) -> bool
    ensures { result ≡ eqb (lent % unit_bytes bus) 0 }
{
    match bus {
        Bus::Bytes => true,
        Bus::Halves => lent % 2 == 0,
    }
}

// The room that an opening and the replies to n units need.
fn room_for(bus: Bus, n: usize) -> usize
    requires { n ≤ most_fed }
    ensures { result ≡ opening_room bus + unit_room bus * n }
{
    match bus {
        Bus::Bytes => OPENING_ROOM + BYTE_ROOM * n,
        Bus::Halves => HALF_ROOM * n,
    }
}

// Feeds all units; the replies go to the room, the opening's first, and each unit's writes to the numbers of the chosen words.
fn feed_all(
    bus: Bus,
    session: sent::Session,
    opening: Reply,
    memory: &mut [u8],
    fed: &[u8],
    room: &mut [u8],
    chosen: usize,
    places: &[usize],
    numbers: &mut [u8],
) -> u64
    requires have_value { (session.line.have ≡ 0) × (length (sent_bytes opening) ≤ opening_room bus) }
    requires fed_len_bound { length (units_fed bus fed.now) ≤ most_fed }
    requires fed_in_bounds { opening_room bus + unit_room bus * length (units_fed bus fed.now) ≤ length room.old }
    ensures { watched result memory.new numbers.new room.new
        ≡ watched_fed bus opening (record { session = session; memory = memory.old }) (units_fed bus fed.now)
        (take chosen places.now) numbers.old room.old }
{
    let mut count = put_reply(room, 0, opening);
    let mut first: u8 = 0;
    let mut live = session;
    for i in 0..units_in(bus, fed.len()) {
        let answer = bit_watch::step_at(live, chosen, places, memory, numbers, bus, fed, i);
        let refusal = answer.refusal;
        let reply = answer.reply;
        count = put_reply(room, count, reply);
        first = first_of(first, refusal);
        live = answer.session;
    }
    ((first as u64) << 32) + (count as u64)
}

// Are so many lent bytes whole units, few enough, and is the room long enough for all replies to them?
fn is_roomy(bus: Bus, lent: usize, room: usize) -> bool
    ensures { result ≡ roomy bus lent room }
{
    if !are_whole(bus, lent) {
        return false;
    }
    let n = units_in(bus, lent);
    if n <= MOST_FED {
        return room_for(bus, n) <= room;
    }
    false
}

// The value of a session that is refused before anything is fed.
fn refuse(refusal: Refusal) -> u64
    ensures { result ≡ number_of refusal * 2 ^ 32 }
{
    (refusal.code() as u64) << 32
}

// A refusal that is all there is to say in the value of a flash run, a host or an exchange: it stands in the highest byte.
pub fn only_refusal(refusal: Refusal) -> u64
    ensures { result ≡ number_of refusal * 2 ^ 56 }
{
    (refusal.code() as u64) << 56
}

// All numbers become 0.
pub fn clear(numbers: &mut [u8])
    ensures { numbers.new ≡ cleared numbers.old }
{
    numbers.fill(0);
}

// A session from its opening.
fn session_from(
    bus: Bus,
    opened: sent::Opened,
    memory: &mut [u8],
    fed: &[u8],
    room: &mut [u8],
    chosen: usize,
    places: &[usize],
    numbers: &mut [u8],
) -> u64
    requires { (opened.session.line.have ≡ 0) × (length (sent_bytes opened.reply) ≤ opening_room bus) }
    ensures { watched result memory.new numbers.new room.new
        ≡ session_watched bus opened (take chosen places.now)
        memory.old numbers.old fed.now room.old }
{
    if let Some(refusal) = opened.refusal {
        return refuse(refusal);
    }
    let session = opened.session;
    let opening = opened.reply;
    let windows = session.core.windows;
    if memory.len() != windows::sum(windows) {
        return refuse(Refusal::Memory);
    }
    if !is_roomy(bus, fed.len(), room.len()) {
        return refuse(Refusal::Call);
    }
    clear(numbers);
    feed_all(
        bus, session, opening, memory, fed, room, chosen, places, numbers,
    )
}

// One whole sent session on a line, in a dialect; no word is chosen, so that the numbers lent inside stay as they are cleared.
pub fn session_on(
    bus: Bus,
    dialect: Dialect,
    map: &[u8],
    memory: &mut [u8],
    fed: &[u8],
    room: &mut [u8],
) -> u64
    ensures { outcome result memory.new room.new
        ≡ sent_session bus dialect map.now memory.old fed.now room.old }
{
    let opened = sent::open_on(bus, dialect, maps::count_of(map), maps::windows_of(map));
    let places = [0usize; 1];
    let mut numbers = [0u8; 1];
    session_from(bus, opened, memory, fed, room, 0, &places, &mut numbers)
}

// The same on the line of a number: 0 bytes, 1 halves; any other is refused with 19 before anything else is judged.
pub fn line_session(
    line: u8,
    dialect: Dialect,
    map: &[u8],
    memory: &mut [u8],
    fed: &[u8],
    room: &mut [u8],
) -> u64
    ensures { outcome result memory.new room.new
        ≡ line_session line dialect map.now memory.old fed.now room.old }
{
    if line == 0 {
        return session_on(Bus::Bytes, dialect, map, memory, fed, room);
    }
    if line == 1 {
        return session_on(Bus::Halves, dialect, map, memory, fed, room);
    }
    refuse(Refusal::Call)
}

// The words that a lent list chooses on a map.
pub fn choose_on(map: &[u8], chosen: &[u8]) -> Choice
    ensures { result ≡ choice_on map.now chosen.now }
{
    let windows = windows::kept(maps::count_of(map), maps::windows_of(map));
    bit_choice::choose(windows, chosen)
}

// Are so many lent bytes the numbers of so many words?
fn is_for(lent: usize, count: usize) -> bool
    ensures { result ≡ eqb lent (64 * count) }
{
    if lent % WORD_NUMBERS == 0 {
        return lent / WORD_NUMBERS == count;
    }
    false
}

// Why a session with numbers does not begin, by the opening's refusal and the lengths lent: 1, 24, 3, 4, 2.
pub fn bar(
    opening: Option<Refusal>,
    choice: Choice,
    numbers: usize,
    memory: usize,
    sum: usize,
) -> Option<Refusal>
    ensures { result ≡ barred opening choice numbers memory sum }
{
    let number = opcodes::code_of(opening);
    if number == 1 {
        return opening;
    }
    if choice.refusal.is_some() {
        return choice.refusal;
    }
    if opening.is_some() {
        return opening;
    }
    if !is_for(numbers, choice.chosen.count) {
        return Some(Refusal::Memory);
    }
    if memory != sum {
        return Some(Refusal::Memory);
    }
    None
}

// A session with numbers from its opening and its choice.
fn watched_from(
    choice: Choice,
    bus: Bus,
    opened: sent::Opened,
    memory: &mut [u8],
    numbers: &mut [u8],
    fed: &[u8],
    room: &mut [u8],
) -> u64
    requires { (opened.session.line.have ≡ 0) × (length (sent_bytes opened.reply) ≤ opening_room bus) }
    ensures { watched result memory.new numbers.new room.new
        ≡ watched_from bus opened choice memory.old numbers.old fed.now room.old }
{
    let opening = opened.refusal;
    let windows = opened.session.core.windows;
    let barred = bar(
        opening,
        choice,
        numbers.len(),
        memory.len(),
        windows::sum(windows),
    );
    if let Some(refusal) = barred {
        return refuse(refusal);
    }
    let count = choice.chosen.count;
    let places = choice.chosen.places;
    session_from(bus, opened, memory, fed, room, count, &places, numbers)
}

// The line of a number: 0 bytes, any other halves.
pub fn line_of(line: u8) -> Bus
    ensures { result ≡ line_of line }
{
    if line == 0 {
        return Bus::Bytes;
    }
    Bus::Halves
}

// The dialect of a number: 0 AM17xx, any other DM648.
pub fn dialect_of(dialect: u8) -> Dialect
    ensures { result ≡ dialect_of dialect }
{
    if dialect == 0 {
        return Dialect::Am17xx;
    }
    Dialect::Dm648
}

// One whole sent session with numbers, on a line and in a dialect by number; 19 for any that there is not.
pub fn bits_session(
    line: u8,
    dialect: u8,
    map: &[u8],
    chosen: &[u8],
    memory: &mut [u8],
    numbers: &mut [u8],
    fed: &[u8],
    room: &mut [u8],
) -> u64
    ensures { watched result memory.new numbers.new room.new
        ≡ bits_session line dialect map.now chosen.now
        memory.old numbers.old fed.now room.old }
{
    if 1 < line {
        return refuse(Refusal::Call);
    }
    if 1 < dialect {
        return refuse(Refusal::Call);
    }
    let bus = line_of(line);
    let opened = sent::open_numbering(
        bus,
        dialect_of(dialect),
        maps::count_of(map),
        maps::windows_of(map),
    );
    watched_from(
        choose_on(map, chosen),
        bus,
        opened,
        memory,
        numbers,
        fed,
        room,
    )
}
