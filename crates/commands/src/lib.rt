// What a command does once its words are known, in either mode: judged first, then done. A refused command changes nothing.
#![tactic(auto)]

ghost use Rattle.std.specs.Prelude.{◌≡◌, false, [], ◌∷◌};
ghost use Rattle.words.specs.rules.Bytes.{size_of};
ghost use Rattle.words.specs.rules.Choice.{pick};
ghost use Rattle.checksum.specs.rules.Checksum.{fed_words};
ghost use Rattle.commands.specs.rules.Commands.{range_judged, done_if, memory_if, barred, load_judged, unit_of, units_judged, fill_judged};
ghost use Rattle.commands.specs.rules.Commands.{type_filled, fill_done, fill_memory, field_shape, whole, type_shape, shape_of, too_wide, setting_judged};
ghost use Rattle.commands.specs.rules.Commands.{shape_set, setting_done, setting_memory, entry_judged, close_done, sought_from};
ghost use Rattle.commands.specs.rules.Wrote.{none_wrote, bytes_wrote, shape_wrote, setting_wrote};

use opcodes::{Event, Refusal};
use windows::{Right, Window};
use words::Unit;

// Where in the lent memory a command is granted, or what it is refused with.
pub type Judged = Result<usize, Refusal>;

// Where a seek leads, or what it is refused with.
pub type Sought = Result<u32, Refusal>;

// The answer to a command.
#[derive(Clone, Copy)]
pub struct Done {
    pub refusal: Option<Refusal>,
    pub event: Event,
    pub checksum: u32,
}

// Which bits of which unit a Boot Table command sets: the first of them, how many, and whether they are a field.
#[derive(Clone, Copy)]
pub struct Bits {
    pub unit: Unit,
    pub start: u32,
    pub width: u32,
    pub field: bool,
}

// The bits of memory that a command wrote, and its number: from bit `start` of the byte at `place` on, `count` of them.
#[derive(Clone, Copy)]
pub struct Wrote {
    pub place: usize,
    pub count: usize,
    pub start: u32,
    pub number: u32,
}

#[tactic(auto, unfolding(crate::specs::rules::Commands::range_judged))]
fn judge_range(windows: [Window; 8], right: Right, address: u32, size: u32) -> Judged
    ensures { result ≡ range_judged windows right address size }
{
    windows::locate(windows, right, address, size).ok_or(Refusal::Range)
}

// The answer to a command that was judged: `event` and `fed` count where it is granted.
fn answer(judged: Judged, checksum: u32, event: Event, fed: u32) -> Done
    ensures { result ≡ done_if judged checksum event fed }
{
    match judged {
        Ok(_) => Done {
            refusal: None,
            event,
            checksum: fed,
        },
        Err(refusal) => Done {
            refusal: Some(refusal),
            event: Event::Nothing,
            checksum,
        },
    }
}

// A later refusal of a command that was judged: given where its test holds, unless one was given before. A place is granted anew, since a judgement that is
// handed on whole is copied byte by byte.
#[tactic(auto, unfolding(words::specs::rules::Choice::pick))]
pub fn bar(judged: Judged, test: bool, refusal: Refusal) -> Judged
    ensures { result ≡ barred test refusal judged }
{
    let place = judged?;
    if test {
        return Err(refusal);
    }
    Ok(place)
}

// Is a load of `size` bytes at an address granted? It is judged as a fill of bytes is: one function for both is not joined to its callers, each of whom would
// look through all windows by itself.
#[tactic(auto, using(crate::proofs::Judging::bytes_judged))]
pub fn judge_load(windows: [Window; 8], address: u32, size: u32) -> Judged
    ensures { result ≡ load_judged windows address size }
{
    judge_fill(windows, address, size, 0)
}

// Types 0, 1, 2 are units of 1, 2, 4 bytes.
#[tactic(auto, unfolding(crate::specs::rules::Commands::unit_of, words::specs::rules::Choice::pick))]
fn unit_of(kind: u32) -> Option<Unit>
    ensures { result ≡ unit_of kind }
{
    match kind {
        0 => Some(Unit::One),
        1 => Some(Unit::Two),
        2 => Some(Unit::Four),
        _ => None,
    }
}

// The bytes of a unit, in 32 bits.
fn unit_bytes(unit: Unit) -> u32
    ensures { result ≡ size_of unit }
{
    unit.size() as u32
}

// Are whole units at an address granted?
#[tactic(auto, unfolding(crate::specs::rules::Commands::units_judged, crate::specs::rules::Commands::multiple, words::specs::rules::Choice::pick))]
fn judge_units(windows: [Window; 8], right: Right, unit: Unit, address: u32, size: u32) -> Judged
    ensures { result ≡ units_judged windows right unit address size }
{
    let bytes = unit_bytes(unit);
    if address % bytes != 0 || size % bytes != 0 {
        return Err(Refusal::Unaligned);
    }
    judge_range(windows, right, address, size)
}

// Is a fill of `size` bytes at an address granted?
#[tactic(auto, unfolding(crate::specs::rules::Commands::fill_judged))]
pub fn judge_fill(windows: [Window; 8], address: u32, size: u32, kind: u32) -> Judged
    ensures { result ≡ fill_judged windows address size kind }
{
    let unit = unit_of(kind).ok_or(Refusal::TypeWord)?;
    judge_units(windows, Right::Load, unit, address, size)
}

// Fills a range where the command is granted.
fn fill_range(memory: &mut [u8], judged: Judged, size: u32, kind: Option<Unit>, pattern: u32)
    ensures { memory.new ≡ memory_if judged (λ place. type_filled memory.old place size kind pattern) memory.old }
{
    if let (Ok(place), Some(unit)) = (judged, kind) {
        stores::fill_bytes(memory, place, size, unit, pattern);
    }
}

// What a fill feeds.
#[tactic(auto, unfolding(checksum::specs::rules::Checksum::fed_words, words::specs::rules::Choice::pick))]
fn feed_fill(on: bool, checksum: u32, address: u32, size: u32, kind: u32, pattern: u32) -> u32
    ensures { result ≡ pick on (fed_words checksum (address ∷ size ∷ kind ∷ pattern ∷ [])) checksum }
{
    if on {
        let range = checksum::feed_word(checksum::feed_word(checksum, address), size);
        return checksum::feed_word(checksum::feed_word(range, kind), pattern);
    }
    checksum
}

// Does a fill that was judged.
#[tactic(auto, unfolding(crate::specs::rules::Commands::fill_done, crate::specs::rules::Commands::fill_memory))]
pub fn fill(
    memory: &mut [u8],
    judged: Judged,
    on: bool,
    checksum: u32,
    address: u32,
    size: u32,
    kind: u32,
    pattern: u32,
) -> Done
    ensures value { result ≡ fill_done judged on checksum address size kind pattern }
    ensures memory_after { memory.new ≡ fill_memory judged memory.old size kind pattern }
{
    fill_range(memory, judged, size, unit_of(kind), pattern);
    let fed = feed_fill(on, checksum, address, size, kind, pattern);
    answer(judged, checksum, Event::Nothing, fed)
}

// A field of a word, by the START and STOP of a type word.
#[tactic(auto, unfolding(crate::specs::rules::Commands::field_shape, words::specs::rules::Choice::pick))]
fn field_shape(start: u32, stop: u32) -> Option<Bits>
    ensures { result ≡ field_shape start stop }
{
    if stop < start || 31 < stop {
        return None;
    }
    Some(Bits {
        unit: Unit::Four,
        start,
        width: stop - start + 1,
        field: true,
    })
}

// All bits of a unit.
fn whole(unit: Unit) -> Bits
    ensures { result ≡ whole unit }
{
    Bits {
        unit,
        start: 0,
        width: 8 * unit_bytes(unit),
        field: false,
    }
}

// Which bits a type word names, by its type.
#[tactic(auto, unfolding(words::specs::rules::Choice::pick))]
fn type_shape(word: u32, kind: Option<Unit>) -> Option<Bits>
    ensures { result ≡ type_shape word kind }
{
    match kind {
        Some(unit) => Some(whole(unit)),
        None if words::byte_of(word, 0) <= 4 => field_shape(
            words::byte_of(word, 1) as u32,
            words::byte_of(word, 2) as u32,
        ),
        None => None,
    }
}

// Which bits a type word names.
#[tactic(auto, unfolding(crate::specs::rules::Commands::shape_of, words::specs::rules::Choice::pick))]
fn shape_of(word: u32) -> Option<Bits>
    ensures { result ≡ shape_of word }
{
    if words::byte_of(word, 3) != 0 {
        return None;
    }
    type_shape(word, unit_of(words::byte_of(word, 0) as u32))
}

// Has a value a bit at or above a width?
pub fn too_wide(width: u32, value: u32) -> bool
    ensures { result ≡ too_wide width value }
{
    if width < 32 {
        return value >= 1 << width;
    }
    false
}

// Is a Boot Table of a type word, an address and its data granted?
#[tactic(auto, unfolding(words::specs::rules::Choice::pick))]
pub fn judge_setting(windows: [Window; 8], word: u32, address: u32, value: u32) -> Judged
    ensures { result ≡ setting_judged windows word address value }
{
    let bits = shape_of(word).ok_or(Refusal::TypeWord)?;
    if bits.field && too_wide(bits.width, value) {
        return Err(Refusal::TooWide);
    }
    judge_units(
        windows,
        Right::Set,
        bits.unit,
        address,
        unit_bytes(bits.unit),
    )
}

// Sets the bits of a shape at a place.
fn set_shape(memory: &mut [u8], place: usize, shape: Option<Bits>, value: u32)
    ensures { memory.new ≡ shape_set memory.old place shape value }
{
    if let Some(bits) = shape {
        words::write_field(memory, place, bits.unit, bits.start, bits.width, value);
    }
}

// Does a Boot Table that was judged. The judgement is looked at once, so that the whole is small enough to be joined to its callers.
#[tactic(auto, unfolding(crate::specs::rules::Commands::setting_done, crate::specs::rules::Commands::setting_memory))]
pub fn boot_table(
    memory: &mut [u8],
    judged: Judged,
    checksum: u32,
    word: u32,
    value: u32,
    delay: u32,
) -> Done
    ensures value { result ≡ setting_done judged checksum delay }
    ensures memory_after { memory.new ≡ setting_memory judged memory.old word value }
{
    match judged {
        Ok(place) => {
            set_shape(memory, place, shape_of(word), value);
            Done {
                refusal: None,
                event: Event::Wait(delay),
                checksum,
            }
        }
        Err(refusal) => Done {
            refusal: Some(refusal),
            event: Event::Nothing,
            checksum,
        },
    }
}

// No bits were written.
pub fn wrote_none() -> Wrote
    ensures { result ≡ none_wrote }
{
    Wrote {
        place: 0,
        start: 0,
        count: 0,
        number: 0,
    }
}

// What a load or a fill that was judged writes: all bits of its bytes.
pub fn wrote_bytes(judged: Judged, size: u32, number: u32) -> Wrote
    ensures { result ≡ bytes_wrote judged size number }
{
    match judged {
        Ok(place) => Wrote {
            place,
            start: 0,
            count: 8 * (size as usize),
            number,
        },
        Err(_) => wrote_none(),
    }
}

// What a shape at a place writes.
fn wrote_shape(place: usize, shape: Option<Bits>, number: u32) -> Wrote
    ensures { result ≡ shape_wrote place shape number }
{
    match shape {
        None => wrote_none(),
        Some(bits) => Wrote {
            place,
            start: bits.start,
            count: bits.width as usize,
            number,
        },
    }
}

// What a Boot Table that was judged writes: the bits of its shape.
pub fn wrote_setting(judged: Judged, word: u32, number: u32) -> Wrote
    ensures { result ≡ setting_wrote judged word number }
{
    match judged {
        Ok(place) => wrote_shape(place, shape_of(word), number),
        Err(_) => wrote_none(),
    }
}

// May an address be entered?
#[tactic(auto, unfolding(crate::specs::rules::Commands::entry_judged, crate::specs::rules::Commands::multiple, words::specs::rules::Choice::pick))]
pub fn judge_entry(windows: [Window; 8], address: u32) -> Judged
    ensures { result ≡ entry_judged windows address }
{
    if address % 4 != 0 {
        return Err(Refusal::Entry);
    }
    windows::locate(windows, Right::Entry, address, 0).ok_or(Refusal::Entry)
}

// The answer to a Jump & Close that was judged.
#[tactic(auto, unfolding(crate::specs::rules::Commands::close_done))]
pub fn jump_and_close(judged: Judged, checksum: u32, address: u32) -> Done
    ensures { result ≡ close_done judged checksum address }
{
    answer(judged, checksum, Event::Enter(address), checksum)
}

// Where the seek of a flash Request leads: counted from the offset after it, 12 bytes past the opcode.
pub fn seek(request: u32, word: u32) -> Sought
    ensures { result ≡ sought_from request word }
{
    let after = std::num::wrapping_add_u32(request, 12);
    let target = std::num::wrapping_add_u32(after, word);
    if target % 4 != 0 || target < 4 || request <= target {
        return Err(Refusal::Seek);
    }
    Ok(target)
}
