// What is told of the bits of chosen words: which command wrote each last, what that command is, and which fields of a release it writes.
#![tactic(auto)]

ghost use Rattle.std.specs.Prelude.{◌≡◌, ◌+◌, ◌-◌, ◌*◌, ◌/◌, ◌%◌, ◌^◌, ◌≤◌, ◌<◌, leb, ltb};
ghost use Rattle.bit_stamps.specs.rules.Stamps.{word_bits_below, entry_at};
ghost use Rattle.bit_report.specs.rules.Lowest.{lowest_in};
ghost use Rattle.bit_report.specs.rules.Parts.{field_at, name_in, same_field, told_of, same_writer, alike, part_end, value_of, part_from, by_one, is_first};
ghost use Rattle.bit_report.specs.rules.Deeds.{spread, no_deed, bytes_deed, setting_deed, command_deed, deed_at};
ghost use Rattle.bit_report.specs.rules.Fields.{has_field, has_other, reaches_out, has_cut, two_fields, cut_field};

use commands::Wrote;
use field_lines::FieldLine;
use field_register::Register;
use opcodes::{Command, Dialect, Mode};

// A register and the release that bits are named by.
#[derive(Clone, Copy)]
pub struct Names {
    pub register: Register,
    pub release: u32,
}

// A chosen word: which of the list it is, and its address.
#[derive(Clone, Copy)]
pub struct Word {
    pub index: u32,
    pub address: u32,
}

// What is told of a bit: the number of the command that wrote it last, 0 for none, the offset of that command, and the bit's field.
#[derive(Clone, Copy)]
pub struct Told {
    pub number: u32,
    pub at: u32,
    pub field: Option<FieldLine>,
}

// Bits of a word, from the first to the last, of which the same is told, and their value.
#[derive(Clone, Copy)]
pub struct Part {
    pub start: u32,
    pub stop: u32,
    pub value: u32,
    pub told: Told,
}

#[derive(Clone, Copy)]
pub enum Kind {
    Load,
    Fill,
    Setting,
    Other,
}

// A command, and the bits of a chosen word that it writes: from one on up to before another.
#[derive(Clone, Copy)]
pub struct Deed {
    pub kind: Kind,
    pub from: u32,
    pub to: u32,
}

// The entry of a bit of a chosen word.
pub fn entry(entries: &[u8], index: u32, bit: u32) -> u32
    ensures { result ≡ entry_at entries.now index bit }
{
    let at = 64 * (index as usize) + 2 * (bit as usize);
    words::word_at(entries, at) % 65536
}

// The field of a bit of a word.
pub fn field_at(names: Names, word: u32, bit: u32) -> Option<FieldLine>
    ensures { result ≡ field_at names word bit }
{
    let register = names.register;
    field_register::field_of(register, word, bit, names.release)
}

// What is told of a bit.
fn told_of(numbers: &[u8], offsets: &[u8], names: Names, word: Word, bit: u32) -> Told
    ensures { result ≡ told_of numbers.now offsets.now names word bit }
{
    let number = entry(numbers, word.index, bit);
    let at = entry(offsets, word.index, bit);
    let field = field_at(names, word.address, bit);
    Told { number, at, field }
}

// The name of a field; zeros for none.
fn name_in(field: Option<FieldLine>) -> [u8; 16]
    ensures { result ≡ name_in field }
{
    match field {
        Some(line) => line.name,
        None => [0u8; 16],
    }
}

// Are two fields of one name?
#[tactic(auto, unfolding(crate::specs::rules::Parts::same_field, field_lines::specs::rules::Text::same))]
fn same_name(a: Option<FieldLine>, b: Option<FieldLine>) -> bool
    ensures { result ≡ same_field a b }
{
    name_in(a) == name_in(b)
}

// Were two bits written last by one command?
#[tactic(auto, unfolding(crate::specs::rules::Parts::same_writer))]
fn same_writer(a: Told, b: Told) -> bool
    ensures { result ≡ same_writer a b }
{
    a.number == b.number && a.at == b.at
}

// Is the same told of two bits?
#[tactic(auto, unfolding(crate::specs::rules::Parts::alike))]
fn alike_told(a: Told, b: Told) -> bool
    ensures { result ≡ alike a b }
{
    same_writer(a, b) && same_name(a.field, b.field)
}

// The first bit above one of which another thing is told; 32 where there is none.
fn part_end(numbers: &[u8], offsets: &[u8], names: Names, word: Word, bit: u32) -> u32
    requires { bit < 32 }
    ensures { result ≡ part_end numbers.now offsets.now names word bit }
{
    let told = told_of(numbers, offsets, names, word, bit);
    for i in bit + 1..32 {
        if !alike_told(told, told_of(numbers, offsets, names, word, i)) {
            return i;
        }
    }
    32
}

// So many bits of a value, from one on.
fn value_of(value: u32, start: u32, count: u32) -> u32
    requires { start + count ≤ 32 }
    ensures { result ≡ value_of value start count }
{
    let wide = value as u64;
    ((wide >> start) % (1 << count)) as u32
}

// The bits of a word from one on of which the same is told. Bits are counted modulo 32.
pub fn part_from(
    value: u32,
    numbers: &[u8],
    offsets: &[u8],
    names: Names,
    word: Word,
    bit: u32,
) -> Part
    ensures { result ≡ part_from value numbers.now offsets.now names word (bit % 32) }
{
    let start = bit % 32;
    let end = part_end(numbers, offsets, names, word, start);
    let told = told_of(numbers, offsets, names, word, start);
    Part {
        start,
        stop: end - 1,
        value: value_of(value, start, end - start),
        told,
    }
}

// Did one command write two bits of a chosen word last?
#[tactic(auto, unfolding(crate::specs::rules::Parts::by_one))]
fn by_one(numbers: &[u8], offsets: &[u8], index: u32, a: u32, b: u32) -> bool
    ensures { result ≡ by_one numbers.now offsets.now index a b }
{
    entry(numbers, index, a) == entry(numbers, index, b)
        && entry(offsets, index, a) == entry(offsets, index, b)
}

// Is a bit the lowest of those that its command wrote last in the word?
pub fn is_first(numbers: &[u8], offsets: &[u8], index: u32, bit: u32) -> bool
    ensures { result ≡ is_first numbers.now offsets.now index bit }
{
    for i in 0..bit {
        if by_one(numbers, offsets, index, bit, i) {
            return false;
        }
    }
    true
}

// A byte from this place on, or this many bits on, lies behind every word.
const PLACES: usize = 4294967300;

const COUNTS: usize = 68719476736;

// How many bits of the word at an address lie below a bit: so many above the first of a byte.
fn bits_below(word: u32, place: usize, start: u32, count: usize) -> u32
    ensures { result ≡ word_bits_below word (8 * place + start + count) }
{
    if PLACES <= place {
        return 32;
    }
    if COUNTS <= count {
        return 32;
    }
    let begin = 8 * (word as usize);
    let bit = 8 * place + (start as usize) + count;
    if bit <= begin {
        return 0;
    }
    if begin + 32 <= bit {
        return 32;
    }
    (bit - begin) as u32
}

// A command of a kind that wrote these bits, as the word at an address has them.
fn spread_on(kind: Kind, word: u32, wrote: Wrote) -> Deed
    ensures { result ≡ spread kind word wrote }
{
    let from = bits_below(word, wrote.place, wrote.start, 0);
    let to = bits_below(word, wrote.place, wrote.start, wrote.count);
    Deed { kind, from, to }
}

// A command that writes nothing.
fn no_deed() -> Deed
    ensures { result ≡ no_deed }
{
    Deed {
        kind: Kind::Other,
        from: 0,
        to: 0,
    }
}

// A load, or a fill, whose address and size are the first words behind its opcode.
fn bytes_deed(kind: Kind, image: &[u8], at: u32, word: u32) -> Deed
    ensures { result ≡ bytes_deed kind image.now at word }
{
    let address = words::word_at(image, (at as usize) + 4);
    let size = words::word_at(image, (at as usize) + 8);
    spread_on(
        kind,
        word,
        commands::wrote_bytes(Ok(address as usize), size, 0),
    )
}

// A setting, whose type word and address are these.
fn setting_deed(image: &[u8], at: u32, word: u32) -> Deed
    ensures { result ≡ setting_deed image.now at word }
{
    let shape = words::word_at(image, (at as usize) + 4);
    let address = words::word_at(image, (at as usize) + 8);
    spread_on(
        Kind::Setting,
        word,
        commands::wrote_setting(Ok(address as usize), shape, 0),
    )
}

// A command by its row of the opcode table.
fn command_deed(command: Command, image: &[u8], at: u32, word: u32) -> Deed
    ensures { result ≡ command_deed command image.now at word }
{
    match command {
        Command::Load => bytes_deed(Kind::Load, image, at, word),
        Command::Fill => bytes_deed(Kind::Fill, image, at, word),
        Command::BootTable => setting_deed(image, at, word),
        Command::Enable => no_deed(),
        Command::Disable => no_deed(),
        Command::Request => no_deed(),
        Command::StartOver => no_deed(),
        Command::JumpAndClose => no_deed(),
        Command::Ping => no_deed(),
        Command::SequentialRead => no_deed(),
    }
}

// What the command at an offset of an image is, and which bits of the word at an address it writes.
pub fn deed_at(image: &[u8], at: u32, word: u32) -> Deed
    ensures { result ≡ deed_at image.now at word }
{
    let opcode = words::word_at(image, at as usize);
    match opcodes::look_up(opcode, Mode::Flash, Dialect::Am17xx) {
        Ok(known) => command_deed(known.command, image, at, word),
        Err(_) => no_deed(),
    }
}

// Is a bit in a field?
fn has_field(names: Names, word: u32, bit: u32) -> bool
    ensures { result ≡ has_field names word bit }
{
    field_at(names, word, bit).is_some()
}

// The lowest bit from one on and below another that is in a field; the other where there is none.
pub fn first_field(names: Names, word: u32, from: u32, to: u32) -> u32
    ensures { result ≡ lowest_in (has_field names word) from to }
{
    (from..to)
        .find(|bit| has_field(names, word, *bit))
        .unwrap_or(from.max(to))
}

// Is a bit in a field of another name?
#[tactic(auto, unfolding(crate::specs::rules::Fields::has_other))]
fn has_other(names: Names, word: u32, field: Option<FieldLine>, bit: u32) -> bool
    ensures { result ≡ has_other names word field bit }
{
    let own = field_at(names, word, bit);
    own.is_some() && !same_name(own, field)
}

// The lowest bit from one on and below another that is in a field of another name; the other bit where there is none.
pub fn other_field(names: Names, word: u32, field: Option<FieldLine>, from: u32, to: u32) -> u32
    ensures { result ≡ lowest_in (has_other names word field) from to }
{
    (from..to)
        .find(|bit| has_other(names, word, field, *bit))
        .unwrap_or(from.max(to))
}

// Has a field a bit below one, or from another on?
#[tactic(auto, unfolding(crate::specs::rules::Fields::reaches_out))]
pub fn reaches_out(line: FieldLine, from: u32, to: u32) -> bool
    ensures { result ≡ reaches_out line from to }
{
    line.start < from || to <= line.stop
}

// Is a bit in a field that has bits outside of some?
#[tactic(auto, unfolding(crate::specs::rules::Fields::has_cut))]
fn has_cut(names: Names, word: u32, from: u32, to: u32, bit: u32) -> bool
    ensures { result ≡ has_cut names word from to bit }
{
    match field_at(names, word, bit) {
        Some(line) => reaches_out(line, from, to),
        None => false,
    }
}

// Do the bits of a command belong to two fields or more?
pub fn two_fields(names: Names, word: u32, deed: Deed) -> bool
    ensures { result ≡ two_fields names word deed.from deed.to }
{
    let first = first_field(names, word, deed.from, deed.to);
    let field = field_at(names, word, first);
    other_field(names, word, field, deed.from, deed.to) < deed.to
}

// Does a command write a field only in part?
pub fn cut_field(names: Names, word: u32, deed: Deed) -> bool
    ensures { result ≡ cut_field names word deed.from deed.to }
{
    let from = deed.from;
    let to = deed.to;
    for i in from..to {
        if has_cut(names, word, from, to, i) {
            return true;
        }
    }
    false
}
