// The register's three calls for C: a text is read anew in each.
ghost use Rattle.std.specs.Prelude.{◌≡◌, ◌*◌, ◌^◌, ◌≤◌, ◌++◌, length, drop};
ghost use Rattle.field_register.specs.rules.Reading.{reading_of};
ghost use Rattle.field_register.specs.rules.Refusals.{field_code};
ghost use Rattle.bench.specs.rules.Registers.{text_value, read_value, name_told, five_written, command_told, bit_told, setting_told};

use field_lines::FieldLine;
use field_register::{FieldRefusal, RefusedText};
use words::Unit;

// The room that a name needs, and that a command needs.
const NAME_ROOM: usize = 16;

const COMMAND_ROOM: usize = 20;

// The value of a refusal that has no line.
fn refuse(refusal: FieldRefusal) -> u64
    ensures { result ≡ field_code refusal * 2 ^ 32 }
{
    (refusal.code() as u64) << 32
}

// The refusal of a text and its line.
fn refuse_text(refused: RefusedText) -> u64
    requires { refused.line ≤ 201 }
    ensures { result ≡ text_value refused }
{
    ((refused.refusal.code() as u64) << 32) + (refused.line as u64)
}

// Reads a text: the count of its lines, or its refusal.
pub fn ais_register_read(text: &[u8]) -> u64
    ensures { result ≡ read_value (reading_of text.now) }
{
    match field_register::read(text) {
        Ok(register) => register.count as u64,
        Err(refused) => refuse_text(refused),
    }
}

// Copies a name to the front of the room.
fn put_name(room: &mut [u8], name: [u8; 16])
    requires { 16 ≤ length room.old }
    ensures { room.new ≡ name ++ drop 16 room.old }
{
    let letters = name;
    room[..NAME_ROOM].copy_from_slice(&letters);
}

// Puts the name of a line that was found into the room, and gives its first release.
fn tell_name(found: Option<FieldLine>, room: &mut [u8]) -> u64
    requires { 16 ≤ length room.old }
    ensures value { result ≡ (name_told found room.old).value }
    ensures room_after { room.new ≡ (name_told found room.old).room }
{
    let Some(line) = found else {
        return refuse(FieldRefusal::NoField);
    };
    let name = line.name;
    put_name(room, name);
    line.since as u64
}

// Which field a bit of a word is in a release: its name, and since when.
#[tactic(auto, unfolding(crate::specs::rules::Registers::questioned, words::specs::rules::Choice::pick))]
pub fn ais_register_bit(text: &[u8], word: u32, bit: u32, release: u32, name: &mut [u8]) -> u64
    ensures value { result ≡ (bit_told text.now word bit release name.old).value }
    ensures name_after { name.new ≡ (bit_told text.now word bit release name.old).room }
{
    if name.len() < NAME_ROOM {
        return refuse(FieldRefusal::Room);
    }
    match field_register::read(text) {
        Ok(register) => tell_name(field_register::field_of(register, word, bit, release), name),
        Err(refused) => refuse_text(refused),
    }
}

// Writes five words, one after the other.
fn put_words(room: &mut [u8], words: [u32; 5])
    ensures { room.new ≡ five_written room.old words }
{
    words::write(room, 0, Unit::Four, words[0]);
    words::write(room, 4, Unit::Four, words[1]);
    words::write(room, 8, Unit::Four, words[2]);
    words::write(room, 12, Unit::Four, words[3]);
    words::write(room, 16, Unit::Four, words[4]);
}

// Puts the words of a command that was made into the room.
fn tell_command(made: Result<[u32; 5], FieldRefusal>, room: &mut [u8]) -> u64
    ensures value { result ≡ (command_told made room.old).value }
    ensures room_after { room.new ≡ (command_told made room.old).room }
{
    match made {
        Ok(words) => {
            put_words(room, words);
            0
        }
        Err(refusal) => refuse(refusal),
    }
}

// A field, a release and a value as the words of the command that sets it.
#[tactic(auto, unfolding(crate::specs::rules::Registers::questioned, words::specs::rules::Choice::pick))]
pub fn ais_register_command(
    text: &[u8],
    name: &[u8],
    release: u32,
    value: u32,
    command: &mut [u8],
) -> u64
    ensures value { result ≡ (setting_told text.now name.now release value command.old).value }
    ensures command_after { command.new ≡ (setting_told text.now name.now release value command.old).room }
{
    if command.len() < COMMAND_ROOM {
        return refuse(FieldRefusal::Room);
    }
    match field_register::read(text) {
        Ok(register) => tell_command(
            field_register::command(register, name, release, value),
            command,
        ),
        Err(refused) => refuse_text(refused),
    }
}
