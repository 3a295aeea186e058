// Reading a command in an image: what stands at an offset, as flash mode reads it.
#![tactic(auto)]

ghost use Rattle.std.specs.Prelude.{◌≡◌, ◌+◌, ◌≤◌, length};
ghost use Rattle.reading.specs.rules.Reading.{present, argument, data_words, data_size, past_data, unread, read_as, read_at};

use opcodes::{Command, Dialect, Known, Mode, Refusal};

// Why no command stands at an offset, with the count of the words that were fetched to see it.
#[derive(Clone, Copy, Debug, PartialEq, Eq)]
pub struct Unread {
    pub refusal: Refusal,
    pub fetched: u32,
}

// Words are missing, so many having been fetched.
fn missing(fetched: u32) -> Unread
    ensures { result ≡ unread Refusal.Missing fetched }
{
    Unread {
        refusal: Refusal::Missing,
        fetched,
    }
}

// What the table says of the opcode at an offset; then the argument words are looked for.
fn read_row(found: Result<Known, Refusal>, image: &[u8], offset: u32) -> Result<Known, Unread>
    requires { offset + 4 ≤ length image.now }
    ensures { result ≡ read_as image.now offset found }
{
    let known = found.map_err(|refusal| Unread {
        refusal,
        fetched: 1,
    })?;
    let at = offset as usize;
    if image.len() < at + 4 * (1 + (known.words as usize)) {
        let there = (image.len() - at) / 4;
        return Err(missing(there as u32));
    }
    Ok(known)
}

// What stands at an offset of an image, for a dialect: a command whose words are all there, or why there is none.
pub fn read_at(image: &[u8], offset: u32, dialect: Dialect) -> Result<Known, Unread>
    ensures { result ≡ read_at image.now offset dialect }
{
    let at = offset as usize;
    if image.len() < at + 4 {
        return Err(missing(0));
    }
    let found = opcodes::look_up(words::word_at(image, at), Mode::Flash, dialect);
    read_row(found, image, offset)
}

// An argument word of the command at an offset; what is missing of it counts as 0.
pub fn argument_at(image: &[u8], offset: u32, i: u32) -> u32
    ensures { result ≡ argument image.now offset i }
{
    words::word_at(image, (offset as usize) + 4 + 4 * (i as usize))
}

// How many words the data of a load of so many bytes are.
pub fn data_words(size: u32) -> u32
    ensures { result ≡ data_words size }
{
    (((size as usize) + 3) / 4) as u32
}

// Are the data of a load of so many bytes there, from an offset on?
pub fn has_data(image: &[u8], from: u32, size: u32) -> bool
    ensures { result ≡ present image.now from (data_words size) }
{
    (from as usize) + 4 * (data_words(size) as usize) <= image.len()
}

// The data bytes of the command at an offset: a load's, by its size word.
pub fn data_size(command: Command, image: &[u8], offset: u32) -> u32
    ensures { result ≡ data_size command image.now offset }
{
    match command {
        Command::Load => argument_at(image, offset, 1),
        _ => 0,
    }
}

// Where a command with so many argument words ends with its data.
pub fn end_of(known: Known, image: &[u8], offset: u32) -> usize
    ensures { result ≡ past_data known.command known.words image.now offset }
{
    let data = data_words(data_size(known.command, image, offset));
    (offset as usize) + 4 * (1 + (known.words as usize)) + 4 * (data as usize)
}
