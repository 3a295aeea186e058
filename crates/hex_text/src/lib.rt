// Scripts as hexadecimal text: eight digits a word, the highest first, read into an image and written out.
#![tactic(auto)]

pub mod conversions;

ghost use Rattle.std.specs.Prelude.{◌≡◌, ◌+◌, ◌<◌, ◌≤◌, min, max, true, length};
ghost use Rattle.std.proofs.lemmas.List.Edits.{sets};
ghost use Rattle.words.specs.rules.Bits.{within};
ghost use Rattle.words.specs.rules.Bytes.{bytes_at};
ghost use Rattle.words.specs.rules.Choice.{pick};
ghost use Rattle.digits.specs.rules.Digits.{digit_value, is_digit};
ghost use Rattle.hex_text.specs.rules.Digits.{digit_at, digits_of, word_of, bytes_of};
ghost use Rattle.opcodes.specs.rules.Refusals.{done_unless};
ghost use Rattle.hex_text.specs.rules.Text.{image_of, text_of, all_digits, read_answer, write_answer, laid, read_room, write_room};

use opcodes::Refusal;

// 0 for one of so many characters from the first on, 1 for any other.
fn outside(character: u8, first: u8, count: u8) -> u8
    requires { first + count ≤ 256 }
    ensures { result ≡ pick (within first count character) 0 1 }
{
    if std::num::wrapping_sub_u8(character, first) < count {
        0
    } else {
        1
    }
}

// 0 for a digit in either letter case, 1 for any other character.
fn strange(character: u8) -> u8
    ensures { result ≡ pick (is_digit 16 character) 0 1 }
{
    let letter = outside(character, b'A', 6).min(outside(character, b'a', 6));
    outside(character, b'0', 10).min(letter)
}

// Is every character a digit? All are looked at, with no branch by a character, so that the compiler takes many at once.
fn is_text(text: &[u8]) -> bool
    ensures { result ≡ all_digits text.now }
{
    let mut strangest: u8 = 0;
    for character in text {
        strangest = strangest.max(strange(*character));
    }
    strangest == 0
}

// The value of a digit: letters of either case have bit 6, and their low four bits count from 1.
fn value(digit: u8) -> u32
    requires { is_digit 16 digit ≡ true }
    ensures { (result ≡ digit_value digit) × (result < 16) }
{
    (digit % 16 + 9 * (digit / 64)) as u32
}

// The number of eight digits at most.
fn word_of(digits: &[u8]) -> u32
    requires { (all_digits digits.now ≡ true) × (length digits.now ≤ 8) }
    ensures { result ≡ word_of digits.now }
{
    let mut word: u32 = 0;
    for digit in digits {
        word = 16 * word + value(*digit);
    }
    word
}

// The image of a text, a word a turn.
fn read_words(text: &[u8], room: &mut [u8])
    requires { (all_digits text.now ≡ true) × (length (image_of text.now) ≤ length room.old) }
    ensures { room.new ≡ laid (image_of text.now) room.old }
{
    for (i, digits) in text.chunks_exact(8).enumerate() {
        room[4 * i..4 * i + 4].copy_from_slice(&word_of(digits).to_le_bytes());
    }
}

// Reads a text into an image; where that is refused the room is left as it was.
pub fn read(text: &[u8], room: &mut [u8]) -> Result<(), Refusal>
    ensures value { result ≡ done_unless (read_answer text.now room.old) }
    ensures room_after { room.new ≡ read_room text.now room.old }
{
    if text.len() % 8 != 0 {
        return Err(Refusal::Length);
    }
    if !is_text(text) {
        return Err(Refusal::Digit);
    }
    if room.len() < text.len() / 2 {
        return Err(Refusal::Room);
    }
    read_words(text, room);
    Ok(())
}

// A digit of a word, the lowest at place 0.
fn digit_at(word: u32, place: u32) -> u8
    requires { place < 8 }
    ensures { result ≡ digit_at word place }
{
    digits::last_digit(word >> (4 * place))
}

// The eight digits of a word put into their place, the highest first. Each is stored where it stands: an array of them that is copied is slower.
fn put_digits(place: &mut [u8], word: u32)
    requires { length place.old ≡ 8 }
    ensures { place.new ≡ digits_of word }
{
    place[0] = digit_at(word, 7);
    place[1] = digit_at(word, 6);
    place[2] = digit_at(word, 5);
    place[3] = digit_at(word, 4);
    place[4] = digit_at(word, 3);
    place[5] = digit_at(word, 2);
    place[6] = digit_at(word, 1);
    place[7] = digit_at(word, 0);
}

// The text of an image, a word a turn.
fn write_words(image: &[u8], room: &mut [u8])
    requires { length (text_of image.now) ≤ length room.old }
    ensures { room.new ≡ laid (text_of image.now) room.old }
{
    for (i, bytes) in image.chunks_exact(4).enumerate() {
        put_digits(&mut room[8 * i..8 * i + 8], words::number_of(bytes));
    }
}

// Writes an image out as text; where that is refused the room is left as it was.
pub fn write(image: &[u8], room: &mut [u8]) -> Result<(), Refusal>
    ensures value { result ≡ done_unless (write_answer image.now room.old) }
    ensures room_after { room.new ≡ write_room image.now room.old }
{
    if image.len() % 4 != 0 {
        return Err(Refusal::Length);
    }
    if room.len() / 2 < image.len() {
        return Err(Refusal::Room);
    }
    write_words(image, room);
    Ok(())
}
