// What the programs `ais_hex` and `ais_unhex` decide: what of a file is converted, and how long the result is.
ghost use Rattle.std.specs.Prelude.{◌≡◌, IfOk};
ghost use Rattle.hex_text.specs.rules.Text.{read_room, write_room};
ghost use Rattle.hex_text.specs.rules.Conversions.{IsPart, text_end, text_of_file, to_text, to_image};

use opcodes::Refusal;

const LINE_FEED: u8 = 0x0A;

// An image's text: how many bytes of the room it is, or why there is none.
pub fn to_text(image: &[u8], room: &mut [u8]) -> Result<usize, Refusal>
    ensures value { result ≡ to_text image.now room.old }
    ensures part { IfOk result (λ length. IsPart length room.new) }
    ensures room_after { room.new ≡ write_room image.now room.old }
{
    crate::write(image, room)?;
    Ok(2 * image.len())
}

// Where a file's text ends: a line feed that is its last character is not part of it.
fn text_end(file: &[u8]) -> usize
    ensures { result ≡ text_end file.now }
{
    let length = file.len();
    if length == 0 {
        return 0;
    }
    if file[length - 1] == LINE_FEED {
        return length - 1;
    }
    length
}

// A text's image, likewise.
pub fn to_image(file: &[u8], room: &mut [u8]) -> Result<usize, Refusal>
    ensures value { result ≡ to_image file.now room.old }
    ensures part { IfOk result (λ length. IsPart length room.new) }
    ensures room_after { room.new ≡ read_room (text_of_file file.now) room.old }
{
    let end = text_end(file);
    crate::read(&file[..end], room)?;
    Ok(end / 2)
}
