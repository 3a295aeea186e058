// Writes an image, read on standard input, out as text; a refusal goes to standard error.
#![tactic(auto)]

use opcodes::Refusal;
use std::io;

// One word more than the longest image is room enough: what is longer has no room, however long.
fn main(rt: HostRuntime) -> io::Result<()> {
    let mut image = [0u8; 65540];
    let n = ais_reading::read_input(&rt, &mut image)?;
    let mut text = [0u8; 131072];
    match hex_text::conversions::to_text(&image[..n], &mut text) {
        Ok(length) => ais_printing::put_or_say(
            &rt,
            &text[..length],
            "the text can't be written to standard output",
        ),
        Err(Refusal::Length) => eprintln!(rt;
            "refusal: 21, the image's length is no multiple of 4"
        ),
        Err(_) => eprintln!(rt; "refusal: 23, the image is longer than 65,536 bytes"),
    }
}
