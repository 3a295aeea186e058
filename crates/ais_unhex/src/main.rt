// Writes the image of a text that is read on standard input; a refusal goes to standard error.
#![tactic(auto)]

use opcodes::Refusal;
use std::io;

// One word more than the longest text is room enough: what is longer has no room, however long.
fn main(rt: HostRuntime) -> io::Result<()> {
    let mut text = [0u8; 131080];
    let n = ais_reading::read_input(&rt, &mut text)?;
    let mut image = [0u8; 65536];
    match hex_text::conversions::to_image(&text[..n], &mut image) {
        Ok(length) => ais_printing::put_or_say(
            &rt,
            &image[..length],
            "the image can't be written to standard output",
        ),
        Err(Refusal::Length) => eprintln!(rt; "refusal: 21, the text's length is no multiple of 8"),
        Err(Refusal::Digit) => {
            eprintln!(rt; "refusal: 22, the text has a character that is no hexadecimal digit")
        }
        Err(_) => eprintln!(rt; "refusal: 23, the text is longer than 131,072 digits"),
    }
}
