// Figure 13 of source 000, a text: read into an image and written out again, and the image run; and what texts of one word leave in a room.
use crate::cases;
use ais_transcripts::runs;
use ais_transcripts::text::Listed;
use opcodes::Dialect;
use std::io;

// A text's name, and what reading it into a room answers.
fn read(rt: &impl Print, name: &str, digits: &[u8], room: &mut [u8]) -> io::Result<()> {
    let answer = hex_text::read(digits, room);
    println!(rt; "text={name}\nread={}", opcodes::code_of(answer.err()))
}

// The same, what writing its image answers, and the digits that come back.
fn turn(rt: &impl Print, name: &str, digits: &[u8], image: &mut [u8]) -> io::Result<()> {
    read(rt, name, digits, image)?;
    let mut back = [0u8; 296];
    let written = hex_text::write(image, &mut back);
    print!(rt; "written={}\ndigits=", opcodes::code_of(written.err()))?;
    rt.write_all(&back)?;
    print!(rt; "\n\n")
}

// A text through both, and its image run as 000's images are, and as the check program does, whose window is another.
fn figure(rt: &impl Print, name: &str, digits: &[u8]) -> io::Result<()> {
    let mut image = [0u8; 148];
    turn(rt, name, digits, &mut image)?;
    runs::run(rt, cases::at_table(name, "clean", 0, &[]), &mut image)?;
    println!(rt;
        "checked={name}\n{}",
        checking::check(Dialect::Am17xx, &image)
    )
}

// Mended, and as printed.
pub fn figures(rt: &impl Print) -> io::Result<()> {
    figure(
        rt,
        "figure-13-text",
        b"4150495458535903585359011080000000000040018020280280242802002228018840690200032A020C027702884068028C1FDB020840686C6E10CD10442641003C2C6E45B06C6E2C6E00B48C6E008AEFC08000585359020E85A97BFFFFFFA858535901108000400000000C0000000A0000000B0000000C585359028434A250FFFFFFDC5853590610800000000000020000004C",
    )?;
    figure(
        rt,
        "figure-13-text-printed",
        b"4150495458535903585359011080000000000040018020280280242802002228018840690200032A020C027702884068028C1FDB020840686C6E10CD10442641003C2C6E45B06C6E2C6E00B48C6E008AEFC08000585359020E85A97BFFFFFFFA858535901108000400000000C0000000A0000000B0000000C585359028434A250FFFFFFDC585359061080000000000020000004C",
    )
}

// The answer alone, and what the room then holds.
fn read_into(rt: &impl Print, name: &str, digits: &[u8], room: &mut [u8]) -> io::Result<()> {
    read(rt, name, digits, room)?;
    println!(rt; "room={}\n", Listed(room))
}

// The magic word with each fault alone and with one that stands after it, no digit at all, and the magic word in a longer room.
pub fn magic_word(rt: &impl Print) -> io::Result<()> {
    let mut room = [0xEEu8; 5];
    read_into(rt, "one-digit-short", b"4150495", &mut room)?;
    read_into(rt, "one-digit-short-and-strange", b"415049G", &mut room)?;
    read_into(rt, "no-digit", b"4150495G", &mut room)?;
    let mut narrow = [0xEEu8; 3];
    read_into(rt, "no-digit-and-no-room", b"4150495G", &mut narrow)?;
    read_into(rt, "no-room", b"41504954", &mut narrow)?;
    read_into(rt, "nothing", b"", &mut narrow)?;
    read_into(rt, "magic-word", b"41504954", &mut room)
}
