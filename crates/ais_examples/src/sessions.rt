// Whole sent sessions: each word, what was replied to it, and the end.
use ais_transcripts::text::Listed;
use ais_transcripts::{ends, images};
use opcodes::{Dialect, Event};
use sent::{Answer, Session};
use std::io;

// Ping, two words to echo, the first of them like an opcode; then Jump & Close.
const PING: [u32; 6] = [
    0x5853_590B,
    0x0000_0002,
    0x5853_5906,
    0x0000_0058,
    0x5853_5906,
    0x8000_0000,
];

// One byte, and the first bytes of its reply; nothing where there are none.
fn send_byte(rt: &impl Print, session: Session, memory: &mut [u8], byte: u8) -> io::Result<Answer> {
    let answer = session.step(memory, byte);
    let reply = answer.reply;
    match reply.bytes.get(..reply.count as usize) {
        None | Some([]) => {}
        Some(bytes) => print!(rt; " reply={}", Listed(bytes))?,
    }
    Ok(answer)
}

// One word, lowest byte first.
fn send_word(rt: &impl Print, begun: Answer, memory: &mut [u8], word: u32) -> io::Result<Answer> {
    let bytes = word.to_le_bytes();
    print!(rt; "sent={}", Listed(&bytes))?;
    let mut last = begun;
    for byte in bytes {
        last = send_byte(rt, last.session, memory, byte)?;
    }
    println!(rt)?;
    Ok(last)
}

// Words one after the other.
fn send_words(
    rt: &impl Print,
    begun: Answer,
    memory: &mut [u8],
    listed: &[u32],
) -> io::Result<Answer> {
    let mut last = begun;
    for word in listed {
        last = send_word(rt, last, memory, *word)?;
    }
    Ok(last)
}

// Opens a session and sends the start word.
fn start(
    rt: &impl Print,
    name: &str,
    dialect: Dialect,
    first: u32,
    memory: &mut [u8],
) -> io::Result<Answer> {
    let opened = Session::open(dialect, 1, checking::one_window(first, 4096));
    let greeting = opened.reply.bytes;
    print!(rt; "session={name}\ngreeting=")?;
    rt.write_all(greeting.get(..6).unwrap_or(&[]))?;
    print!(rt; "\nsent={:02X}", Session::START)?;
    let answer = send_byte(rt, opened.session, memory, Session::START)?;
    println!(rt)?;
    Ok(answer)
}

// The host compares the checksum that a Request sent with what it expects.
fn compare(rt: &impl Print, asked: Answer, expected: u32) -> io::Result<()> {
    let register = words::word_at(&asked.reply.bytes, 4);
    println!(rt; "register={register:#010X} expected={expected:#010X}")
}

fn show_end(rt: &impl Print, last: Answer) -> io::Result<()> {
    let event = last.event;
    let outcome = if matches!(event, Event::Enter(_)) {
        "entered"
    } else {
        "refused"
    };
    println!(rt;
        "outcome={outcome}\ncode={}\nentry={:#010X}",
        opcodes::code_of(last.refusal),
        event.value()
    )?;
    println!(rt; "crc={:#010X}", last.session.core.tally.checksum)
}

// A session of 01's window.
fn run(rt: &impl Print, name: &str, listed: &[u32]) -> io::Result<()> {
    let mut memory = [0xEEu8; 4096];
    let begun = start(rt, name, Dialect::Am17xx, 0x8000_0000, &mut memory)?;
    let last = send_words(rt, begun, &mut memory, listed)?;
    show_end(rt, last)?;
    ends::show_memory(rt, 0x8000_0000, 0xEE, 16, &memory)
}

pub fn load(rt: &impl Print) -> io::Result<()> {
    run(rt, "load-5", &images::LOAD[1..])
}

pub fn ping(rt: &impl Print) -> io::Result<()> {
    run(rt, "ping", &PING)
}

// An old script up to the retired Jump.
pub fn retired(rt: &impl Print) -> io::Result<()> {
    run(rt, "load-then-jump", &images::OLD[1..7])
}

// Words up to a Request, whose checksum the host compares.
fn send_section(
    rt: &impl Print,
    begun: Answer,
    memory: &mut [u8],
    listed: &[u32],
    expected: u32,
) -> io::Result<Answer> {
    let asked = send_words(rt, begun, memory, listed)?;
    compare(rt, asked, expected)?;
    Ok(asked)
}

// The sections of source 000's image: no magic word, no arguments to a Request.
fn send_sections(rt: &impl Print, begun: Answer, memory: &mut [u8]) -> io::Result<Answer> {
    let one = send_section(rt, begun, memory, &images::TABLE[1..22], images::TABLE[22])?;
    send_section(rt, one, memory, &images::TABLE[24..31], images::TABLE[31])
}

// The whole image, nothing after the entry address.
pub fn table(rt: &impl Print) -> io::Result<()> {
    let mut memory = [0xEEu8; 4096];
    let begun = start(rt, "table-19", Dialect::Am17xx, 0x1080_0000, &mut memory)?;
    let loaded = send_sections(rt, begun, &mut memory)?;
    let last = send_words(rt, loaded, &mut memory, &images::TABLE[33..35])?;
    show_end(rt, last)?;
    ends::show_memory(rt, 0x1080_0000, 0xEE, 80, &memory)
}

// The same as its own boards take it: two totals after the entry address.
fn close_with(rt: &impl Print, name: &str, sections: u32, bytes: u32) -> io::Result<()> {
    let mut memory = [0xEEu8; 4096];
    let begun = start(rt, name, Dialect::Dm648, 0x1080_0000, &mut memory)?;
    let loaded = send_sections(rt, begun, &mut memory)?;
    let close = [images::TABLE[33], images::TABLE[34], sections, bytes];
    let last = send_words(rt, loaded, &mut memory, &close)?;
    show_end(rt, last)?;
    let counted = last.session.core.tally.totals.now;
    println!(rt;
        "sections={}\nbytes={}",
        counted.sections.0, counted.bytes.0
    )?;
    ends::show_memory(rt, 0x1080_0000, 0xEE, 80, &memory)
}

// The image's own totals, and one off in either.
pub fn closing_totals(rt: &impl Print) -> io::Result<()> {
    close_with(rt, "table-19-dm648", images::TABLE[35], images::TABLE[36])?;
    close_with(rt, "table-19-dm648-one-section-more", 3, 0x4C)?;
    close_with(rt, "table-19-dm648-one-byte-less", 2, 0x4B)
}
