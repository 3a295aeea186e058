// The program's answers, each a line of key=value words.
use crate::text;
use ais_printing::Letters;
use field_lines::FieldLine;
use field_register::{FieldRefusal, Register, Subject};
use std::io;

// A good register.
pub fn good(rt: &impl Print, register: Register) -> io::Result<()> {
    println!(rt; "register=good lines={}", register.count)
}

// The field that a bit is in a release, and since when.
pub fn bit(
    rt: &impl Print,
    register: Register,
    word: u32,
    bit: u32,
    release: u32,
) -> io::Result<()> {
    let Some(line) = field_register::field_of(register, word, bit, release) else {
        return text::put_refusal(rt, FieldRefusal::NoField);
    };
    println!(rt; "field={} since={}", Letters(line.name), line.since)
}

// What a bit is in a stretch of releases.
fn put_field(rt: &impl Print, found: Option<FieldLine>) -> io::Result<()> {
    match found {
        Some(line) => print!(rt; "field={}", Letters(line.name)),
        None => print!(rt; "field=-"),
    }
}

// Where a field is in a stretch of releases.
fn put_place(rt: &impl Print, name: [u8; 16], found: Option<FieldLine>) -> io::Result<()> {
    print!(rt; "field={}", Letters(name))?;
    match found {
        Some(line) => print!(rt;
            " word={:#010X} start={} stop={}",
            line.word, line.start, line.stop
        ),
        None => print!(rt; " word=- start=- stop=-"),
    }
}

// One stretch, and the release behind it, unless it has no end.
fn put_stretch(
    rt: &impl Print,
    register: Register,
    subject: Subject,
    from: u32,
) -> io::Result<Option<u32>> {
    let stretch = field_register::stretch_from(register, subject, from);
    match subject {
        Subject::Name(name) => put_place(rt, name, stretch.found)?,
        Subject::Bit { .. } => put_field(rt, stretch.found)?,
    }
    println!(rt; " since={from} until={}", stretch.last)?;
    match stretch.last {
        0 => Ok(None),
        last => Ok(last.checked_add(1)),
    }
}

// Each line begins and ends one stretch at most, so there are no more than this.
const MOST_STRETCHES: usize = 401;

// A subject through all releases.
pub fn history(rt: &impl Print, register: Register, subject: Subject) -> io::Result<()> {
    let mut from: u32 = 1;
    for _ in 0..MOST_STRETCHES {
        let Some(next) = put_stretch(rt, register, subject, from)? else {
            return Ok(());
        };
        from = next;
    }
    Ok(())
}

// Where a field was, release by release.
pub fn field(rt: &impl Print, register: Register, name: &[u8]) -> io::Result<()> {
    let Some(letters) = field_lines::name_of(name) else {
        return text::put_refusal(rt, FieldRefusal::NoField);
    };
    let subject = Subject::Name(letters);
    let first = field_register::stretch_from(register, subject, 1);
    if first.found.is_none() && first.last == 0 {
        return text::put_refusal(rt, FieldRefusal::NoField);
    }
    history(rt, register, subject)
}

// The five words of a command.
fn put_command(rt: &impl Print, words: [u32; 5]) -> io::Result<()> {
    print!(rt; "opcode={:#010X} type={:#010X} ", words[0], words[1])?;
    println!(rt;
        "address={:#010X} data={:#010X} delay={:#010X}",
        words[2], words[3], words[4]
    )
}

// The command that sets a field.
pub fn setting(
    rt: &impl Print,
    register: Register,
    name: &[u8],
    release: u32,
    value: u32,
) -> io::Result<()> {
    match field_register::command(register, name, release, value) {
        Ok(words) => put_command(rt, words),
        Err(refusal) => text::put_refusal(rt, refusal),
    }
}
