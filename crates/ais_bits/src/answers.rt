// What is told of a run and of a chosen word, a line each.
use ais_printing::Letters;
use bit_report::{Deed, Kind, Names, Part, Word};
use field_lines::FieldLine;
use opcodes::Refusal;
use std::{fmt, io};

// What is told of: an image, and what its run left: for each bit the number and the offset of the command that wrote it last; and the names of the bits,
// which are told only where a register was given.
#[derive(Clone, Copy)]
pub struct Run<'a> {
    pub image: &'a [u8],
    pub numbers: &'a [u8],
    pub offsets: &'a [u8],
    pub names: Names,
    pub named: bool,
}

// How the run ended.
pub fn outcome(rt: &impl Print, refusal: Option<Refusal>, at: u32) -> io::Result<()> {
    match refusal {
        None => println!(rt; "outcome=entered code=0 at={at}"),
        Some(refusal) => println!(rt; "outcome=refused code={} at={at}", refusal.code()),
    }
}

// What a command is, and of a setting the bits from the first to the last.
#[derive(Clone, Copy)]
struct Doing(Deed);

impl fmt::Display for Doing {
    fn fmt<W: fmt::Write>(&self, f: &mut fmt::Formatter<W>) -> fmt::Result {
        let deed = self.0;
        match deed.kind {
            Kind::Load => f.write_str("load"),
            Kind::Fill => f.write_str("fill"),
            Kind::Setting => write!(f, "setting={}..{}", deed.from, deed.to.saturating_sub(1)),
            Kind::Other => f.write_str("unknown"),
        }
    }
}

// The field of some bits, a dash for none.
fn put_field(rt: &impl Print, field: Option<FieldLine>) -> io::Result<()> {
    match field {
        Some(line) => print!(rt; " field={}", Letters(line.name)),
        None => print!(rt; " field=-"),
    }
}

// A line of bits of which the same is told; the field only where a register was given.
fn put_part(rt: &impl Print, run: &Run, address: u32, part: Part) -> io::Result<()> {
    let told = part.told;
    print!(rt; "bits={}..{} value={}", part.start, part.stop, part.value)?;
    if run.named {
        put_field(rt, told.field)?;
    }
    if told.number == 0 {
        return println!(rt; " never written");
    }
    let deed = Doing(bit_report::deed_at(run.image, told.at, address));
    println!(rt; " command={} at={} {deed}", told.number, told.at)
}

// The lines of a word.
fn put_parts(rt: &impl Print, run: &Run, value: u32, word: Word) -> io::Result<()> {
    let mut bit: u32 = 0;
    while bit < 32 {
        let part = bit_report::part_from(value, run.numbers, run.offsets, run.names, word, bit);
        put_part(rt, run, word.address, part)?;
        if part.stop < bit || 31 <= part.stop {
            return Ok(());
        }
        bit = part.stop + 1;
    }
    Ok(())
}

// A field, and whether a command writes all of it.
fn put_written(rt: &impl Print, line: FieldLine, deed: Deed) -> io::Result<()> {
    let share = if bit_report::reaches_out(line, deed.from, deed.to) {
        "part"
    } else {
        "all"
    };
    print!(rt;
        "{share} of {} {}..{}",
        Letters(line.name),
        line.start,
        line.stop
    )
}

// The fields that a command writes.
fn put_fields(rt: &impl Print, names: Names, address: u32, deed: Deed) -> io::Result<()> {
    let mut bit = bit_report::first_field(names, address, deed.from, deed.to);
    while bit < deed.to {
        let field = bit_report::field_at(names, address, bit);
        if let Some(line) = field {
            put_written(rt, line, deed)?;
        }
        let next = bit_report::other_field(names, address, field, bit + 1, deed.to);
        if next <= bit {
            return Ok(());
        }
        if next < deed.to {
            print!(rt; ", ")?;
        }
        bit = next;
    }
    Ok(())
}

// Points out a command that writes two fields, or a field only in part.
fn put_warning(rt: &impl Print, run: &Run, number: u32, at: u32, address: u32) -> io::Result<()> {
    let deed = bit_report::deed_at(run.image, at, address);
    let two = bit_report::two_fields(run.names, address, deed);
    let cut = bit_report::cut_field(run.names, address, deed);
    if !two && !cut {
        return Ok(());
    }
    print!(rt; "warning: command={number} at={at} {} writes ", Doing(deed))?;
    put_fields(rt, run.names, address, deed)?;
    println!(rt; "")
}

// Looks at the command of a bit, where the bit is the lowest that it wrote last.
fn look_at(rt: &impl Print, run: &Run, word: Word, bit: u32) -> io::Result<()> {
    let number = bit_report::entry(run.numbers, word.index, bit);
    if number == 0 || !bit_report::is_first(run.numbers, run.offsets, word.index, bit) {
        return Ok(());
    }
    let at = bit_report::entry(run.offsets, word.index, bit);
    put_warning(rt, run, number, at, word.address)
}

// The commands of a word that are to be pointed out.
fn put_warnings(rt: &impl Print, run: &Run, word: Word) -> io::Result<()> {
    for bit in 0..32 {
        look_at(rt, run, word, bit)?;
    }
    Ok(())
}

// All that is told of a word.
pub fn word(rt: &impl Print, run: &Run, value: u32, word: Word) -> io::Result<()> {
    println!(rt; "word={:#010X} value={value:#010X}", word.address)?;
    put_parts(rt, run, value, word)?;
    put_warnings(rt, run, word)
}

// Words that are refused.
pub fn refused_words(rt: &impl Print) -> io::Result<()> {
    println!(rt;
        "refusal=24 more than 64 words, or one that is no multiple of 4, is named twice, or does not lie in the window"
    )
}
