// The agreement program: reads an image on standard input, runs it from flash and sends it by line, and writes what the two come to. The arguments are the
// dialect, am17xx or dm648, the line, bytes or halves, and the retry limit; without them they are am17xx, bytes and 0.
#![tactic(auto)]

use agreement::{Compared, Difference, FlashEnd};
use exchange::Exchanged;
use opcodes::{Dialect, Event};
use sent::Bus;
use std::env::Env;
use std::io::Read;
use std::{fmt, io};

// The largest retry limit: with it the longest image has 52,417 events at most, which fill the room.
const MOST_RETRIES: u32 = 15;

// The kind of a wait among the events of a room.
const WAIT: u32 = 1;

// The address entered, a dash for none.
#[derive(Drop)]
struct Entered(Event);

impl fmt::Display for Entered {
    fn fmt<W: fmt::Write>(&self, f: &mut fmt::Formatter<W>) -> fmt::Result {
        match self.0 {
            Event::Enter(address) => write!(f, "{address:#010X}"),
            _ => f.write_char('-'),
        }
    }
}

// The cycles of a wait, a dash where there is none.
#[derive(Drop)]
struct Cycles(Option<u32>);

impl fmt::Display for Cycles {
    fn fmt<W: fmt::Write>(&self, f: &mut fmt::Formatter<W>) -> fmt::Result {
        match self.0 {
            Some(cycles) => write!(f, "{cycles}"),
            None => f.write_char('-'),
        }
    }
}

fn put_flash(rt: &impl Print, end: FlashEnd) -> io::Result<()> {
    print!(rt;
        "flash code={} at={} retries={} ",
        opcodes::code_of(end.refusal),
        end.at,
        end.retries
    )?;
    println!(rt; "enter={}", Entered(end.event))
}

fn put_line(rt: &impl Print, end: Exchanged) -> io::Result<()> {
    print!(rt;
        "line code={} loader={} retries={} ",
        opcodes::code_of(end.refusal),
        opcodes::code_of(end.refused),
        end.retries
    )?;
    println!(rt; "enter={}", Entered(end.event))
}

// The events that a side told: those bytes of its room, eight an event, a kind and a value.
#[derive(Clone, Copy)]
struct Events<'a>(&'a [[u8; 8]]);

impl<'a> Events<'a> {
    fn told(room: &'a [u8], bytes: usize) -> Events<'a> {
        let (events, _) = room.get(..bytes).unwrap_or(room).as_chunks();
        Events(events)
    }

    fn count(self) -> usize {
        self.0.len()
    }

    // The cycles of an event, if it is a wait.
    fn wait(self, number: usize) -> Option<u32> {
        let event = self.0.get(number)?;
        (words::word_at(event, 0) == WAIT).then_some(words::word_at(event, 4))
    }
}

// The waits of both sides, in order; no line where neither side has one.
fn put_waits(rt: &impl Print, flash: Events<'_>, line: Events<'_>) -> io::Result<()> {
    for number in 0..flash.count().max(line.count()) {
        let one = flash.wait(number);
        let other = line.wait(number);
        if one.is_some() || other.is_some() {
            println!(rt; "wait flash={} line={}", Cycles(one), Cycles(other))?;
        }
    }
    Ok(())
}

fn put_difference(rt: &impl Print, difference: Difference) -> io::Result<()> {
    let count = difference.words;
    if count == 0 {
        println!(rt; "differ=0")
    } else {
        println!(rt; "differ={count} first={:#010X}", difference.first)
    }
}

fn put_compared(rt: &impl Print, compared: Compared, flash: &[u8], line: &[u8]) -> io::Result<()> {
    put_flash(rt, compared.flash)?;
    put_line(rt, compared.line)?;
    let flash_events = Events::told(flash, compared.flash.told);
    put_waits(rt, flash_events, Events::told(line, compared.line.told))?;
    put_difference(rt, compared.difference)
}

fn asked_dialect(rt: &impl Env) -> Dialect {
    if ais_arguments::is_word(rt, 1, b"dm648") {
        Dialect::Dm648
    } else {
        Dialect::Am17xx
    }
}

fn asked_bus(rt: &impl Env) -> Bus {
    if ais_arguments::is_word(rt, 2, b"halves") {
        Bus::Halves
    } else {
        Bus::Bytes
    }
}

// Compares, and tells.
fn tell(rt: &(impl Env + Print), image: &[u8], limit: u8) -> io::Result<()> {
    let mut flash = [0u8; 419336];
    let mut line = [0u8; 419336];
    let compared = agreement::compare(
        asked_bus(rt),
        asked_dialect(rt),
        image,
        limit,
        &mut flash,
        &mut line,
    );
    put_compared(rt, compared, &flash, &line)
}

fn say_unread(rt: &impl Eprint) -> io::Result<()> {
    eprintln!(rt; "ais-agree: standard input can't be read")
}

// One byte more than the longest image is room enough: what is longer is refused however long.
fn run(rt: &(impl Env + Input + Print + Eprint), limit: u8) -> io::Result<()> {
    let mut room = [0u8; 65537];
    let mut more = [0u8; 1];
    let mut input = rt.reader();
    let Ok(n) = ais_reading::read_full(&mut input, &mut room) else {
        return say_unread(rt);
    };
    if input.read(&mut more).is_err() {
        return say_unread(rt);
    }
    tell(rt, &room[..n], limit)
}

fn say_limit(rt: &impl Eprint) -> io::Result<()> {
    eprintln!(rt; "ais-agree: the retry limit is a number from 0 to 15")
}

fn main(rt: HostRuntime) -> io::Result<()> {
    if ais_arguments::count(&rt) < 4 {
        return run(&rt, 0);
    }
    let Some(limit) = ais_arguments::number_at(&rt, 3) else {
        return say_limit(&rt);
    };
    if MOST_RETRIES < limit {
        return say_limit(&rt);
    }
    run(&rt, limit as u8)
}
