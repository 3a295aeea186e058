// The bits program: reads an image on standard input, runs it, and tells which command wrote each bit of the words that its arguments name. Before the words
// may stand `register`, the name of a register file and a release, by whose fields the bits are named.
#![tactic(auto)]

mod answers;

ghost use Rattle.std.specs.Prelude.{◌*◌, ◌≤◌, length};

use ais_arguments::number_at;
use answers::Run;
use bit_report::{Names, Word};
use field_register::Register;
use std::env::Env;
use std::fs::Files;
use std::{fs, io, str};
use words::Unit;

fn usage(rt: &impl Print) -> io::Result<()> {
    println!(rt; "usage: ais-bits [--register FILE RELEASE] FILE WORD..")
}

// One word more than may be chosen: with it they are refused, however many follow.
const MOST_READ: usize = 65;

// How many arguments from one on are read as words.
fn words_given(rt: &impl Env, first: usize) -> usize
    ensures { result ≤ 65 }
{
    ais_arguments::count(rt)
        .saturating_sub(first)
        .min(MOST_READ)
}

// Puts the words from an argument on into a list, four bytes each, and answers how many; 0 where one is no number.
fn read_words(rt: &impl Env, first: usize, list: &mut [u8]) -> usize
    requires { (first ≤ 4) × (260 ≤ length list.old) }
    ensures { (result ≤ 65) × (4 * result ≤ length list.new) }
{
    let count = words_given(rt, first);
    for i in 0..count {
        let Some(word) = number_at(rt, first + i) else {
            return 0;
        };
        words::write(list, 4 * i, Unit::Four, word);
    }
    count
}

// Tells of the words of a list, which stand in the memory at these places.
fn tell(rt: &impl Print, run: &Run, list: &[u8], places: &[usize], memory: &[u8]) -> io::Result<()>
    requires { length places.now ≤ 64 }
{
    for (i, place) in places.iter().enumerate() {
        let value = words::word_at(memory, *place);
        let word = Word {
            index: i as u32,
            address: words::word_at(list, 4 * i),
        };
        answers::word(rt, run, value, word)?;
    }
    Ok(())
}

// Runs the image on standard input, and tells of the words of a list. What is longer than the longest image is refused however long.
fn run(rt: &(impl Input + Print), list: &[u8], names: Names, named: bool) -> io::Result<()> {
    let mut room = [0u8; 65537];
    let mut memory = [0u8; 4096];
    let mut numbers = [0u8; 4096];
    let mut offsets = [0u8; 4096];
    let n = ais_reading::read_input(rt, &mut room)?;
    let image = &room[..n];
    let Ok(traced) = bit_runs::run(list, image, &mut memory, &mut numbers, &mut offsets) else {
        return answers::refused_words(rt);
    };
    answers::outcome(rt, traced.refusal, traced.at)?;
    let run = Run {
        image,
        numbers: &numbers,
        offsets: &offsets,
        names,
        named,
    };
    let places = traced.chosen.places;
    let count = traced.chosen.count.min(places.len());
    tell(rt, &run, list, &places[..count], &memory)
}

// Reads the words from an argument on, and goes on with them.
fn with_words(
    rt: &(impl Env + Input + Print),
    first: usize,
    names: Names,
    named: bool,
) -> io::Result<()>
    requires { first ≤ 4 }
{
    let mut list = [0u8; 260];
    let count = read_words(rt, first, &mut list);
    if count == 0 {
        return usage(rt);
    }
    let end = 4 * count;
    run(rt, &list[..end], names, named)
}

// The register of a file; the launcher has seen that it can be read. 200 good lines have 15,600 bytes at most.
fn with_register(rt: &(impl Env + Files + Input + Print), release: u32) -> io::Result<()> {
    let mut name = [0u8; 4096];
    let mut room = [0u8; 65536];
    let kept = ais_arguments::read(rt, 2, &mut name);
    let Ok(path) = str::from_utf8(&name[..kept]) else {
        return usage(rt);
    };
    let Ok(mut file) = fs::open(rt, path) else {
        return usage(rt);
    };
    let n = ais_reading::read_full(&mut file, &mut room)?;
    let text = &room[..n];
    match field_register::read(text) {
        Ok(register) => with_words(rt, 4, Names { register, release }, true),
        Err(refused) => ais_printing::registers::put_refused(rt, text, refused),
    }
}

// The bits have no names: the register of no line has none.
fn with_no_register(rt: &(impl Env + Input + Print)) -> io::Result<()> {
    let register = Register::empty();
    with_words(
        rt,
        1,
        Names {
            register,
            release: 0,
        },
        false,
    )
}

fn main(rt: HostRuntime) -> io::Result<()> {
    if !ais_arguments::is_word(&rt, 1, b"register") {
        return with_no_register(&rt);
    }
    let Some(release) = number_at(&rt, 3) else {
        return usage(&rt);
    };
    with_register(&rt, release)
}
