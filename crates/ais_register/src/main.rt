// The register program: reads a register on standard input, and answers the question that its arguments ask, in the register's own words.
#![tactic(auto)]

mod answers;
mod text;

use ais_arguments::{is_word, number_at};
use field_register::{Register, Subject};
use std::env::Env;
use std::io;

// bit WORD BIT RELEASE
fn ask_bit(rt: &(impl Env + Print), register: Register) -> io::Result<()> {
    match (number_at(rt, 2), number_at(rt, 3), number_at(rt, 4)) {
        (Some(word), Some(bit), Some(release)) => answers::bit(rt, register, word, bit, release),
        _ => text::usage(rt),
    }
}

// bit WORD BIT
fn ask_history(rt: &(impl Env + Print), register: Register) -> io::Result<()> {
    match (number_at(rt, 2), number_at(rt, 3)) {
        (Some(word), Some(bit)) => answers::history(rt, register, Subject::Bit { word, bit }),
        _ => text::usage(rt),
    }
}

// field NAME
fn ask_field(rt: &(impl Env + Print), register: Register) -> io::Result<()> {
    let mut room = [0u8; 32];
    let n = ais_arguments::read(rt, 2, &mut room);
    answers::field(rt, register, &room[..n])
}

// set NAME RELEASE VALUE
fn ask_setting(rt: &(impl Env + Print), register: Register) -> io::Result<()> {
    let mut room = [0u8; 32];
    let n = ais_arguments::read(rt, 2, &mut room);
    match (number_at(rt, 3), number_at(rt, 4)) {
        (Some(release), Some(value)) => {
            answers::setting(rt, register, &room[..n], release, value)
        }
        _ => text::usage(rt),
    }
}

// Which question the arguments ask.
fn ask(rt: &(impl Env + Print), register: Register) -> io::Result<()> {
    let count = ais_arguments::count(rt);
    if count == 5 && is_word(rt, 1, b"bit") {
        return ask_bit(rt, register);
    }
    if count == 4 && is_word(rt, 1, b"bit") {
        return ask_history(rt, register);
    }
    if count == 3 && is_word(rt, 1, b"field") {
        return ask_field(rt, register);
    }
    if count == 5 && is_word(rt, 1, b"set") {
        return ask_setting(rt, register);
    }
    if count == 1 {
        return answers::good(rt, register);
    }
    text::usage(rt)
}

// 200 good lines have 15,600 bytes at most: of a longer text a line within the room is refused, whatever follows.
fn main(rt: HostRuntime) -> io::Result<()> {
    let mut room = [0u8; 65536];
    let n = ais_reading::read_input(&rt, &mut room)?;
    let text = &room[..n];
    match field_register::read(text) {
        Ok(register) => ask(&rt, register),
        Err(refused) => ais_printing::registers::put_refused(&rt, text, refused),
    }
}
