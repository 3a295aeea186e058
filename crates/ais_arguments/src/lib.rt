// What a person gives a program: the arguments, as numbers and as words.
#![tactic(auto)]

ghost use Rattle.std.specs.Prelude.{◌≤◌, length};

use std::env::{Env, FillError};

// Is there such an argument? One that finds no room is there.
fn is_given(rt: &impl Env, i: usize) -> bool {
    let mut room = [0u8; 1];
    !matches!(rt.arg(i, &mut room), Err(FillError::NotPresent))
}

// How many arguments there are, the program's name among them.
pub fn count(rt: &impl Env) -> usize {
    for i in 0..usize::MAX {
        if !is_given(rt, i) {
            return i;
        }
    }
    usize::MAX
}

// Puts an argument at the front of a room, and answers how long it is: 0 for one that is missing or finds no room.
pub fn read(rt: &impl Env, i: usize, room: &mut [u8]) -> usize
    ensures { result ≤ length room.new }
{
    match rt.arg(i, room) {
        Ok(n) => n,
        Err(_) => 0,
    }
}

// The number that an argument is, if it is one.
pub fn number_at(rt: &impl Env, i: usize) -> Option<u32> {
    let mut room = [0u8; 16];
    let n = read(rt, i, &mut room);
    digits::given(&room[..n])
}

// Is an argument this word, of fewer than 16 letters?
pub fn is_word(rt: &impl Env, i: usize, word: &[u8]) -> bool {
    let mut room = [0u8; 16];
    let n = read(rt, i, &mut room);
    &room[..n] == word
}
