// Counts the words that an image on standard input fetches, and writes them next to the most that it may. The argument is the retry limit; without one no
// retry is allowed, as in the check program.
#![tactic(auto)]

use std::env::Env;
use std::io;

// The retry limit that was asked for, unless it is none.
fn asked(rt: &impl Env) -> Option<u8> {
    if ais_arguments::count(rt) < 2 {
        return Some(0);
    }
    let mut text = [0u8; 16];
    let n = ais_arguments::read(rt, 1, &mut text);
    checking::limit_of(&text[..n])
}

// One byte more than the longest image is room enough: what is longer is refused however long.
fn count(rt: &(impl Input + Print), limit: u8) -> io::Result<()> {
    let mut room = [0u8; 65537];
    let n = ais_reading::read_input(rt, &mut room)?;
    let counted = checking::count_fetches(&room[..n], limit);
    println!(rt;
        "code={}\nfetched={}\nceiling={}",
        counted.code, counted.fetched, counted.ceiling
    )
}

fn main(rt: HostRuntime) -> io::Result<()> {
    match asked(&rt) {
        Some(retries) => count(&rt, retries),
        None => eprintln!(rt; "ais_fetched: the retry limit is a number from 0 to 255"),
    }
}
