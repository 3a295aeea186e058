// The check program: reads an image on standard input and writes what becomes of it, in six lines. With an argument the image is a DM648's, else an AM17xx's.
#![tactic(auto)]

use opcodes::Dialect;
use std::env::Env;
use std::io;

// The dialect that was asked for.
fn asked(rt: &impl Env) -> Dialect {
    if ais_arguments::count(rt) < 2 {
        Dialect::Am17xx
    } else {
        Dialect::Dm648
    }
}

// One byte more than the longest image is room enough: what is longer is refused however long.
fn main(rt: HostRuntime) -> io::Result<()> {
    let mut room = [0u8; 65537];
    let n = ais_reading::read_input(&rt, &mut room)?;
    print!(rt; "{}", checking::check(asked(&rt), &room[..n]))
}
