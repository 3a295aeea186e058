// What several programs write: a result or a complaint, and a name.
#![tactic(auto)]

pub mod registers;

use std::{fmt, io};

// A result; a complaint where it can't be written.
pub fn put_or_say(rt: &(impl Print + Eprint), res: &[u8], complaint: &str) -> io::Result<()> {
    rt.write_all(res).or_else(|_| eprintln!(rt; "{complaint}"))
}

// A name without the zeros behind it.
#[derive(Clone, Copy)]
pub struct Letters(pub [u8; 16]);

impl fmt::Display for Letters {
    fn fmt<W: fmt::Write>(&self, f: &mut fmt::Formatter<W>) -> fmt::Result {
        for byte in &self.0 {
            if *byte != 0 {
                f.write_char(char::from(*byte))?;
            }
        }
        Ok(())
    }
}
