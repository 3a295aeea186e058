// Rows of bytes on standard output.
use std::{fmt, io};

// Bytes by two hexadecimal digits each, with a blank between them.
#[derive(Drop)]
pub struct Listed<'a>(pub &'a [u8]);

impl fmt::Display for Listed<'_> {
    fn fmt<W: fmt::Write>(&self, f: &mut fmt::Formatter<W>) -> fmt::Result {
        for (place, byte) in self.0.iter().enumerate() {
            if place > 0 {
                f.write_char(' ')?;
            }
            write!(f, "{byte:02X}")?;
        }
        Ok(())
    }
}

// Rows of 16 bytes, each after the address of its first.
pub fn rows(rt: &impl Print, first: u32, memory: &[u8]) -> io::Result<()> {
    let mut address = first;
    for row in memory.chunks_exact(16) {
        println!(rt; "memory={address:#010X} {}", Listed(row))?;
        address = address.wrapping_add(16);
    }
    Ok(())
}
