// What is shown of the memory that a run or a session leaves.
use crate::text;
use std::io;

// The rows that are shown, and how many bytes changed past them.
pub fn show_memory(
    rt: &impl Print,
    first: u32,
    background: u8,
    shown: usize,
    memory: &[u8],
) -> io::Result<()> {
    let Some((front, others)) = memory.split_at_checked(shown) else {
        return Ok(());
    };
    text::rows(rt, first, front)?;
    let changed = others.iter().filter(|byte| **byte != background).count();
    println!(rt; "other={changed}\n")
}
