// The images of source 000 and the examples of 01, in flash and in sent mode; the stored output is what those two say.
#![tactic(auto)]

mod cases;
mod sessions;
mod texts;

use std::io;

fn main(rt: HostRuntime) -> io::Result<()> {
    cases::tables(&rt)?;
    cases::short_scripts(&rt)?;
    cases::misprints(&rt)?;
    cases::totals(&rt)?;
    cases::both_sections(&rt)?;
    cases::covered_load(&rt)?;
    cases::retired(&rt)?;
    sessions::load(&rt)?;
    sessions::ping(&rt)?;
    sessions::retired(&rt)?;
    sessions::table(&rt)?;
    sessions::closing_totals(&rt)?;
    texts::figures(&rt)?;
    texts::magic_word(&rt)
}
