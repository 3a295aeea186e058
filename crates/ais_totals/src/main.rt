// The images of source 000 from flash as a DM648's, with their totals and with others, and a run whose totals would pass the largest. The stored output is
// what 000 and 02 say.
#![tactic(auto)]

use ais_transcripts::images;
use ais_transcripts::runs::{Flip, Setting};
use checking::Report;
use flash_session::Session;
use opcodes::Dialect;
use std::io;

// As 000's images are run.
fn at_table<'a>(case: &'a str, limit: u8, flips: &'a [Flip]) -> Setting<'a> {
    Setting {
        image: "table-19",
        case,
        dialect: Dialect::Dm648,
        first: 0x1080_0000,
        background: 0xEE,
        shown: 80,
        limit,
        flips,
    }
}

// Source 000's image with these totals at its close.
fn table(rt: &impl Print, setting: Setting<'_>, sections: u32, bytes: u32) -> io::Result<()> {
    let mut image: [u8; 148] = images::of_words(&images::TABLE);
    images::put_words_at(&mut image, 140, &[sections, bytes]);
    ais_transcripts::runs::run(rt, setting, &mut image)
}

// A bit that the first retry heals.
fn healed(at: usize, bit: u32) -> Flip {
    Flip {
        at,
        bit,
        heal: Some(1),
    }
}

// Its own totals, also where a section is read again; then others, and none.
fn tables(rt: &impl Print) -> io::Result<()> {
    table(rt, at_table("clean", 0, &[]), 2, 0x4C)?;
    table(rt, at_table("flip-s1-healed", 2, &[healed(80, 0)]), 2, 0x4C)?;
    table(
        rt,
        at_table("flip-s2-healed", 2, &[healed(116, 31)]),
        2,
        0x4C,
    )?;
    table(rt, at_table("section-more", 0, &[]), 3, 0x4C)?;
    table(rt, at_table("section-less", 0, &[]), 1, 0x4C)?;
    table(rt, at_table("byte-more", 0, &[]), 2, 0x4D)?;
    table(rt, at_table("byte-less", 0, &[]), 2, 0x4B)?;
    table(rt, at_table("exchanged", 0, &[]), 0x4C, 2)?;
    let mut image: [u8; 140] = images::of_words(&images::TABLE);
    ais_transcripts::runs::run(rt, at_table("no-totals", 0, &[]), &mut image)
}

// A fill of all of a window of 64 KiB.
const FILL: [u32; 5] = [0x5853_590A, 0x8000_0000, 0x0001_0000, 2, 0];

// A Request that matches the checksum 0, and one that never does and seeks to the first command.
const MATCHING: [u32; 3] = [0x5853_5902, 0, 0];

const SEEKING: [u32; 3] = [0x5853_5902, 1, 0xFFFF_EBE8];

// 256 fills, from the first command on.
fn put_fills(image: &mut [u8]) {
    for number in 0..256 {
        images::put_words_at(image, 4 + 20 * number, &FILL);
    }
}

// Each of 256 passes counts 2^24 bytes and marks them, so that the last fill of the last pass would take the bytes to 2^32.
fn overflow(rt: &impl Print) -> io::Result<()> {
    let mut image: [u8; 5148] = images::of_words(&[Session::MAGIC]);
    put_fills(&mut image);
    images::put_words_at(&mut image, 5124, &MATCHING);
    images::put_words_at(&mut image, 5136, &SEEKING);
    let windows = checking::one_window(0x8000_0000, 65536);
    let opened = Session::open(Dialect::Dm648, 1, windows, &image, 255);
    let mut memory = [0u8; 65536];
    println!(rt; "image=256-fills-of-64-KiB")?;
    let last = flash_runs::run_plain(opened, &mut memory, &image);
    let counted = last.session.totals.now;
    print!(rt; "{}", Report::from(last))?;
    println!(rt;
        "sections={}\nbytes={:#010X}",
        counted.sections.0, counted.bytes.0
    )
}

fn main(rt: HostRuntime) -> io::Result<()> {
    tables(&rt)?;
    overflow(&rt)
}
