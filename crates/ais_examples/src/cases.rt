// The images and cases in the order of the stored output.
use ais_transcripts::runs::{Flip, Setting};
use ais_transcripts::{images, runs};
use opcodes::Dialect;
use std::io;

// As 000's images are run.
pub fn at_table<'a>(image: &'a str, case: &'a str, limit: u8, flips: &'a [Flip]) -> Setting<'a> {
    Setting {
        image,
        case,
        dialect: Dialect::Am17xx,
        first: 0x1080_0000,
        background: 0xEE,
        shown: 80,
        limit,
        flips,
    }
}

// As 01's own examples are run.
fn at_window<'a>(
    image: &'a str,
    case: &'a str,
    background: u8,
    limit: u8,
    flips: &'a [Flip],
) -> Setting<'a> {
    Setting {
        image,
        case,
        dialect: Dialect::Am17xx,
        first: 0x8000_0000,
        background,
        shown: 16,
        limit,
        flips,
    }
}

// A bit that reads wrongly however often it is read.
fn stuck(at: usize, bit: u32) -> Flip {
    Flip {
        at,
        bit,
        heal: None,
    }
}

// A bit that so many retries heal.
fn healed(at: usize, bit: u32, retries: u8) -> Flip {
    Flip {
        at,
        bit,
        heal: Some(retries),
    }
}

fn table_case(rt: &impl Print, setting: Setting<'_>) -> io::Result<()> {
    let mut image: [u8; 148] = images::of_words(&images::TABLE);
    runs::run(rt, setting, &mut image)
}

// A bit of a section flipped: never healed, and healed after the first retry.
fn flipped(
    rt: &impl Print,
    name: &str,
    case: &str,
    healed_case: &str,
    at: usize,
    bit: u32,
) -> io::Result<()> {
    table_case(rt, at_table(name, case, 0, &[stuck(at, bit)]))?;
    table_case(rt, at_table(name, case, 2, &[stuck(at, bit)]))?;
    table_case(rt, at_table(name, healed_case, 2, &[healed(at, bit, 1)]))
}

// An image of 000, clean and with a bit of each section flipped.
fn table(
    rt: &impl Print,
    name: &str,
    first_at: usize,
    first_bit: u32,
    second_at: usize,
    second_bit: u32,
) -> io::Result<()> {
    table_case(rt, at_table(name, "clean", 0, &[]))?;
    table_case(rt, at_table(name, "clean", 2, &[]))?;
    flipped(rt, name, "flip-s1", "flip-s1-healed", first_at, first_bit)?;
    flipped(rt, name, "flip-s2", "flip-s2-healed", second_at, second_bit)
}

pub fn tables(rt: &impl Print) -> io::Result<()> {
    table(rt, "table-19", 80, 0, 116, 31)?;
    table(rt, "table-20", 36, 0, 108, 3)?;
    table(rt, "table-22", 76, 5, 112, 0)?;
    table(rt, "figure-13", 20, 31, 116, 2)
}

fn load_case(rt: &impl Print, case: &str, limit: u8, flips: &[Flip]) -> io::Result<()> {
    let mut image: [u8; 32] = images::of_words(&images::LOAD);
    runs::run(
        rt,
        at_window("load-5", case, 0xEE, limit, flips),
        &mut image,
    )
}

// 01's flash examples.
pub fn short_scripts(rt: &impl Print) -> io::Result<()> {
    load_case(rt, "clean", 0, &[])?;
    load_case(rt, "flip", 0, &[stuck(16, 0)])?;
    load_case(rt, "flip", 2, &[stuck(16, 0)])?;
    let mut image: [u8; 12] = images::of_words(&images::CLOSE);
    runs::run(
        rt,
        at_window("check-program", "clean", 0, 0, &[]),
        &mut image,
    )
}

// A changed image, clean.
fn clean_case(rt: &impl Print, name: &str, image: &mut [u8]) -> io::Result<()> {
    runs::run(rt, at_table(name, "clean", 0, &[]), image)
}

// The word before the magic word left on.
fn first_word_kept(rt: &impl Print) -> io::Result<()> {
    let mut image: [u8; 152] = images::of_words(&[1]);
    images::put_words_at(&mut image, 4, &images::TABLE);
    clean_case(rt, "table-19-first-word-kept", &mut image)
}

// Table 20 as printed.
fn two_words_dropped(rt: &impl Print) -> io::Result<()> {
    let mut image: [u8; 140] = images::of_words(&images::TABLE[..9]);
    images::put_words_at(&mut image, 36, &images::TABLE[11..]);
    clean_case(rt, "table-20-two-words-dropped", &mut image)
}

// The seeks as printed, seven digits long.
fn seven_digits(rt: &impl Print, case: &str, limit: u8, flips: &[Flip]) -> io::Result<()> {
    let mut image: [u8; 148] = images::of_words(&images::TABLE);
    images::put_word(&mut image, 92, 0x0FFF_FFA8);
    images::put_word(&mut image, 128, 0x0FFF_FFDC);
    runs::run(
        rt,
        at_table("table-19-seven-digit-seeks", case, limit, flips),
        &mut image,
    )
}

// Figure 13 as printed.
fn by_eights(rt: &impl Print) -> io::Result<()> {
    let mut image: [u8; 148] = images::of_words(&images::TABLE);
    images::put_words_at(&mut image, 92, &images::EIGHTS);
    clean_case(rt, "figure-13-by-eights", &mut image)
}

// 000's images without 01's corrections.
pub fn misprints(rt: &impl Print) -> io::Result<()> {
    first_word_kept(rt)?;
    two_words_dropped(rt)?;
    seven_digits(rt, "clean", 2, &[])?;
    seven_digits(rt, "flip-s1", 0, &[stuck(80, 0)])?;
    seven_digits(rt, "flip-s1", 2, &[stuck(80, 0)])?;
    seven_digits(rt, "flip-s2", 2, &[stuck(116, 31)])?;
    by_eights(rt)
}

fn no_totals(rt: &impl Print) -> io::Result<()> {
    let mut image: [u8; 140] = images::of_words(&images::TABLE);
    clean_case(rt, "table-19-no-totals", &mut image)
}

fn wrong_totals(rt: &impl Print) -> io::Result<()> {
    let mut image: [u8; 148] = images::of_words(&images::TABLE);
    images::put_words_at(&mut image, 140, &[3, 0x4D]);
    clean_case(rt, "table-19-wrong-totals", &mut image)
}

// The two words after the entry address, which are never read.
pub fn totals(rt: &impl Print) -> io::Result<()> {
    no_totals(rt)?;
    wrong_totals(rt)
}

// A bit of both sections flipped, healed one after the other.
pub fn both_sections(rt: &impl Print) -> io::Result<()> {
    let name = "table-19-both-flipped";
    let flips = [healed(80, 0, 1), healed(116, 31, 2)];
    table_case(rt, at_table(name, "flip-both", 2, &flips))?;
    table_case(rt, at_table(name, "flip-both", 1, &flips))
}

fn covered_case(rt: &impl Print, case: &str, limit: u8, flips: &[Flip]) -> io::Result<()> {
    let mut image: [u8; 48] = images::of_words(&images::COVERED);
    runs::run(
        rt,
        at_window("load-5-covered", case, 0xEE, limit, flips),
        &mut image,
    )
}

// Left-over bytes under the checksum: the pad is not fed.
pub fn covered_load(rt: &impl Print) -> io::Result<()> {
    covered_case(rt, "clean", 0, &[])?;
    covered_case(rt, "flip-pad", 0, &[stuck(24, 31)])?;
    covered_case(rt, "flip", 0, &[stuck(24, 2)])?;
    covered_case(rt, "flip", 2, &[stuck(24, 2)])?;
    covered_case(rt, "flip-healed", 2, &[healed(24, 2, 1)])
}

fn old_case(rt: &impl Print, name: &str, image: &mut [u8]) -> io::Result<()> {
    runs::run(rt, at_window(name, "clean", 0xEE, 0, &[]), image)
}

// An old script, with a load and then the retired Jump; and the same with nothing after Jump's opcode.
pub fn retired(rt: &impl Print) -> io::Result<()> {
    let mut whole: [u8; 40] = images::of_words(&images::OLD);
    old_case(rt, "load-then-jump", &mut whole)?;
    let mut cut: [u8; 28] = images::of_words(&images::OLD);
    old_case(rt, "load-then-jump-cut", &mut cut)
}
