// A register that is refused, in plain words: the line, the reason, and how the line begins.
use field_register::{FieldRefusal, RefusedText};
use std::{fmt, io};

// Why a line of a register is refused: it is malformed, else it clashes.
fn reason(refusal: FieldRefusal) -> &'static str {
    match refusal {
        FieldRefusal::Malformed => "the line is malformed, or beyond the 200th",
        _ => {
            "the line clashes with an earlier one: a release has both, and they share a name or a bit of one word"
        }
    }
}

// As much of a line as is shown.
const SHOWN: usize = 120;

// A byte that may be shown as it is, or a question mark.
fn shown(byte: u8) -> char {
    if matches!(byte, b' '..=b'~') {
        char::from(byte)
    } else {
        '?'
    }
}

// The front of a line, as it is shown.
#[derive(Drop)]
struct Front<'a>(&'a [u8]);

impl fmt::Display for Front<'_> {
    fn fmt<W: fmt::Write>(&self, f: &mut fmt::Formatter<W>) -> fmt::Result {
        for byte in self.0.iter().take(SHOWN) {
            f.write_char(shown(*byte))?;
        }
        Ok(())
    }
}

// A line of a text, counted from 1; the last where there are fewer.
fn line_of(text: &[u8], number: usize) -> &[u8] {
    text.split(|byte| *byte == b'\n')
        .take(number.max(1))
        .last()
        .unwrap_or(text)
}

// Tells that the register of a text is refused: its line, the reason, and how the line begins.
pub fn put_refused(rt: &impl Print, text: &[u8], refused: RefusedText) -> io::Result<()> {
    println!(rt;
        "register=refused line={} refusal={} {}",
        refused.line,
        refused.refusal.code(),
        reason(refused.refusal)
    )?;
    println!(rt; "{}", Front(line_of(text, refused.line)))
}
