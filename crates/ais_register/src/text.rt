// What the program writes beside its answers: why a question has none, and how the program is used.

use field_register::FieldRefusal;
use std::io;

// A refusal's code, and its meaning: the value is too wide, else there is no such field.
pub fn put_refusal(rt: &impl Print, refusal: FieldRefusal) -> io::Result<()> {
    let meaning = match refusal {
        FieldRefusal::TooWide => "the value is too wide for the field",
        _ => "no such field in that release",
    };
    println!(rt; "refusal={} {meaning}", refusal.code())
}

pub fn usage(rt: &impl Print) -> io::Result<()> {
    println!(rt;
        "usage: ais-register FILE [bit WORD BIT [RELEASE] | field NAME | set NAME RELEASE VALUE]"
    )
}
