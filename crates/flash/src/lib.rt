// Flash mode: the script is a lent image, one command a call.
#![tactic(auto)]

ghost use Rattle.std.specs.Prelude.{◌≡◌, ◌+◌, ◌*◌, ◌^◌, ◌≤◌, ◌<◌, length};
ghost use Rattle.reading.specs.rules.Reading.{data_words};
ghost use Rattle.flash.specs.rules.Step.{load_answer, load_at, load_of, performed, step_of};

use flash_session::{Called, Session, answers};
use ledger::Happening;
use opcodes::{Command, Event, Refusal};

// One command.
pub fn step(session: Session, memory: &mut [u8], image: &[u8]) -> Called
    ensures value { result ≡ (step_of session memory.old image.now).answer }
    ensures memory_after { memory.new ≡ (step_of session memory.old image.now).memory }
{
    if session.ended {
        return answers::keep(Refusal::Ended, session);
    }
    let windows = session.windows;
    if memory.len() != windows::sum(windows) {
        return answers::keep(Refusal::Memory, session);
    }
    if !flash_session::is_image(image.len(), session.length as usize) {
        return answers::keep(Refusal::Image, session);
    }
    match reading::read_at(image, session.offset, session.dialect) {
        Err(why) => answers::halt(why.refusal, answers::fetch(session, why.fetched)),
        Ok(known) => {
            let next = session.offset + 4 * (1 + known.words);
            let fetched = answers::fetch(session, 1 + known.words);
            perform(known.command, next, fetched, memory, image)
        }
    }
}

// The answer to a load that is accepted at a place, with the checksum that its data leave.
fn load_answer(session: Session, next: u32, checksum: u32, size: u32, place: usize) -> Called
    requires { next + 4 * data_words size < 2 ^ 32 }
    ensures { result ≡ load_answer session next checksum size place }
{
    let words = reading::data_words(size);
    let offset = next + 4 * words;
    let totals = session.totals;
    let wrote = commands::wrote_bytes(Ok(place), size, totals.next);
    let past = answers::moved(answers::fetch(session, words), checksum, offset);
    answers::proceed(
        session,
        Happening::Section(size),
        wrote,
        Event::Nothing,
        past,
    )
}

// A load granted at a place; its data begin at `next`.
fn load_at(
    session: Session,
    memory: &mut [u8],
    image: &[u8],
    next: u32,
    address: u32,
    size: u32,
    place: usize,
) -> Called
    requires { length image.now ≤ 65536 }
    ensures value { result ≡ (load_at session memory.old image.now next address size place).answer }
    ensures memory_after { memory.new ≡ (load_at session memory.old image.now next address size place).memory }
{
    if !reading::has_data(image, next, size) {
        return answers::halt(Refusal::Missing, session);
    }
    let totals = session.totals;
    if totals.is_spent() {
        return answers::halt(Refusal::Number, session);
    }
    let from = next as usize;
    let to = from + (size as usize);
    let checksum = stores::load(
        memory,
        place,
        session.on,
        session.checksum,
        address,
        &image[from..to],
    );
    load_answer(session, next, checksum, size, place)
}

// Load.
fn load(
    session: Session,
    memory: &mut [u8],
    image: &[u8],
    next: u32,
    address: u32,
    size: u32,
) -> Called
    requires { length image.now ≤ 65536 }
    ensures value { result ≡ (load_of session memory.old image.now next address size).answer }
    ensures memory_after { memory.new ≡ (load_of session memory.old image.now next address size).memory }
{
    let windows = session.windows;
    let dialect = session.dialect;
    let totals = session.totals;
    let granted = commands::judge_load(windows, address, size);
    let judged = flash_commands::overflow(dialect, totals, size, granted);
    match judged {
        Ok(place) => load_at(session, memory, image, next, address, size, place),
        Err(refusal) => answers::halt(refusal, session),
    }
}

// A command whose words are there, with the offset past them.
fn perform(command: Command, next: u32, session: Session, memory: &mut [u8], image: &[u8]) -> Called
    requires { length image.now ≤ 65536 }
    ensures value { result ≡ (performed command next session memory.old image.now).answer }
    ensures memory_after { memory.new ≡ (performed command next session memory.old image.now).memory }
{
    let at = session.offset;
    match command {
        Command::Load => load(
            session,
            memory,
            image,
            next,
            reading::argument_at(image, at, 0),
            reading::argument_at(image, at, 1),
        ),
        Command::Fill => flash_commands::fill(
            session,
            memory,
            next,
            reading::argument_at(image, at, 0),
            reading::argument_at(image, at, 1),
            reading::argument_at(image, at, 2),
            reading::argument_at(image, at, 3),
        ),
        Command::BootTable => flash_commands::boot_table(
            session,
            memory,
            next,
            reading::argument_at(image, at, 0),
            reading::argument_at(image, at, 1),
            reading::argument_at(image, at, 2),
            reading::argument_at(image, at, 3),
        ),
        Command::Enable => flash_commands::enable(session, next),
        Command::Disable => flash_commands::disable(session, next),
        Command::Request => flash_commands::request(
            session,
            next,
            reading::argument_at(image, at, 0),
            reading::argument_at(image, at, 1),
        ),
        Command::StartOver => answers::halt(Refusal::Opcode, session),
        Command::JumpAndClose => flash_commands::jump_and_close(
            session,
            next,
            reading::argument_at(image, at, 0),
            reading::argument_at(image, at, 1),
            reading::argument_at(image, at, 2),
        ),
        Command::Ping => answers::halt(Refusal::Opcode, session),
        Command::SequentialRead => flash_commands::pass_over(session, next),
    }
}
