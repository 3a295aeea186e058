// What each command but Load does in a flash session, its words given.
#![tactic(auto)]

ghost use Rattle.std.specs.Prelude.{◌≡◌, ◌<◌};
ghost use Rattle.ledger.specs.rules.Totals.{would_pass, is_spent};
ghost use Rattle.commands.specs.rules.Commands.{barred, sought_from};
ghost use Rattle.commands.specs.rules.Wrote.{none_wrote};
ghost use Rattle.flash_session.specs.rules.Sessions.{go_to, switch_on, switch_off, accepted_as};
ghost use Rattle.flash_commands.specs.rules.Commands.{fill_of, setting_of, sought_as, requested, closed};

use commands::Judged;
use flash_session::{Called, Session, answers};
use ledger::{Bytes, Happening, Sections, Standing, Totals};
use opcodes::{Dialect, Event, Refusal};

// 18, of a load or a fill that was judged.
pub fn overflow(dialect: Dialect, totals: Totals, size: u32, judged: Judged) -> Judged
    ensures { result ≡ barred (would_pass dialect totals size) Refusal.Overflow judged }
{
    commands::bar(judged, totals.would_pass(dialect, size), Refusal::Overflow)
}

// 25, of a command that was judged.
fn out_of_numbers(totals: Totals, judged: Judged) -> Judged
    ensures { result ≡ barred (is_spent totals) Refusal.Number judged }
{
    commands::bar(judged, totals.is_spent(), Refusal::Number)
}

// Fill.
pub fn fill(
    session: Session,
    memory: &mut [u8],
    next: u32,
    address: u32,
    size: u32,
    kind: u32,
    pattern: u32,
) -> Called
    ensures value { result ≡ (fill_of session memory.old next address size kind pattern).answer }
    ensures memory_after { memory.new ≡ (fill_of session memory.old next address size kind pattern).memory }
{
    let windows = session.windows;
    let dialect = session.dialect;
    let totals = session.totals;
    let granted = commands::judge_fill(windows, address, size, kind);
    let judged = out_of_numbers(totals, overflow(dialect, totals, size, granted));
    let done = commands::fill(
        memory,
        judged,
        session.on,
        session.checksum,
        address,
        size,
        kind,
        pattern,
    );
    let wrote = commands::wrote_bytes(judged, size, totals.next);
    answers::finish(session, Happening::Section(size), wrote, done, next)
}

// Boot Table.
pub fn boot_table(
    session: Session,
    memory: &mut [u8],
    next: u32,
    word: u32,
    address: u32,
    value: u32,
    delay: u32,
) -> Called
    ensures value { result ≡ (setting_of session memory.old next word address value delay).answer }
    ensures memory_after { memory.new ≡ (setting_of session memory.old next word address value delay).memory }
{
    let windows = session.windows;
    let totals = session.totals;
    let granted = commands::judge_setting(windows, word, address, value);
    let judged = out_of_numbers(totals, granted);
    let done = commands::boot_table(memory, judged, session.checksum, word, value, delay);
    let wrote = commands::wrote_setting(judged, word, totals.next);
    answers::finish(session, Happening::Setting, wrote, done, next)
}

// Enable: the checksum on, its checksum 0.
pub fn enable(session: Session, next: u32) -> Called
    ensures { result ≡ accepted_as session Happening.Enable none_wrote Event.Nothing (switch_on session next) }
{
    let mut past = answers::moved(session, 0, next);
    past.on = true;
    let wrote = commands::wrote_none();
    answers::proceed(session, Happening::Enable, wrote, Event::Nothing, past)
}

// Disable: the checksum off, its checksum kept.
pub fn disable(session: Session, next: u32) -> Called
    ensures { result ≡ accepted_as session Happening.Other none_wrote Event.Nothing (switch_off session next) }
{
    let mut past = answers::moved(session, session.checksum, next);
    past.on = false;
    let wrote = commands::wrote_none();
    answers::proceed(session, Happening::Other, wrote, Event::Nothing, past)
}

// Sequential Read Enable: no effect.
pub fn pass_over(session: Session, next: u32) -> Called
    ensures { result ≡ accepted_as session Happening.Other none_wrote Event.Nothing (go_to session session.checksum next) }
{
    let past = answers::moved(session, session.checksum, next);
    let wrote = commands::wrote_none();
    answers::proceed(session, Happening::Other, wrote, Event::Nothing, past)
}

// A mismatch: the seek, and a retry.
fn retry(session: Session, seek: u32) -> Called
    requires { session.retries < 255 }
    ensures { result ≡ sought_as session (sought_from session.offset seek) }
{
    let led = commands::seek(session.offset, seek);
    match led {
        Ok(offset) => {
            let mut back = answers::moved(session, 0, offset);
            back.retries = session.retries + 1;
            let wrote = commands::wrote_none();
            answers::proceed(session, Happening::Retried, wrote, Event::Nothing, back)
        }
        Err(refusal) => { answers::halt(refusal, answers::moved(session, 0, session.offset)) }
    }
}

// Request: compares the checksum, which becomes 0 either way.
#[tactic(auto, unfolding(crate::specs::rules::Commands::requested, words::specs::rules::Choice::pick))]
pub fn request(session: Session, next: u32, expected: u32, seek: u32) -> Called
    ensures { result ≡ requested session next expected seek }
{
    if expected == session.checksum {
        let past = answers::moved(session, 0, next);
        let wrote = commands::wrote_none();
        return answers::proceed(session, Happening::Passed, wrote, Event::Nothing, past);
    }
    if session.limit <= session.retries {
        return answers::halt(
            Refusal::Checksum,
            answers::moved(session, 0, session.offset),
        );
    }
    retry(session, seek)
}

// Jump & Close: entered, the session is ended.
pub fn jump_and_close(
    session: Session,
    next: u32,
    address: u32,
    sections: u32,
    bytes: u32,
) -> Called
    ensures { result ≡ closed session next address sections bytes }
{
    let windows = session.windows;
    let dialect = session.dialect;
    let totals = session.totals;
    let named = Standing {
        sections: Sections(sections),
        bytes: Bytes(bytes),
    };
    let judged = commands::bar(
        commands::judge_entry(windows, address),
        totals.differ(dialect, named),
        Refusal::Totals,
    );
    let last = answers::finish(
        session,
        Happening::Other,
        commands::wrote_none(),
        commands::jump_and_close(judged, session.checksum, address),
        next,
    );
    let mut over = last.session;
    over.ended = true;
    let refusal = last.refusal;
    let event = last.event;
    let wrote = last.wrote;
    Called {
        refusal,
        event,
        at: last.at,
        session: over,
        wrote,
    }
}
