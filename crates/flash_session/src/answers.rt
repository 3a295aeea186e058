// The answers to a call, and what they change in a session.
ghost use Rattle.std.specs.Prelude.{◌≡◌, Some};
ghost use Rattle.flash_session.specs.rules.Sessions.{go_to, counted_on, fetching, unchanged, stopped, accepted_as, after};

use crate::{Called, Session};
use commands::{Done, Wrote};
use ledger::Happening;
use opcodes::{Event, Refusal};

// The same session, put together field by field: every answer's session is, so that the next call does not wait for the bytes between the fields.
fn anew(session: Session) -> Session
    ensures { result ≡ session }
{
    let windows = session.windows;
    let totals = session.totals;
    let dialect = session.dialect;
    Session {
        windows,
        checksum: session.checksum,
        offset: session.offset,
        length: session.length,
        fetched: session.fetched,
        totals: totals.anew(),
        ended: session.ended,
        on: session.on,
        limit: session.limit,
        retries: session.retries,
        dialect,
    }
}

// Refused, the session unchanged.
pub fn keep(refusal: Refusal, session: Session) -> Called
    ensures { result ≡ unchanged (Some refusal) session }
{
    Called {
        refusal: Some(refusal),
        event: Event::Nothing,
        at: 0,
        session: anew(session),
        wrote: commands::wrote_none(),
    }
}

// Refused at the opcode, the session ended.
pub fn halt(refusal: Refusal, session: Session) -> Called
    ensures { result ≡ stopped (Some refusal) session }
{
    let at = session.offset;
    let mut over = anew(session);
    over.ended = true;
    Called {
        refusal: Some(refusal),
        event: Event::Nothing,
        at,
        session: over,
        wrote: commands::wrote_none(),
    }
}

// Accepted, the session going on as `next`: what happened turns the totals, here and nowhere else.
pub fn proceed(
    session: Session,
    happening: Happening,
    wrote: Wrote,
    event: Event,
    next: Session,
) -> Called
    ensures { result ≡ accepted_as session happening wrote event next }
{
    let refusal = None;
    let dialect = session.dialect;
    let totals = session.totals;
    let turned = totals.happen(dialect, happening);
    let mut gone = anew(next);
    gone.totals = turned.anew();
    Called {
        refusal,
        event,
        at: session.offset,
        session: gone,
        wrote,
    }
}

// The session with another checksum, going on at another offset.
pub fn moved(session: Session, checksum: u32, offset: u32) -> Session
    ensures { result ≡ go_to session checksum offset }
{
    let mut next = session;
    next.checksum = checksum;
    next.offset = offset;
    next
}

// A count with so many words more; it stays at the largest number.
fn count_on(fetched: u32, words: u32) -> u32
    ensures { result ≡ counted_on fetched words }
{
    if words <= u32::MAX - fetched {
        return fetched + words;
    }
    u32::MAX
}

// The session with so many words more fetched.
pub fn fetch(session: Session, words: u32) -> Session
    ensures { result ≡ fetching words session }
{
    let mut next = session;
    next.fetched = count_on(session.fetched, words);
    next
}

// The same event, not copied whole: a number that was just written by itself would be waited for.
fn event_anew(event: Event) -> Event
    ensures { result ≡ event }
{
    match event {
        Event::Nothing => Event::Nothing,
        Event::Wait(delay) => Event::Wait(delay),
        Event::Enter(address) => Event::Enter(address),
    }
}

// The answer to a command that was judged and done, with the offset past its words; accepted, this has happened and was written.
pub fn finish(session: Session, happening: Happening, wrote: Wrote, done: Done, next: u32) -> Called
    ensures { result ≡ after session happening wrote done next }
{
    let event = event_anew(done.event);
    match done.refusal {
        None => {
            let past = moved(session, done.checksum, next);
            proceed(session, happening, wrote, event, past)
        }
        Some(refusal) => halt(refusal, session),
    }
}
