// The sessions that an opening gives.
ghost use Rattle.std.specs.Prelude.{◌≡◌, Some};
ghost use Rattle.flash_session.specs.rules.Opening.{begun, refused_by, numbering_from};

use crate::{Opened, Session};
use ledger::Totals;
use opcodes::{Dialect, Refusal};
use windows::Window;

// An opening that is not refused, its commands numbered from 1.
pub fn number_from(opened: Opened) -> Opened
    ensures { result ≡ numbering_from opened }
{
    let refusal = opened.refusal;
    if refusal.is_none() {
        let session = opened.session;
        let totals = session.totals;
        let first = totals.from_one();
        let mut numbering = session;
        numbering.totals = first;
        return Opened {
            refusal,
            session: numbering,
        };
    }
    opened
}

// A session at its first command.
pub fn begin(dialect: Dialect, windows: [Window; 8], length: u32, limit: u8) -> Opened
    ensures { result ≡ begun dialect windows length limit }
{
    Opened {
        refusal: None,
        session: Session {
            windows,
            ended: false,
            on: false,
            checksum: 0,
            offset: Session::FIRST,
            length,
            limit,
            retries: 0,
            fetched: 1,
            dialect,
            totals: Totals::zero(),
        },
    }
}

// A refused opening.
pub fn shut(refusal: Refusal, fetched: u32) -> Opened
    ensures { result ≡ refused_by (Some refusal) fetched }
{
    let none = Window {
        first: 0,
        length: 0,
        rights: 0,
    };
    Opened {
        refusal: Some(refusal),
        session: Session {
            windows: [none; 8],
            ended: true,
            on: false,
            checksum: 0,
            offset: 0,
            length: 0,
            limit: 0,
            retries: 0,
            fetched,
            dialect: Dialect::Am17xx,
            totals: Totals::zero(),
        },
    }
}
