// The port: a standing session, lent with the memory, takes one byte a call.
#![tactic(auto)]

ghost use Rattle.sent.specs.rules.Line.{unit_step};
ghost use Rattle.sent.specs.declared.Bus.TheVariants.{Bytes};
ghost use Rattle.port.specs.rules.Port.{is_given};

use machine_answers::Reply;
use opcodes::{Event, Refusal};
use sent::Session;

// The answer to a byte, without the session.
#[derive(Clone, Copy)]
pub struct Told {
    pub refusal: Option<Refusal>,
    pub reply: Reply,
    pub event: Event,
}

// The session after a byte, and what is told.
#[derive(Clone, Copy)]
pub struct Fed {
    pub session: Session,
    pub told: Told,
}

// The step by value, its session apart.
fn advance(session: Session, memory: &mut [u8], byte: u8) -> Fed
    ensures { is_given (unit_step Bytes session memory.old byte) result.session result.told memory.new }
{
    let answer = session.step(memory, byte);
    let refusal = answer.refusal;
    let reply = answer.reply;
    let event = answer.event;
    let next = answer.session;
    let told = Told {
        refusal,
        reply,
        event,
    };
    Fed {
        session: next,
        told,
    }
}

// One byte from the host, to the session where it stands.
pub fn feed(session: &mut Session, memory: &mut [u8], byte: u8) -> Told
    ensures { is_given (unit_step Bytes session.old memory.old byte) session.new result memory.new }
{
    let fed = advance(*session, memory, byte);
    *session = fed.session;
    fed.told
}
