// An opcode: the session has begun, the totals turn, and the acknowledgement comes before all else that is said.
ghost use Rattle.std.specs.Prelude.{◌≡◌};
ghost use Rattle.words.specs.rules.Choice.{pick};
ghost use Rattle.machine.specs.rules.Machine.{begun, acknowledging};
ghost use Rattle.machine_answers.specs.rules.Replies.{word_then};

use machine_answers::{Core, Reply, Taken, Tally};
use opcodes::Command;

// The core, begun where the word is an opcode, its totals turned as the command says.
pub fn begun_by(core: Core, opens: bool, command: Command) -> Core
    ensures { result ≡ pick opens (begun command core) core }
{
    if opens {
        let tally = core.tally;
        let totals = tally.totals;
        let turned = Tally {
            checksum: tally.checksum,
            totals: totals.turn(command),
        };
        let mut next = core;
        next.begun = true;
        next.tally = turned;
        return next;
    }
    core
}

// A word for the host, and after it the first word of another reply.
fn reply_before(word: u32, reply: Reply) -> Reply
    ensures { result ≡ word_then word reply }
{
    let after = reply.bytes;
    Reply {
        bytes: [
            words::byte_of(word, 0),
            words::byte_of(word, 1),
            words::byte_of(word, 2),
            words::byte_of(word, 3),
            after[0],
            after[1],
            after[2],
            after[3],
        ],
        count: 4 + machine_answers::counts::four_at_most(reply.count),
    }
}

// The answer to an opcode: where it is accepted the acknowledgement comes first.
pub fn acknowledge(taken: Taken, opcode: u32) -> Taken
    ensures { result ≡ acknowledging opcode taken }
{
    if taken.refusal.is_none() {
        let reply = reply_before(machine_answers::acknowledgement(opcode), taken.reply);
        let mut next = taken;
        next.reply = reply;
        return next;
    }
    taken
}
