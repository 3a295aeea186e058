// The next command is met: 5, 6 or 15, 5 for its arguments, 5 for the data of a load, else its opcode goes out.
ghost use Rattle.std.specs.Prelude.{◌≡◌, ◌≤◌, length, Ok};
ghost use Rattle.host.specs.rules.Turn.{met_to, met, in_wait};

use host_answers::{Host, Sending, Turned, Wait, answers};
use host_commands::Role;
use opcodes::{Command, Known, Refusal};

// A command whose words are there, up to an end: a Sequential Read is passed over, of any other the opcode goes out.
fn meet_to(host: Host, image: &[u8], command: Command, end: u32) -> Turned
    ensures { result ≡ met_to host image.now command end }
{
    let role = host_commands::role_of(command);
    match role {
        Role::Passed => answers::send(Sending::Nothing, answers::go_to(host, end)),
        _ => answers::enter(Wait::Opcode(command, end), host, image),
    }
}

// A command whose argument words are there.
fn meet_whole(host: Host, image: &[u8], known: Known) -> Turned
    requires { length image.now ≤ 65536 }
    ensures { result ≡ met host image.now (Ok known) }
{
    let end = reading::end_of(known, image, host.offset);
    if image.len() < end {
        return answers::refuse(Refusal::Missing, host);
    }
    meet_to(host, image, known.command, end as u32)
}

// The command at the host's offset.
pub fn meet(host: Host, image: &[u8]) -> Turned
    requires { length image.now ≤ 65536 }
    ensures { result ≡ in_wait Wait.Nothing host image.now }
{
    match reading::read_at(image, host.offset, host.dialect) {
        Err(why) => answers::refuse(why.refusal, host),
        Ok(known) => meet_whole(host, image, known),
    }
}
