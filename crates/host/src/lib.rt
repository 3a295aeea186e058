// The group controller's half of the line: a host that is told what it hears, byte by byte, and says turn by turn what goes out. The caller owns the line, the
// clock and the script.
#![tactic(auto)]

mod greetings;
mod meeting;
mod replies;

ghost use Rattle.std.specs.Prelude.{◌≡◌, ◌≤◌, length};
ghost use Rattle.host.specs.rules.Turn.{in_wait, turned};

use host_answers::{Host, Turned, Wait, answers};
use opcodes::Refusal;

// One look at what was heard, and at most one sending.
pub fn turn(host: Host, image: &[u8]) -> Turned
    ensures { result ≡ turned host image.now }
{
    if host.ended {
        return answers::keep(Refusal::Ended, host);
    }
    if !flash_session::is_image(image.len(), host.length as usize) {
        return answers::keep(Refusal::Image, host);
    }
    take_turn(host, image)
}

// A turn, by what the host waits for.
fn take_turn(host: Host, image: &[u8]) -> Turned
    requires { length image.now ≤ 65536 }
    ensures { result ≡ in_wait host.stage.wait host image.now }
{
    match host.stage.wait {
        Wait::Greeting => greetings::greeting(host, image),
        Wait::Start => greetings::start(host, image),
        Wait::Ping => greetings::ping(host, image),
        Wait::Echo(k) => greetings::echo(host, image, k),
        Wait::Nothing => meeting::meet(host, image),
        Wait::Opcode(command, end) => host_commands::await_acknowledgement(
            host, image, command, end,
        ),
        Wait::Over(offset) => replies::over(host, image, offset),
        Wait::Closing => replies::done(host, image),
    }
}
