// The waits before the first command: BOOTME, the answer to the start unit, Ping and its echoes.
ghost use Rattle.std.specs.Prelude.{◌≡◌};
ghost use Rattle.host.specs.rules.Turn.{in_wait};

use host_answers::{Host, Turned, Wait, answers, sendings};
use opcodes::Refusal;

// BOOTME is waited for.
pub fn greeting(host: Host, image: &[u8]) -> Turned
    ensures { result ≡ in_wait Wait.Greeting host image.now }
{
    let right = host_ear::ends_with_greeting(host.ear, host.bus);
    answers::answered_by(right, host, image, answers::enter(Wait::Start, host, image))
}

// The answer to the start unit is.
pub fn start(host: Host, image: &[u8]) -> Turned
    ensures { result ≡ in_wait Wait.Start host image.now }
{
    let right = host_ear::ends_with_start(host.ear, host.bus);
    answers::answered_by(right, host, image, answers::enter(Wait::Ping, host, image))
}

// Ping's acknowledgement is.
pub fn ping(host: Host, image: &[u8]) -> Turned
    ensures { result ≡ in_wait Wait.Ping host image.now }
{
    let right = host_ear::acknowledges(host.ear, sendings::PING);
    answers::answered_by(
        right,
        host,
        image,
        answers::enter(Wait::Echo(0), host, image),
    )
}

// The echo of Ping's count or of its word is; 20 for another word.
pub fn echo(host: Host, image: &[u8], k: u32) -> Turned
    ensures { result ≡ in_wait (Wait.Echo k) host image.now }
{
    if host.ear.count < 4 {
        return answers::again(host, image);
    }
    if host_ear::newest_word(host.ear) != sendings::echo_of(host, k) {
        return answers::refuse(Refusal::Tries, host);
    }
    if k < host.pings {
        return answers::enter(Wait::Echo(k + 1), host, image);
    }
    answers::enter(Wait::Nothing, host, image)
}
