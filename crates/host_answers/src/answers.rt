// The answers to a turn, one function for each kind, and what they change in a host.
ghost use Rattle.std.specs.Prelude.{◌≡◌, ◌+◌, ◌^◌, ◌<◌};
ghost use Rattle.words.specs.rules.Choice.{pick};
ghost use Rattle.host_answers.specs.rules.Answers as rules;
ghost use Rattle.host_answers.specs.rules.Hosts as hosts;
ghost use Rattle.host_answers.specs.rules.Sendings.{repeats};

use crate::{Host, Sending, Stage, Turned, Wait, sendings};
use opcodes::Refusal;

// Refused, the host as it was.
pub fn keep(refusal: Refusal, host: Host) -> Turned
    ensures { result ≡ rules.unchanged (Some refusal) host }
{
    Turned {
        refusal: Some(refusal),
        sending: Sending::Nothing,
        host,
    }
}

// The host, ended.
pub fn stop(host: Host) -> Host
    ensures { result ≡ hosts.stop host }
{
    Host {
        ended: true,
        ..host
    }
}

// Refused: nothing goes out, and the host has ended.
pub fn refuse(refusal: Refusal, host: Host) -> Turned
    ensures { result ≡ rules.refused (Some refusal) host }
{
    keep(refusal, stop(host))
}

// The host goes on, and this goes out.
pub fn send(sending: Sending, host: Host) -> Turned
    ensures { result ≡ rules.sending sending host }
{
    Turned {
        refusal: None,
        sending,
        host,
    }
}

// The host in a new wait: no try is spent, and nothing has been heard.
pub fn wait_for(host: Host, wait: Wait) -> Host
    ensures { result ≡ hosts.waiting host wait }
{
    Host {
        spent: 0,
        stage: Stage { wait },
        ear: host_ear::unheard(),
        ..host
    }
}

// A new wait begins, with what it sends.
pub fn enter(wait: Wait, host: Host, image: &[u8]) -> Turned
    ensures { result ≡ rules.enters wait host image.now }
{
    send(sendings::opening(wait, host, image), wait_for(host, wait))
}

// The host at another offset.
pub fn at(host: Host, offset: u32) -> Host
    ensures { result ≡ hosts.at host offset }
{
    Host { offset, ..host }
}

// On to an offset, where the next command is met.
pub fn go_to(host: Host, offset: u32) -> Host
    ensures { result ≡ rules.on_to host offset }
{
    wait_for(at(host, offset), Wait::Nothing)
}

// The host with one try more, what was heard looked at.
fn spend(host: Host) -> Host
    requires { host.spent + 1 < 2 ^ 32 }
    ensures { result ≡ hosts.trying host }
{
    Host {
        spent: host.spent + 1,
        ear: host_ear::look(host.ear),
        ..host
    }
}

// What goes out at a look that finds no right answer: nothing where something came, else what the wait sends.
fn repeat(host: Host, image: &[u8]) -> Sending
    ensures { result ≡ pick host.ear.fresh Sending.Nothing (repeats host.stage.wait host image.now) }
{
    if host.ear.fresh {
        return Sending::Nothing;
    }
    sendings::repetition(host.stage.wait, host, image)
}

// No right answer: 20 at the last try, else one try more.
pub fn again(host: Host, image: &[u8]) -> Turned
    ensures { result ≡ rules.again host image.now }
{
    if host.tries.saturating_sub(1) <= host.spent {
        return refuse(Refusal::Tries, host);
    }
    send(repeat(host, image), spend(host))
}

// What follows the right answer, where it was heard; else one try more.
pub fn answered_by(right: bool, host: Host, image: &[u8], then: Turned) -> Turned
    ensures { result ≡ rules.answered_by right host image.now then }
{
    if right {
        return then;
    }
    again(host, image)
}
