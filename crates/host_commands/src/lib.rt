// What the host does with a command whose opcode is out: at the acknowledgement its words go out, a Request's checksum is compared, a close ends the script.
#![tactic(auto)]

ghost use Rattle.std.specs.Prelude.{◌≡◌, ◌<◌};
ghost use Rattle.commands.specs.rules.Commands.{sought_from};
ghost use Rattle.host_answers.specs.rules.Hosts.{retrying};
ghost use Rattle.host_commands.specs.rules.Commands.{by_role, words_to, closing, sought_as, compared, acknowledged_as};

use host_answers::{Host, Sending, Turned, Wait, answers, sendings};
use opcodes::{Command, Dialect, Refusal};

// What the host does with a command: it is passed over, it asks for the checksum, it closes, or its words go out.
#[derive(Clone, Copy)]
pub enum Role {
    Passed,
    Asks,
    Closes,
    Goes,
}

// What the host does with a command.
pub fn role_of(command: Command) -> Role
    ensures { result ≡ by_role command Role.Passed Role.Asks Role.Closes Role.Goes }
{
    match command {
        Command::Load => Role::Goes,
        Command::Fill => Role::Goes,
        Command::BootTable => Role::Goes,
        Command::Enable => Role::Goes,
        Command::Disable => Role::Goes,
        Command::Request => Role::Asks,
        Command::StartOver => Role::Goes,
        Command::JumpAndClose => Role::Closes,
        Command::Ping => Role::Goes,
        Command::SequentialRead => Role::Passed,
    }
}

// The words after an opcode go out, up to an end; 5 where the image has no such part.
fn send_words(host: Host, image: &[u8], end: u32, next: Host) -> Turned
    ensures { result ≡ words_to host image.now end next }
{
    let from = (host.offset as usize) + 4;
    if sendings::is_part(image, from, end as usize) {
        let start = from as u32;
        return answers::send(Sending::Stretch(start, end), next);
    }
    answers::refuse(Refusal::Missing, host)
}

// Once the words of a close are out: an AM17xx says nothing to it, a DM648 says DONE.
fn close(dialect: Dialect, host: Host) -> Host
    ensures { result ≡ closing dialect host }
{
    match dialect {
        Dialect::Am17xx => answers::stop(answers::wait_for(host, Wait::Nothing)),
        Dialect::Dm648 => answers::wait_for(host, Wait::Closing),
    }
}

// A command's opcode is acknowledged: its words go out.
fn take_words(host: Host, image: &[u8], end: u32) -> Turned
    ensures { result ≡ acknowledged_as host image.now Command.Load end }
{
    let right = host_ear::acknowledges(host.ear, sendings::opcode_at(host, image));
    let words = send_words(host, image, end, answers::go_to(host, end));
    answers::answered_by(right, host, image, words)
}

// A close's is: its words go out, and they are the last.
fn take_close(host: Host, image: &[u8], end: u32) -> Turned
    ensures { result ≡ acknowledged_as host image.now Command.JumpAndClose end }
{
    let right = host_ear::acknowledges(host.ear, sendings::opcode_at(host, image));
    let words = send_words(
        host,
        image,
        end,
        close(host.dialect, answers::at(host, end)),
    );
    answers::answered_by(right, host, image, words)
}

// The host with one retry more.
fn count_retry(host: Host) -> Host
    requires { host.retries < 255 }
    ensures { result ≡ retrying host }
{
    Host {
        retries: host.retries + 1,
        ..host
    }
}

// A mismatch, by where its seek leads: one retry, and Start-Over before it; or 12.
fn retry(host: Host, image: &[u8], seek: u32) -> Turned
    requires { host.retries < 255 }
    ensures { result ≡ sought_as host image.now (sought_from host.offset seek) }
{
    let led = commands::seek(host.offset, seek);
    match led {
        Ok(offset) => answers::enter(Wait::Over(offset), count_retry(host), image),
        Err(refusal) => answers::refuse(refusal, host),
    }
}

// The checksum that a Request was answered with: a match goes on past its words; 11 where the retries are spent; else the seek.
fn compare(host: Host, image: &[u8], end: u32, checksum: u32) -> Turned
    ensures { result ≡ compared host image.now end checksum }
{
    if reading::argument_at(image, host.offset, 0) == checksum {
        return answers::send(Sending::Nothing, answers::go_to(host, end));
    }
    if host.limit <= host.retries {
        return answers::refuse(Refusal::Checksum, host);
    }
    retry(host, image, reading::argument_at(image, host.offset, 1))
}

// A Request's is, with the checksum.
fn take_checksum(host: Host, image: &[u8], end: u32) -> Turned
    ensures { result ≡ acknowledged_as host image.now Command.Request end }
{
    let right = host_ear::ends_with_checksum(host.ear, sendings::opcode_at(host, image));
    let compared = compare(host, image, end, host_ear::newest_word(host.ear));
    answers::answered_by(right, host, image, compared)
}

// An opcode's acknowledgement is waited for, of a command that ends at an offset.
pub fn await_acknowledgement(host: Host, image: &[u8], command: Command, end: u32) -> Turned
    ensures { result ≡ acknowledged_as host image.now command end }
{
    match role_of(command) {
        Role::Asks => take_checksum(host, image, end),
        Role::Closes => take_close(host, image, end),
        Role::Passed | Role::Goes => take_words(host, image, end),
    }
}
