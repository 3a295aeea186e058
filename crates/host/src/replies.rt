// The waits for a Start-Over's acknowledgement and for DONE.
ghost use Rattle.std.specs.Prelude.{◌≡◌};
ghost use Rattle.host.specs.rules.Turn.{in_wait};

use host_answers::{Host, Sending, Turned, Wait, answers, sendings};

// The acknowledgement of a Start-Over is waited for, before an offset is sought.
pub fn over(host: Host, image: &[u8], offset: u32) -> Turned
    ensures { result ≡ in_wait (Wait.Over offset) host image.now }
{
    let right = host_ear::acknowledges(host.ear, sendings::START_OVER);
    answers::answered_by(
        right,
        host,
        image,
        answers::send(Sending::Nothing, answers::go_to(host, offset)),
    )
}

// DONE is.
pub fn done(host: Host, image: &[u8]) -> Turned
    ensures { result ≡ in_wait Wait.Closing host image.now }
{
    let right = host_ear::ends_with_word(host.ear, machine_answers::DONE);
    answers::answered_by(
        right,
        host,
        image,
        answers::send(Sending::Nothing, answers::stop(host)),
    )
}
