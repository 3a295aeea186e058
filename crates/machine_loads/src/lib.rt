// Load: its size word, and its data words.
#![tactic(auto)]

ghost use Rattle.std.specs.Prelude.{◌≡◌, [], ◌∷◌, ◌+◌, ◌-◌, ◌*◌, ◌≤◌, min};
ghost use Rattle.words.specs.rules.Choice.{pick};
ghost use Rattle.checksum.specs.rules.Checksum.{fed, fed_words};
ghost use Rattle.windows.specs.rules.Window.{sum_of};
ghost use Rattle.commands.specs.rules.Commands.{load_judged};
ghost use Rattle.stores.specs.rules.Stores.{loaded};
ghost use Rattle.machine_answers.specs.rules.Counts.{out_of_numbers, overflowing};
ghost use Rattle.machine_loads.specs.rules.Loads.{awaited, load_begun, data_bytes, data_taken};

use machine_answers::{Core, Phase, Taken};
use windows::Window;

// What is awaited while bytes of a load are left.
#[tactic(auto, unfolding(crate::specs::rules::Loads::awaited, words::specs::rules::Choice::pick))]
fn data_phase(end: usize, left: u32) -> Phase
    ensures { result ≡ awaited end left }
{
    if left == 0 {
        return Phase::Opcode;
    }
    Phase::Data(end, left)
}

// What a granted load feeds at its size word.
#[tactic(auto, unfolding(checksum::specs::rules::Checksum::fed_words, words::specs::rules::Choice::pick))]
fn feed_head(on: bool, checksum: u32, address: u32, size: u32) -> u32
    ensures { result ≡ pick on (fed_words checksum (address ∷ size ∷ [])) checksum }
{
    if on {
        return checksum::feed_word(checksum::feed_word(checksum, address), size);
    }
    checksum
}

// The place past a granted range. It is inside the lent memory, whose length is the windows' sum, so it fits.
fn end_of(windows: [Window; 8], place: usize, size: u32) -> usize
    requires { place + size ≤ sum_of windows }
    ensures { result ≡ place + size }
{
    windows::sum(windows);
    place + (size as usize)
}

// Load, at its size word.
pub fn begin_load(core: Core, address: u32, size: u32) -> Taken
    ensures { result ≡ load_begun core address size (out_of_numbers core (overflowing core size (load_judged core.windows address size))) }
{
    let windows = core.windows;
    let judged = machine_answers::counts::judge_count(
        core,
        size,
        commands::judge_load(windows, address, size),
    );
    match judged {
        Ok(place) => {
            let tally = core.tally;
            let checksum = feed_head(core.on, tally.checksum, address, size);
            let phase = data_phase(end_of(windows, place, size), size);
            machine_answers::say(
                machine_answers::silent(),
                machine_answers::moved(
                    core,
                    checksum,
                    machine_answers::counts::count_on(core, size),
                    phase,
                ),
            )
        }
        Err(refusal) => machine_answers::refuse(core, refusal),
    }
}

// Where a data word goes: as many bytes before the end as are left.
fn place_before(end: usize, left: u32) -> usize
    ensures { result ≡ end - left }
{
    if (left as usize) < end {
        return end - (left as usize);
    }
    0
}

// These bytes, at a place.
fn put_data(memory: &mut [u8], at: usize, left: u32, word: u32)
    ensures { memory.new ≡ loaded memory.old at (data_bytes word left) }
{
    if memory.len() <= at {
        return;
    }
    for i in 0..left.min(4) {
        words::put_byte(memory, at + (i as usize), words::byte_of(word, i));
    }
}

// What a data word feeds.
#[tactic(auto, unfolding(words::specs::rules::Choice::pick))]
fn feed_data(on: bool, checksum: u32, word: u32, left: u32) -> u32
    ensures { result ≡ pick on (fed checksum word (8 * min left 4)) checksum }
{
    if on {
        return checksum::feed(checksum, word, left);
    }
    checksum
}

// How many bytes of a load are left after a data word.
fn left_after(left: u32) -> u32
    ensures { result ≡ left - 4 }
{
    if left <= 4 { 0 } else { left - 4 }
}

// The answer to a data word of a load.
fn data_answer(core: Core, end: usize, left: u32, word: u32) -> Taken
    ensures { result ≡ (data_taken core [] end left word).answer }
{
    let tally = core.tally;
    let totals = tally.totals;
    let place = place_before(end, left);
    let checksum = feed_data(core.on, tally.checksum, word, left);
    let phase = data_phase(end, left_after(left));
    machine_answers::tell_wrote(
        machine_answers::say(
            machine_answers::silent(),
            machine_answers::moved(core, checksum, totals, phase),
        ),
        commands::wrote_bytes(
            Ok(place),
            machine_answers::counts::four_at_most(left),
            machine_answers::counts::less_one(totals.next),
        ),
    )
}

// A data word of a load.
pub fn take_data(core: Core, memory: &mut [u8], end: usize, left: u32, word: u32) -> Taken
    ensures value { result ≡ (data_taken core memory.old end left word).answer }
    ensures memory_after { memory.new ≡ (data_taken core memory.old end left word).memory }
{
    put_data(memory, place_before(end, left), left, word);
    data_answer(core, end, left, word)
}
