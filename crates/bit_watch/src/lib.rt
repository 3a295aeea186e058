// A sent session with the numbers of its chosen bits beside it (02, request 6): the plain step, then what it tells that it wrote is stamped.
#![tactic(auto)]

ghost use Rattle.std.specs.Prelude.{◌≡◌, get_or, take};
ghost use Rattle.sent.specs.rules.Bus.{units_fed};
ghost use Rattle.sent.specs.rules.Line.{unit_step};
ghost use Rattle.bit_watch.specs.rules.Watched.{unit_entries};

// One unit of lent bytes, by its place among them, to a sent session.
pub fn step_at(
    session: sent::Session,
    count: usize,
    places: &[usize],
    memory: &mut [u8],
    entries: &mut [u8],
    bus: sent::Bus,
    fed: &[u8],
    i: usize,
) -> sent::Answer
    ensures value { result ≡ (unit_step bus session memory.old (get_or (units_fed bus fed.now) i 0)).answer }
    ensures memory_after { memory.new ≡ (unit_step bus session memory.old (get_or (units_fed bus fed.now) i 0)).memory }
    ensures entries_after { entries.new ≡ unit_entries (take count places.now) entries.old bus session
        memory.old (get_or (units_fed bus fed.now) i 0) }
{
    let answer = session.step_at(memory, bus, fed, i);
    let wrote = answer.wrote;
    if wrote.count == 0 {
        return answer;
    }
    if count == 0 {
        return answer;
    }
    bit_stamps::stamp(entries, count, places, wrote);
    answer
}
