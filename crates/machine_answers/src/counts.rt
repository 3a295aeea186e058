// 18 and 25, the totals and the number that a command takes, and what is left of a count.
ghost use Rattle.std.specs.Prelude.{◌≡◌, ◌-◌, min};
ghost use Rattle.machine_answers.specs.rules.Counts.{counted_on, out_of_numbers, overflowing};

use crate::Core;
use commands::Judged;
use ledger::Totals;
use opcodes::Refusal;

// A command as judged before, 25 where it finds no number.
pub fn judge_number(core: Core, judged: Judged) -> Judged
    ensures { result ≡ out_of_numbers core judged }
{
    let tally = core.tally;
    let totals = tally.totals;
    commands::bar(judged, totals.is_spent(), Refusal::Number)
}

// A load or a fill as judged before, 18 where it would take a total past the largest, then 25.
pub fn judge_count(core: Core, size: u32, judged: Judged) -> Judged
    ensures { result ≡ out_of_numbers core (overflowing core size judged) }
{
    let dialect = core.dialect;
    let tally = core.tally;
    let totals = tally.totals;
    let fits = commands::bar(judged, totals.would_pass(dialect, size), Refusal::Overflow);
    judge_number(core, fits)
}

// The totals with one more section of so many bytes, and its number taken.
pub fn count_on(core: Core, size: u32) -> Totals
    ensures { result ≡ counted_on core size }
{
    let dialect = core.dialect;
    let tally = core.tally;
    let totals = tally.totals;
    let counted = totals.count(dialect, size);
    counted.number()
}

// One less, and none after none.
pub fn less_one(left: u32) -> u32
    ensures { result ≡ left - 1 }
{
    if left == 0 { 0 } else { left - 1 }
}

// How many bytes of a data word belong to the load.
pub fn four_at_most(left: u32) -> u32
    ensures { result ≡ min left 4 }
{
    if left < 4 { left } else { 4 }
}
