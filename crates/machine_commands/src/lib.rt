// What a command does with its words in sent mode: the last three that were kept, and the last.
#![tactic(auto)]

ghost use Rattle.std.specs.Prelude.{◌≡◌, []};
ghost use Rattle.ledger.specs.rules.Totals.{standing};
ghost use Rattle.machine_answers.specs.rules.Answers.{changed, await, with_checksum, said, quiet};
ghost use Rattle.machine_commands.specs.rules.Performed.{none_kept, echoing, close_address, close_judged, setting_totals, performed};
ghost use Rattle.machine_answers.specs.rules.Replies.{one_word};

use commands::Judged;
use ledger::{Bytes, Sections, Standing, Totals};
use machine_answers::{Core, Kept, Phase, Taken};
use opcodes::{Command, Dialect, Refusal};

// Fill.
fn fill(core: Core, memory: &mut [u8], kept: Kept, pattern: u32) -> Taken
    ensures value { result ≡ (performed Command.Fill core memory.old kept pattern).answer }
    ensures memory_after { memory.new ≡ (performed Command.Fill core memory.old kept pattern).memory }
{
    let windows = core.windows;
    let tally = core.tally;
    let judged = machine_answers::counts::judge_count(
        core,
        kept.second,
        commands::judge_fill(windows, kept.first, kept.second, kept.third),
    );
    let done = commands::fill(
        memory,
        judged,
        core.on,
        tally.checksum,
        kept.first,
        kept.second,
        kept.third,
        pattern,
    );
    let totals = tally.totals;
    machine_answers::tell_wrote(
        machine_answers::finish(
            core,
            machine_answers::counts::count_on(core, kept.second),
            done,
        ),
        commands::wrote_bytes(judged, kept.second, totals.next),
    )
}

// The totals after a setting: its number is taken, and nothing is counted.
fn number_setting(core: Core) -> Totals
    ensures { result ≡ setting_totals core }
{
    let tally = core.tally;
    let totals = tally.totals;
    totals.number()
}

// Boot Table.
fn boot_table(core: Core, memory: &mut [u8], kept: Kept, delay: u32) -> Taken
    ensures value { result ≡ (performed Command.BootTable core memory.old kept delay).answer }
    ensures memory_after { memory.new ≡ (performed Command.BootTable core memory.old kept delay).memory }
{
    let windows = core.windows;
    let tally = core.tally;
    let judged = machine_answers::counts::judge_number(
        core,
        commands::judge_setting(windows, kept.first, kept.second, kept.third),
    );
    let done = commands::boot_table(
        memory,
        judged,
        tally.checksum,
        kept.first,
        kept.third,
        delay,
    );
    let totals = tally.totals;
    machine_answers::tell_wrote(
        machine_answers::finish(core, number_setting(core), done),
        commands::wrote_setting(judged, kept.first, totals.next),
    )
}

// Enable, Disable, Start-Over: the checksum switched or as it was, with a checksum.
fn switch(core: Core, on: bool, checksum: u32) -> Taken
    ensures { result ≡ quiet (changed core core.ended on core.begun (with_checksum core checksum) Phase.Opcode) }
{
    let tally = core.tally;
    let mut next = machine_answers::moved(core, checksum, tally.totals, Phase::Opcode);
    next.on = on;
    machine_answers::say(machine_answers::silent(), next)
}

// Request: sends the checksum, which becomes 0.
fn request(core: Core) -> Taken
    ensures { result ≡ (performed Command.Request core [] none_kept 0).answer }
{
    let tally = core.tally;
    machine_answers::say(
        machine_answers::reply_word(tally.checksum),
        machine_answers::moved(core, 0, tally.totals, Phase::Opcode),
    )
}

// The entry address among the words of Jump & Close.
fn entry_of(dialect: Dialect, kept: Kept, word: u32) -> u32
    ensures { result ≡ close_address dialect kept word }
{
    match dialect {
        Dialect::Am17xx => word,
        Dialect::Dm648 => kept.second,
    }
}

// Its judgement: 10, then 17.
fn judge_close(core: Core, kept: Kept, word: u32) -> Judged
    ensures { result ≡ close_judged core (close_address core.dialect kept word) (standing kept.third word) }
{
    let windows = core.windows;
    let dialect = core.dialect;
    let tally = core.tally;
    let totals = tally.totals;
    let named = Standing {
        sections: Sections(kept.third),
        bytes: Bytes(word),
    };
    commands::bar(
        commands::judge_entry(windows, entry_of(dialect, kept, word)),
        totals.differ(dialect, named),
        Refusal::Totals,
    )
}

// Jump & Close.
fn jump_and_close(core: Core, kept: Kept, word: u32) -> Taken
    ensures { result ≡ (performed Command.JumpAndClose core [] kept word).answer }
{
    let dialect = core.dialect;
    let tally = core.tally;
    let address = entry_of(dialect, kept, word);
    let judged = judge_close(core, kept, word);
    let done = commands::jump_and_close(judged, tally.checksum, address);
    machine_answers::enter(machine_answers::finish(core, tally.totals, done))
}

// What is awaited while words to echo are left.
#[tactic(auto, unfolding(crate::specs::rules::Performed::echoing, words::specs::rules::Choice::pick))]
fn ping_phase(left: u32) -> Phase
    ensures { result ≡ echoing left }
{
    if left == 0 {
        return Phase::Opcode;
    }
    Phase::Echo(left)
}

// Ping's count and its words are echoed.
pub fn echo(core: Core, word: u32, left: u32) -> Taken
    ensures { result ≡ said (one_word word) (await core core.tally (echoing left)) }
{
    let tally = core.tally;
    machine_answers::say(
        machine_answers::reply_word(word),
        machine_answers::moved(core, tally.checksum, tally.totals, ping_phase(left)),
    )
}

// A command, with its words.
pub fn perform(core: Core, memory: &mut [u8], command: Command, kept: Kept, word: u32) -> Taken
    ensures value { result ≡ (performed command core memory.old kept word).answer }
    ensures memory_after { memory.new ≡ (performed command core memory.old kept word).memory }
{
    let on = core.on;
    let tally = core.tally;
    let checksum = tally.checksum;
    match command {
        Command::Load => machine_loads::begin_load(core, kept.third, word),
        Command::Fill => fill(core, memory, kept, word),
        Command::BootTable => boot_table(core, memory, kept, word),
        Command::Enable => switch(core, true, 0),
        Command::Disable => switch(core, false, checksum),
        Command::Request => request(core),
        Command::StartOver => switch(core, on, 0),
        Command::JumpAndClose => jump_and_close(core, kept, word),
        Command::Ping => echo(core, word, word),
        Command::SequentialRead => machine_answers::refuse(core, Refusal::Opcode),
    }
}
