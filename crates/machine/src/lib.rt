// The word machine of sent mode: what a whole word does, by the phase that awaits it. It knows nothing of how the word arrived.
#![tactic(auto)]

mod opening;

ghost use Rattle.std.specs.Prelude.{◌≡◌};
ghost use Rattle.machine_answers.specs.rules.Answers.{await, quiet};
ghost use Rattle.machine.specs.rules.Machine.{keeping, toward, word_step};
ghost use Rattle.opcodes.specs.rules.Opcodes.{looked_up};
ghost use Rattle.machine.specs.rules.Purpose.{opcode_purpose, purpose_of, served};

use machine_answers::{Core, Kept, Phase, Taken};
use opcodes::{Command, Dialect, Mode, Refusal};

// A word of a command: whether it is the opcode, the command, how many words are to come, those kept before it, and the argument that it is.
#[derive(Clone, Copy)]
pub struct CommandWord {
    pub opens: bool,
    pub command: Command,
    pub coming: u32,
    pub kept: Kept,
    pub argument: u32,
}

// What a word is for: a word of a command, data of a load up to an end, or an echo.
#[derive(Clone, Copy)]
pub enum Purpose {
    Command(CommandWord),
    Data(usize, u32),
    Echo(u32),
}

// The words kept, with one more.
fn keep(kept: Kept, word: u32) -> Kept
    ensures { result ≡ keeping kept word }
{
    Kept {
        first: kept.second,
        second: kept.third,
        third: word,
    }
}

// An argument word is taken, and another word awaited.
fn ask(core: Core, phase: Phase) -> Taken
    ensures { result ≡ quiet (await core core.tally phase) }
{
    let tally = core.tally;
    machine_answers::say(
        machine_answers::silent(),
        machine_answers::moved(core, tally.checksum, tally.totals, phase),
    )
}

// A word of a command is here: with none to come the command is done, else the next is awaited.
fn advance(core: Core, memory: &mut [u8], step: CommandWord) -> Taken
    ensures value { result ≡ (toward step.command step.coming core memory.old step.kept step.argument).answer }
    ensures memory_after { memory.new ≡ (toward step.command step.coming core memory.old step.kept step.argument).memory }
{
    if step.coming == 0 {
        return machine_commands::perform(core, memory, step.command, step.kept, step.argument);
    }
    let kept = keep(step.kept, step.argument);
    ask(core, Phase::Argument(step.command, step.coming, kept))
}

// What a word is for where an opcode is awaited: the words to come are those of its row, and none of them is here yet.
fn opcode_purpose(word: u32, dialect: Dialect) -> Result<Purpose, Refusal>
    ensures { result ≡ opcode_purpose (looked_up word Mode.Sent dialect) }
{
    let known = opcodes::look_up(word, Mode::Sent, dialect)?;
    let none = Kept {
        first: 0,
        second: 0,
        third: 0,
    };
    Ok(Purpose::Command(CommandWord {
        opens: true,
        command: known.command,
        coming: known.words,
        kept: none,
        argument: 0,
    }))
}

// What a word is for, by the phase that awaits it; refused where it is no opcode that is taken.
fn purpose_of(phase: Phase, dialect: Dialect, word: u32) -> Result<Purpose, Refusal>
    ensures { result ≡ purpose_of phase dialect word }
{
    match phase {
        Phase::Opcode => opcode_purpose(word, dialect),
        Phase::Argument(command, left, kept) => Ok(Purpose::Command(CommandWord {
            opens: false,
            command,
            coming: machine_answers::counts::less_one(left),
            kept,
            argument: word,
        })),
        Phase::Data(end, left) => Ok(Purpose::Data(end, left)),
        Phase::Echo(left) => Ok(Purpose::Echo(left)),
    }
}

// A word of a command, its opcode or an argument.
fn take_command(core: Core, memory: &mut [u8], step: CommandWord, word: u32) -> Taken
    ensures value { result ≡ (served (Purpose.Command step) core memory.old word).answer }
    ensures memory_after { memory.new ≡ (served (Purpose.Command step) core memory.old word).memory }
{
    let taken = advance(
        opening::begun_by(core, step.opens, step.command),
        memory,
        step,
    );
    if step.opens {
        return opening::acknowledge(taken, word);
    }
    taken
}

// The word machine: a whole word, by what it is for.
pub fn take_word(core: Core, memory: &mut [u8], word: u32) -> Taken
    ensures value { result ≡ (word_step core memory.old word).answer }
    ensures memory_after { memory.new ≡ (word_step core memory.old word).memory }
{
    match purpose_of(core.stage.phase, core.dialect, word) {
        Err(refusal) => machine_answers::refuse(core, refusal),
        Ok(purpose) => serve(core, memory, purpose, word),
    }
}

// A word is taken for its purpose.
fn serve(core: Core, memory: &mut [u8], purpose: Purpose, word: u32) -> Taken
    ensures value { result ≡ (served purpose core memory.old word).answer }
    ensures memory_after { memory.new ≡ (served purpose core memory.old word).memory }
{
    match purpose {
        Purpose::Command(step) => take_command(core, memory, step, word),
        Purpose::Data(end, left) => machine_loads::take_data(core, memory, end, left, word),
        Purpose::Echo(left) => machine_commands::echo(
            core,
            word,
            machine_answers::counts::less_one(left),
        ),
    }
}
