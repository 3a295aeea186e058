// A host as 41 bytes: eight words, then nine bytes.
ghost use Rattle.std.specs.Prelude.{◌≡◌, [], ◌∷◌, ◌+◌, ◌*◌, ◌/◌, ◌%◌, ◌^◌, ◌≤◌, length, get_or};
ghost use Rattle.std.proofs.lemmas.List.Edits.{sets};
ghost use Rattle.words.specs.rules.Bytes.{word_at, words_bytes};
ghost use Rattle.bench_hosts.specs.rules.HostBytes.{
  flag_of,
  is_set,
  line_number,
  dialect_number,
  command_number,
  command_of,
  wait_number,
  wait_value,
  wait_command,
  wait_of,
  host_words,
  host_marks,
  host_laid,
  read_stage,
  read_ear,
  read_host,
};

use host_answers::{Host, Stage, Wait};
use host_ear::Ear;
use opcodes::{Command, Dialect};
use sent::Bus;
use words::Unit;

// The bytes of a host.
pub const HOST_BYTES: usize = 41;

// A flag as a number.
pub fn flag(set: bool) -> u8
    ensures { result ≡ flag_of set }
{
    u8::from(set)
}

// The number of a line.
fn line_number(bus: Bus) -> u8
    ensures { result ≡ line_number bus }
{
    bus as u8
}

// The number of a dialect.
fn dialect_number(dialect: Dialect) -> u8
    ensures { result ≡ dialect_number dialect }
{
    dialect as u8
}

// The number of a command.
fn command_number(command: Command) -> u8
    ensures { result ≡ command_number command }
{
    command as u8
}

// The command of a number; any above 9 counts as 9.
fn command_of(number: u8) -> Command
    ensures { result ≡ command_of number }
{
    match number {
        0 => Command::Load,
        1 => Command::Fill,
        2 => Command::BootTable,
        3 => Command::Enable,
        4 => Command::Disable,
        5 => Command::Request,
        6 => Command::StartOver,
        7 => Command::JumpAndClose,
        8 => Command::Ping,
        _ => Command::SequentialRead,
    }
}

// The number of a wait.
fn wait_number(wait: Wait) -> u8
    ensures { result ≡ wait_number wait }
{
    match wait {
        Wait::Greeting => 0,
        Wait::Start => 1,
        Wait::Ping => 2,
        Wait::Echo(_) => 3,
        Wait::Nothing => 4,
        Wait::Opcode(_, _) => 5,
        Wait::Over(_) => 6,
        Wait::Closing => 7,
    }
}

// The value of a wait, 0 where it has none.
fn wait_value(wait: Wait) -> u32
    ensures { result ≡ wait_value wait }
{
    match wait {
        Wait::Echo(k) => k,
        Wait::Opcode(_, end) => end,
        Wait::Over(offset) => offset,
        _ => 0,
    }
}

// The number of a wait's command, 0 where it has none.
fn wait_command(wait: Wait) -> u8
    ensures { result ≡ wait_command wait }
{
    match wait {
        Wait::Opcode(command, _) => command_number(command),
        _ => 0,
    }
}

// The wait of a number; any above 7 counts as 7.
fn wait_of(number: u8, command: Command, value: u32) -> Wait
    ensures { result ≡ wait_of number command value }
{
    match number {
        0 => Wait::Greeting,
        1 => Wait::Start,
        2 => Wait::Ping,
        3 => Wait::Echo(value),
        4 => Wait::Nothing,
        5 => Wait::Opcode(command, value),
        6 => Wait::Over(value),
        _ => Wait::Closing,
    }
}

// The low word of a number, and the high one.
fn low_word(number: u64) -> u32
    ensures { result ≡ number % 2 ^ 32 }
{
    (number % 4294967296) as u32
}

fn high_word(number: u64) -> u32
    ensures { result ≡ number / 2 ^ 32 }
{
    (number >> 32) as u32
}

// The number of two words.
fn join(low: u32, high: u32) -> u64
    ensures { result ≡ low + high * 2 ^ 32 }
{
    (low as u64) + ((high as u64) << 32)
}

// Is the flag of a number set?
fn is_set(number: u8) -> bool
    ensures { result ≡ is_set number }
{
    number != 0
}

// Writes a word at a place.
fn put_word(bytes: &mut [u8], at: usize, word: u32)
    requires { at + 4 ≤ length bytes.old }
    ensures { bytes.new ≡ sets bytes.old at (words_bytes (word ∷ [])) }
{
    words::write(bytes, at, Unit::Four, word);
}

// Writes the words of a host.
fn put_words(bytes: &mut [u8], host: Host)
    requires { length bytes.old ≡ 41 }
    ensures { bytes.new ≡ sets bytes.old 0 (words_bytes (host_words host)) }
{
    let stage = host.stage;
    let wait = stage.wait;
    let last = host.ear.last;
    put_word(bytes, 0, host.length);
    put_word(bytes, 4, host.tries);
    put_word(bytes, 8, host.pings);
    put_word(bytes, 12, host.offset);
    put_word(bytes, 16, host.spent);
    put_word(bytes, 20, wait_value(wait));
    put_word(bytes, 24, low_word(last));
    put_word(bytes, 28, high_word(last));
}

// Writes the bytes after them.
fn put_marks(bytes: &mut [u8], host: Host)
    ensures { bytes.new ≡ sets bytes.old 32 (host_marks host) }
{
    let bus = host.bus;
    let dialect = host.dialect;
    let stage = host.stage;
    let wait = stage.wait;
    words::put_byte(bytes, 32, line_number(bus));
    words::put_byte(bytes, 33, dialect_number(dialect));
    words::put_byte(bytes, 34, flag(host.ended));
    words::put_byte(bytes, 35, host.limit);
    words::put_byte(bytes, 36, host.retries);
    words::put_byte(bytes, 37, wait_number(wait));
    words::put_byte(bytes, 38, wait_command(wait));
    words::put_byte(bytes, 39, host.ear.count);
    words::put_byte(bytes, 40, flag(host.ear.fresh));
}

// Writes a host; into any but 41 bytes nothing.
pub fn write_host(bytes: &mut [u8], host: Host)
    ensures { bytes.new ≡ host_laid bytes.old host }
{
    if bytes.len() != HOST_BYTES {
        return;
    }
    put_words(bytes, host);
    put_marks(bytes, host);
}

// The byte at a place; 0 past the end.
fn byte_at(bytes: &[u8], place: usize) -> u8
    ensures { result ≡ get_or bytes.now place 0 }
{
    bytes.get(place).copied().unwrap_or(0)
}

// What bytes say of the ear.
fn read_ear(bytes: &[u8]) -> Ear
    ensures { result ≡ read_ear bytes.now }
{
    Ear {
        last: join(words::word_at(bytes, 24), words::word_at(bytes, 28)),
        count: byte_at(bytes, 39),
        fresh: is_set(byte_at(bytes, 40)),
    }
}

// What they say of the wait.
fn read_stage(bytes: &[u8]) -> Stage
    ensures { result ≡ read_stage bytes.now }
{
    let command = command_of(byte_at(bytes, 38));
    Stage {
        wait: wait_of(byte_at(bytes, 37), command, words::word_at(bytes, 20)),
    }
}

// The host that bytes are.
pub fn read_host(bytes: &[u8]) -> Host
    ensures { result ≡ read_host bytes.now }
{
    Host {
        bus: bench_sessions::line_of(byte_at(bytes, 32)),
        dialect: bench_sessions::dialect_of(byte_at(bytes, 33)),
        length: words::word_at(bytes, 0),
        tries: words::word_at(bytes, 4),
        pings: words::word_at(bytes, 8),
        limit: byte_at(bytes, 35),
        ended: is_set(byte_at(bytes, 34)),
        retries: byte_at(bytes, 36),
        offset: words::word_at(bytes, 12),
        spent: words::word_at(bytes, 16),
        stage: read_stage(bytes),
        ear: read_ear(bytes),
    }
}
