// The archive that C links: each export calls the function of `bench` that has its name and its promise.
#![tactic(auto)]

pub mod events;
pub mod hosts;
pub mod registers;

ghost use Rattle.std.specs.Prelude.{◌≡◌};
ghost use Rattle.opcodes.specs.rules.Answers.{code_of};
ghost use Rattle.hex_text.specs.rules.Text.{read_answer, read_room, write_answer, write_room};
ghost use Rattle.bench_sessions.specs.rules.Feeding.{outcome, sent_session, line_session};
ghost use Rattle.bench_sessions.specs.rules.Numbers.{watched, bits_session};
ghost use Rattle.bench.specs.rules.Bits.{bits_run};
ghost use Rattle.bench.specs.rules.Fetched.{fetched_value};
ghost use Rattle.bench.specs.rules.Runs.{flash_value, flash_memory};

use opcodes::Dialect;
use sent::Bus;

// One whole flash run of an unchanged image.
#[unsafe(no_mangle)]
pub extern "C" fn ais_flash_run(map: &[u8], memory: &mut [u8], image: &[u8], limit: u8) -> u64
    ensures value { result ≡ flash_value Dialect.Am17xx map.now memory.old image.now limit }
    ensures memory_after { memory.new ≡ flash_memory Dialect.Am17xx map.now memory.old image.now limit }
{
    bench::ais_flash_run(map, memory, image, limit)
}

// The same run, asked for the words that it fetched.
#[unsafe(no_mangle)]
pub extern "C" fn ais_flash_fetched(map: &[u8], memory: &mut [u8], image: &[u8], limit: u8) -> u64
    ensures value { result ≡ fetched_value Dialect.Am17xx map.now memory.old image.now limit }
    ensures memory_after { memory.new ≡ flash_memory Dialect.Am17xx map.now memory.old image.now limit }
{
    bench::ais_flash_fetched(map, memory, image, limit)
}

// One whole flash run of a DM648 image.
#[unsafe(no_mangle)]
pub extern "C" fn ais_dm648_run(map: &[u8], memory: &mut [u8], image: &[u8], limit: u8) -> u64
    ensures value { result ≡ flash_value Dialect.Dm648 map.now memory.old image.now limit }
    ensures memory_after { memory.new ≡ flash_memory Dialect.Dm648 map.now memory.old image.now limit }
{
    bench::ais_dm648_run(map, memory, image, limit)
}

// One whole sent session on the line of bytes.
#[unsafe(no_mangle)]
pub extern "C" fn ais_sent_session(
    map: &[u8],
    memory: &mut [u8],
    fed: &[u8],
    room: &mut [u8],
) -> u64
    ensures { outcome result memory.new room.new
        ≡ sent_session Bus.Bytes Dialect.Am17xx map.now memory.old fed.now room.old }
{
    bench::ais_sent_session(map, memory, fed, room)
}

// One whole sent session on the line of halves, each lent as two bytes, the low one first.
#[unsafe(no_mangle)]
pub extern "C" fn ais_half_session(
    map: &[u8],
    memory: &mut [u8],
    fed: &[u8],
    room: &mut [u8],
) -> u64
    ensures { outcome result memory.new room.new
        ≡ sent_session Bus.Halves Dialect.Am17xx map.now memory.old fed.now room.old }
{
    bench::ais_half_session(map, memory, fed, room)
}

// One whole sent session of a DM648, on the line of a number: 0 bytes, 1 halves; any other is refused with 19 before anything else is judged.
#[unsafe(no_mangle)]
pub extern "C" fn ais_dm648_session(
    line: u8,
    map: &[u8],
    memory: &mut [u8],
    fed: &[u8],
    room: &mut [u8],
) -> u64
    ensures { outcome result memory.new room.new
        ≡ line_session line Dialect.Dm648 map.now memory.old fed.now room.old }
{
    bench::ais_dm648_session(line, map, memory, fed, room)
}

// One whole sent session on a line and in a dialect by number, with the numbers of chosen words beside it.
#[unsafe(no_mangle)]
pub extern "C" fn ais_bits_session(
    line: u8,
    dialect: u8,
    map: &[u8],
    chosen: &[u8],
    memory: &mut [u8],
    numbers: &mut [u8],
    fed: &[u8],
    room: &mut [u8],
) -> u64
    ensures { watched result memory.new numbers.new room.new
        ≡ bits_session line dialect map.now chosen.now
        memory.old numbers.old fed.now room.old }
{
    bench::ais_bits_session(line, dialect, map, chosen, memory, numbers, fed, room)
}

// One whole flash run in a dialect by number, with the numbers of chosen words beside it.
#[unsafe(no_mangle)]
pub extern "C" fn ais_bits_run(
    dialect: u8,
    map: &[u8],
    chosen: &[u8],
    memory: &mut [u8],
    numbers: &mut [u8],
    image: &[u8],
    limit: u8,
) -> u64
    ensures value { result ≡ (bits_run dialect map.now chosen.now memory.old numbers.old image.now limit).value }
    ensures memory_after { memory.new ≡ (bits_run dialect map.now chosen.now memory.old
        numbers.old image.now limit).memory }
    ensures numbers_after { numbers.new ≡ (bits_run dialect map.now chosen.now memory.old
        numbers.old image.now limit).numbers }
{
    bench::ais_bits_run(dialect, map, chosen, memory, numbers, image, limit)
}

// A text of hexadecimal digits read into an image: 0 or the refusal.
#[unsafe(no_mangle)]
pub extern "C" fn ais_hex_read(text: &[u8], image: &mut [u8]) -> u8
    ensures value { result ≡ code_of (read_answer text.now image.old) }
    ensures image_after { image.new ≡ read_room text.now image.old }
{
    bench::ais_hex_read(text, image)
}

// An image written out as text: 0 or the refusal.
#[unsafe(no_mangle)]
pub extern "C" fn ais_hex_write(image: &[u8], text: &mut [u8]) -> u8
    ensures value { result ≡ code_of (write_answer image.now text.old) }
    ensures text_after { text.new ≡ write_room image.now text.old }
{
    bench::ais_hex_write(image, text)
}
