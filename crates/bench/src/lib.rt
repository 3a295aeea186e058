// The bench's entries for C: whole sessions on byte slices, answered by one number.
#![tactic(auto)]

pub mod events;
pub mod hosts;
pub mod registers;

ghost use Rattle.std.specs.Prelude.{◌≡◌, ◌+◌, ◌*◌, ◌/◌, ◌^◌, ◌≤◌};
ghost use Rattle.opcodes.specs.rules.Answers.{code_of};
ghost use Rattle.hex_text.specs.rules.Text.{read_answer, read_room, write_answer, write_room};
ghost use Rattle.bench_sessions.specs.rules.Feeding.{outcome, sent_session, line_session};
ghost use Rattle.bench_sessions.specs.rules.Numbers.{watched, bits_session};
ghost use Rattle.bench.specs.rules.Bits.{bits_from, bits_run};
ghost use Rattle.bench.specs.rules.Fetched.{fetched_report, fetched_value};
ghost use Rattle.bench.specs.rules.Runs.{reported, flash_run, flash_value, flash_memory};

use bit_choice::Choice;
use flash_session::{Called, Opened, Session};
use opcodes::{Dialect, Refusal};
use sent::Bus;

// Four numbers in one: refusal, retries, an offset in words, checksum.
fn pack(refusal: u8, retries: u8, at: u32, checksum: u32) -> u64
    requires { at ≤ 65536 }
    ensures { result ≡ refusal * 2 ^ 56 + retries * 2 ^ 48 + at / 4 * 2 ^ 32 + checksum }
{
    let words = (at as u64) / 4;
    ((refusal as u64) << 56) + ((retries as u64) << 48) + (words << 32) + (checksum as u64)
}

// An answer in one number: refusal, retries, offset of the last command in words, checksum.
fn report(called: Called) -> u64
    requires { called.at ≤ 65536 }
    ensures { result ≡ reported called }
{
    pack(
        opcodes::code_of(called.refusal),
        called.session.retries,
        called.at,
        called.session.checksum,
    )
}

// An answer in one number: refusal, words fetched since the opening.
fn report_fetched(called: Called) -> u64
    ensures { result ≡ fetched_report called }
{
    ((opcodes::code_of(called.refusal) as u64) << 32) + (called.session.fetched as u64)
}

// Opens an image in a dialect on a map and runs it, unchanged, to the end of its session.
fn run_image(dialect: Dialect, map: &[u8], memory: &mut [u8], image: &[u8], limit: u8) -> Called
    ensures value { result ≡ (flash_run dialect map.now memory.old image.now limit).answer }
    ensures at_bound { result.at ≤ 65536 }
    ensures memory_after { memory.new ≡ flash_memory dialect map.now memory.old image.now limit }
{
    let opened = Session::open(
        dialect,
        bench_sessions::maps::count_of(map),
        bench_sessions::maps::windows_of(map),
        image,
        limit,
    );
    flash_runs::run_plain(opened, memory, image)
}

// One whole flash run of an unchanged image.
pub fn ais_flash_run(map: &[u8], memory: &mut [u8], image: &[u8], limit: u8) -> u64
    ensures value { result ≡ flash_value Dialect.Am17xx map.now memory.old image.now limit }
    ensures memory_after { memory.new ≡ flash_memory Dialect.Am17xx map.now memory.old image.now limit }
{
    report(run_image(Dialect::Am17xx, map, memory, image, limit))
}

// The same run, asked for the words that it fetched.
pub fn ais_flash_fetched(map: &[u8], memory: &mut [u8], image: &[u8], limit: u8) -> u64
    ensures value { result ≡ fetched_value Dialect.Am17xx map.now memory.old image.now limit }
    ensures memory_after { memory.new ≡ flash_memory Dialect.Am17xx map.now memory.old image.now limit }
{
    report_fetched(run_image(Dialect::Am17xx, map, memory, image, limit))
}

// One whole flash run of a DM648 image.
pub fn ais_dm648_run(map: &[u8], memory: &mut [u8], image: &[u8], limit: u8) -> u64
    ensures value { result ≡ flash_value Dialect.Dm648 map.now memory.old image.now limit }
    ensures memory_after { memory.new ≡ flash_memory Dialect.Dm648 map.now memory.old image.now limit }
{
    report(run_image(Dialect::Dm648, map, memory, image, limit))
}

// One whole sent session on the line of bytes.
pub fn ais_sent_session(map: &[u8], memory: &mut [u8], fed: &[u8], room: &mut [u8]) -> u64
    ensures { outcome result memory.new room.new
        ≡ sent_session Bus.Bytes Dialect.Am17xx map.now memory.old fed.now room.old }
{
    bench_sessions::session_on(Bus::Bytes, Dialect::Am17xx, map, memory, fed, room)
}

// One whole sent session on the line of halves, each lent as two bytes, the low one first.
pub fn ais_half_session(map: &[u8], memory: &mut [u8], fed: &[u8], room: &mut [u8]) -> u64
    ensures { outcome result memory.new room.new
        ≡ sent_session Bus.Halves Dialect.Am17xx map.now memory.old fed.now room.old }
{
    bench_sessions::session_on(Bus::Halves, Dialect::Am17xx, map, memory, fed, room)
}

// One whole sent session of a DM648, on the line of a number: 0 bytes, 1 halves; any other is refused with 19 before anything else is judged.
pub fn ais_dm648_session(
    line: u8,
    map: &[u8],
    memory: &mut [u8],
    fed: &[u8],
    room: &mut [u8],
) -> u64
    ensures { outcome result memory.new room.new
        ≡ line_session line Dialect.Dm648 map.now memory.old fed.now room.old }
{
    bench_sessions::line_session(line, Dialect::Dm648, map, memory, fed, room)
}

// One whole sent session on a line and in a dialect by number, with the numbers of chosen words beside it.
pub fn ais_bits_session(
    line: u8,
    dialect: u8,
    map: &[u8],
    chosen: &[u8],
    memory: &mut [u8],
    numbers: &mut [u8],
    fed: &[u8],
    room: &mut [u8],
) -> u64
    ensures { watched result memory.new numbers.new room.new
        ≡ bits_session line dialect map.now chosen.now
        memory.old numbers.old fed.now room.old }
{
    bench_sessions::bits_session(line, dialect, map, chosen, memory, numbers, fed, room)
}

// A flash run with numbers from its opening and its choice.
fn bits_from(
    choice: Choice,
    opened: Opened,
    memory: &mut [u8],
    numbers: &mut [u8],
    image: &[u8],
) -> u64
    requires { (opened.session.offset ≤ 65536) × (opened.session.length ≤ 65536) }
    ensures value { result ≡ (bits_from opened choice memory.old numbers.old image.now).value }
    ensures memory_after { memory.new ≡ (bits_from opened choice memory.old numbers.old image.now).memory }
    ensures numbers_after { numbers.new ≡ (bits_from opened choice memory.old numbers.old image.now).numbers }
{
    let opening = opened.refusal;
    let session = opened.session;
    let windows = session.windows;
    let barred = bench_sessions::bar(
        opening,
        choice,
        numbers.len(),
        memory.len(),
        windows::sum(windows),
    );
    if let Some(refusal) = barred {
        return bench_sessions::only_refusal(refusal);
    }
    bench_sessions::clear(numbers);
    let count = choice.chosen.count;
    let places = choice.chosen.places;
    let mut offsets = [0u8; 0];
    let mut room = [0u8; 0];
    let ran = flash_runs::run_from(
        opened,
        count,
        &places,
        memory,
        image,
        numbers,
        &mut offsets,
        &mut room,
    );
    report(ran.called)
}

// One whole flash run in a dialect by number, with the numbers of chosen words beside it.
pub fn ais_bits_run(
    dialect: u8,
    map: &[u8],
    chosen: &[u8],
    memory: &mut [u8],
    numbers: &mut [u8],
    image: &[u8],
    limit: u8,
) -> u64
    ensures value { result ≡ (bits_run dialect map.now chosen.now memory.old numbers.old image.now limit).value }
    ensures memory_after { memory.new ≡ (bits_run dialect map.now chosen.now memory.old
        numbers.old image.now limit).memory }
    ensures numbers_after { numbers.new ≡ (bits_run dialect map.now chosen.now memory.old
        numbers.old image.now limit).numbers }
{
    if 1 < dialect {
        return bench_sessions::only_refusal(Refusal::Call);
    }
    let opened = Session::open_numbering(
        bench_sessions::dialect_of(dialect),
        bench_sessions::maps::count_of(map),
        bench_sessions::maps::windows_of(map),
        image,
        limit,
    );
    let choice = bench_sessions::choose_on(map, chosen);
    bits_from(choice, opened, memory, numbers, image)
}

// A text of hexadecimal digits read into an image: 0 or the refusal.
pub fn ais_hex_read(text: &[u8], image: &mut [u8]) -> u8
    ensures value { result ≡ code_of (read_answer text.now image.old) }
    ensures image_after { image.new ≡ read_room text.now image.old }
{
    match hex_text::read(text, image) {
        Ok(()) => 0,
        Err(refusal) => refusal.code(),
    }
}

// An image written out as text: 0 or the refusal.
pub fn ais_hex_write(image: &[u8], text: &mut [u8]) -> u8
    ensures value { result ≡ code_of (write_answer image.now text.old) }
    ensures text_after { text.new ≡ write_room image.now text.old }
{
    match hex_text::write(image, text) {
        Ok(()) => 0,
        Err(refusal) => refusal.code(),
    }
}
