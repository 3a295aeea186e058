// What loads and fills write at a place of the lent memory, and what the data of a load feed.
#![tactic(auto)]

ghost use Rattle.std.specs.Prelude.{◌≡◌, ℕ, ◌+◌, ◌*◌, ◌/◌, ◌%◌, ◌≤◌, min, leb, length};
ghost use Rattle.words.specs.rules.Bytes.{byte, bytes_at, put, size_of};
ghost use Rattle.words.specs.rules.Choice.{pick};
ghost use Rattle.stores.specs.rules.Stores.{loaded, words_fed, load_fed, filled};

use words::Unit;

// The bytes of a load, lowest address first; none past the end. One by one: the library's copy of a slice into one that may be the same stretch needs a
// function of the C library, `memmove`, which a rig without one would have to give.
fn copy(memory: &mut [u8], place: usize, bytes: &[u8])
    ensures { memory.new ≡ loaded memory.old place bytes.now }
{
    if memory.len() <= place {
        return;
    }
    let n = bytes.len().min(memory.len() - place);
    for i in 0..n {
        memory[place + i] = bytes[i];
    }
}

// What the data of a load feed: a word at a time, of the last only the bytes that are left.
fn feed_data(checksum: u32, bytes: &[u8]) -> u32
    ensures { result ≡ words_fed checksum ((length bytes.now + 3) / 4) bytes.now }
{
    let mut reached = checksum;
    for word in bytes.chunks(4) {
        reached = checksum::feed(reached, words::number_of(word), word.len() as u32);
    }
    reached
}

// What the data of a load feed once they are copied: taken from their place, so that they are taken from where they came only once.
fn feed_copied(checksum: u32, memory: &[u8], place: usize, bytes: &[u8]) -> u32
    requires { place + length bytes.now ≤ length memory.now → bytes_at memory.now place (length bytes.now) ≡ bytes.now }
    ensures { result ≡ words_fed checksum ((length bytes.now + 3) / 4) bytes.now }
{
    if words::is_inside(memory.len(), place, bytes.len()) {
        let end = place + bytes.len();
        return feed_data(checksum, &memory[place..end]);
    }
    feed_data(checksum, bytes)
}

// Does a load that was granted: its bytes at their place; the answer is the checksum.
pub fn load(
    memory: &mut [u8],
    place: usize,
    on: bool,
    checksum: u32,
    address: u32,
    bytes: &[u8],
) -> u32
    ensures value { result ≡ pick on (load_fed checksum address bytes.now) checksum }
    ensures memory_after { memory.new ≡ loaded memory.old place bytes.now }
{
    copy(memory, place, bytes);
    if on {
        let size = (bytes.len() % 4294967296) as u32;
        let head = checksum::feed_word(checksum::feed_word(checksum, address), size);
        return feed_copied(head, memory, place, bytes);
    }
    checksum
}

// The word that has the low unit of a pattern in each of its places.
fn widened(unit: Unit, pattern: u32) -> u32
    ensures { (i : ℕ) → byte result (i % 4) ≡ byte pattern (i % size_of unit) }
{
    match unit {
        Unit::One => (pattern % 256) * 0x0101_0101,
        Unit::Two => (pattern % 65536) * 0x0001_0001,
        Unit::Four => pattern,
    }
}

// A word again and again, each above the one before.
fn fill_words(memory: &mut [u8], place: usize, count: usize, word: u32)
    requires { place + 4 * count ≤ length memory.old }
    ensures { memory.new ≡ filled memory.old place (4 * count) Unit.Four word }
{
    for i in 0..count {
        words::write(memory, place + 4 * i, Unit::Four, word);
    }
}

// The low bytes of a word, at most four; none past the end.
fn put_low(memory: &mut [u8], place: usize, count: usize, word: u32)
    requires { count ≤ 4 }
    ensures { memory.new ≡ put memory.old place count (byte word) }
{
    copy(memory, place, &word.to_le_bytes()[..count]);
}

// The pattern's unit again and again: words of whole units, then the low bytes of one more; none past the end.
pub fn fill_bytes(memory: &mut [u8], place: usize, size: u32, unit: Unit, pattern: u32)
    ensures { memory.new ≡ filled memory.old place size unit pattern }
{
    if memory.len() <= place {
        return;
    }
    let word = widened(unit, pattern);
    let n = (size as usize).min(memory.len() - place);
    let whole = n / 4;
    fill_words(memory, place, whole, word);
    put_low(memory, place + 4 * whole, n % 4, word);
}
