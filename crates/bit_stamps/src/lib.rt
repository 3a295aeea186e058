// The numbers beside chosen words of memory: which command wrote each of their bits last.
#![tactic(auto)]

ghost use Rattle.std.specs.Prelude.{◌≡◌, ℕ, ◌+◌, ◌-◌, ◌*◌, ◌%◌, ◌^◌, ◌≤◌, ◌<◌, min, take};
ghost use Rattle.words.specs.rules.Bytes.{byte, put};
ghost use Rattle.commands.specs.rules.Wrote.{first_bit};
ghost use Rattle.bit_stamps.specs.rules.Stamps.{stamped, word_stamped};

use commands::Wrote;

// The entries of some bits, one after the other from a byte on; past the end nothing.
fn stamp_bits(entries: &mut [u8], at: usize, count: usize, number: u32)
    requires { at + 2 * count ≤ 2 ^ 64 }
    ensures { entries.new ≡ put entries.old at (2 * count) (λ (i : ℕ). byte number (i % 2)) }
{
    let low = words::byte_of(number, 0);
    let high = words::byte_of(number, 1);
    for i in 0..count {
        words::put_byte(entries, at + 2 * i, low);
        words::put_byte(entries, at + 2 * i + 1, high);
    }
}

// How many bits of a word lie below one that is so many bytes and bits above its first.
fn bits_up_to(bytes: usize, bits: usize) -> usize
    ensures { result ≡ min 32 (8 * bytes + bits) }
{
    if 4 <= bytes || 32 <= bits {
        return 32;
    }
    (8 * bytes + bits).min(32)
}

// How many bits of the word at a place lie below the one that is so many bits above the first of the byte at another.
fn bits_below(word: usize, place: usize, bits: usize) -> usize
    ensures { result ≡ min 32 (8 * place + bits - 8 * word) }
{
    if word <= place {
        return bits_up_to(place - word, bits);
    }
    let under = word - place;
    if bits / 8 < under {
        return 0;
    }
    (bits - 8 * under).min(32)
}

// How many bits of the word at a place lie below the end of those written; the whole bytes of their count are taken off the word's place.
fn bits_below_end(word: usize, wrote: Wrote) -> usize
    ensures { result ≡ min 32 (first_bit wrote + wrote.count - 8 * word) }
{
    let place = wrote.place;
    let whole = wrote.count / 8;
    let rest = (wrote.start as usize) + wrote.count % 8;
    if whole <= word {
        return bits_below(word - whole, place, rest);
    }
    if 4 <= place {
        return 32;
    }
    bits_below(0, place + (whole - word), rest)
}

// The entries of one chosen word, by its place in memory.
fn stamp_word(entries: &mut [u8], index: usize, word: usize, wrote: Wrote)
    requires { index < 2 ^ 58 }
    ensures { entries.new ≡ word_stamped entries.old index word wrote }
{
    let from = bits_below(word, wrote.place, wrote.start as usize);
    let to = bits_below_end(word, wrote);
    if to <= from {
        return;
    }
    stamp_bits(entries, 64 * index + 2 * from, to - from, wrote.number);
}

// The entries of the first count chosen words, one after the other; past the last word, or past the end of the entries, there are none.
fn stamp_words(entries: &mut [u8], count: usize, places: &[usize], wrote: Wrote)
    ensures { entries.new ≡ stamped entries.old (take count places.now) wrote }
{
    let most = count.min(places.len()).min(entries.len() / 64 + 1);
    for (i, word) in places[..most].iter().enumerate() {
        stamp_word(entries, i, *word, wrote);
    }
}

// Gives the number of the command to the entries of the bits that it wrote; all others are kept. Where none was written, no word is looked at.
pub fn stamp(entries: &mut [u8], count: usize, places: &[usize], wrote: Wrote)
    ensures { entries.new ≡ stamped entries.old (take count places.now) wrote }
{
    if wrote.count == 0 {
        return;
    }
    stamp_words(entries, count, places, wrote);
}
