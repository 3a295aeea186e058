// A line of the register of option fields: how it is read from a text, what it names in a release, and when two lines clash.
#![tactic(auto)]

ghost use Rattle.std.specs.Prelude.{◌≡◌, ◌==◌, ◌≤◌, ◌<◌, length, position, IfSome, IsTrue, ◌↔◌, EachIndex, slice_index};
ghost use Rattle.field_lines.specs.rules.Text.{same as same_bytes, zero_leads, decimal_of, address_of, is_name, name_of};
ghost use Rattle.field_lines.specs.rules.Pairs.{stands as key_stands, closed_at, value_at, decimal_pair, word_pair, field_pair};
ghost use Rattle.field_lines.specs.rules.Lines.{in_order, no_line, line_at};
ghost use Rattle.field_lines.specs.rules.Clashes.{lasts as line_lasts, in_force, has_bit, share_release, share_bit, clash as lines_clash};

// A field of a word, and the releases that have it: from since on up to until, 0 where it is still in force.
#[derive(Clone, Copy)]
pub struct FieldLine {
    pub name: [u8; 16],
    pub word: u32,
    pub start: u32,
    pub stop: u32,
    pub since: u32,
    pub until: u32,
}

impl FieldLine {
    // Are its pairs right together?
    #[tactic(auto, unfolding(crate::specs::rules::Lines::in_order))]
    fn is_in_order(self) -> bool
        ensures { result ≡ in_order self }
    {
        self.word % 4 == 0
            && self.start <= self.stop
            && (self.until == 0 || self.since <= self.until)
    }

    // Is a release none after the line's last?
    #[tactic(auto, unfolding(crate::specs::rules::Clashes::lasts))]
    fn lasts(self, release: u32) -> bool
        ensures { result ≡ line_lasts self release }
    {
        self.until == 0 || release <= self.until
    }

    // Is the line in force in a release?
    #[tactic(auto, unfolding(crate::specs::rules::Clashes::in_force))]
    pub fn is_in_force(self, release: u32) -> bool
        ensures { result ≡ in_force self release }
    {
        self.since <= release && self.lasts(release)
    }

    // Is a bit of a word one of the field's?
    #[tactic(auto, unfolding(crate::specs::rules::Clashes::has_bit))]
    pub fn has_bit(self, word: u32, bit: u32) -> bool
        ensures { result ≡ has_bit self word bit }
    {
        self.word == word && self.start <= bit && bit <= self.stop
    }

    // Does the line have a name?
    #[tactic(auto, unfolding(crate::specs::rules::Text::same))]
    pub fn has_name(self, name: [u8; 16]) -> bool
        ensures { result ≡ same_bytes self.name name }
    {
        self.name == name
    }

    // Has a release both this line and another?
    #[tactic(auto, unfolding(crate::specs::rules::Clashes::share_release))]
    fn shares_release(self, other: FieldLine) -> bool
        ensures { result ≡ share_release self other }
    {
        self.lasts(other.since) && other.lasts(self.since)
    }

    // Is a bit of one word in both this field and another?
    #[tactic(auto, unfolding(crate::specs::rules::Clashes::share_bit))]
    fn shares_bit(self, other: FieldLine) -> bool
        ensures { result ≡ share_bit self other }
    {
        self.word == other.word && self.start <= other.stop && other.start <= self.stop
    }

    // Does it clash with another line?
    #[tactic(auto, unfolding(crate::specs::rules::Clashes::clash))]
    pub fn clashes_with(self, other: FieldLine) -> bool
        ensures { result ≡ lines_clash self other }
    {
        let name = other.name;
        self.shares_release(other) && (self.has_name(name) || self.shares_bit(other))
    }
}

// A line that stands at a place of a text, and where the next begins.
#[derive(Clone, Copy)]
pub struct Parsed {
    pub line: FieldLine,
    pub next: usize,
}

// What the value of a pair says, and where the next pair begins.
#[derive(Clone, Copy)]
pub struct Pair<T> {
    pub value: T,
    pub next: usize,
}

// Where the value of a pair lies in the text.
#[derive(Clone, Copy)]
pub struct Span {
    pub from: usize,
    pub to: usize,
}

// Does a zero stand before other digits?
#[tactic(auto, unfolding(crate::specs::rules::Text::zero_leads))]
fn zero_leads(s: &[u8]) -> bool
    ensures { result ≡ zero_leads s.now }
{
    1 < s.len() && s[0] == b'0'
}

// A decimal number with no leading zero, in a range.
fn decimal(s: &[u8], least: u32, most: u32) -> Option<u32>
    ensures { result ≡ decimal_of least most s.now }
{
    if zero_leads(s) {
        return None;
    }
    let value = digits::decimal(s, most)?;
    if value < least {
        return None;
    }
    Some(value)
}

// Eight hexadecimal digits.
fn address(s: &[u8]) -> Option<u32>
    ensures { result ≡ address_of s.now }
{
    if s.len() != 8 {
        return None;
    }
    digits::hexadecimal(s, 0xFFFF_FFFF)
}

// Does a key stand at a place of the text?
fn stands(text: &[u8], at: usize, key: &[u8]) -> bool
    ensures { result ≡ key_stands text.now at key.now }
{
    if text.len() < at {
        return false;
    }
    text[at..].starts_with(key)
}

// Where the first such byte stands.
fn place_of(text: &[u8], byte: u8) -> Option<usize>
    ensures place { result ≡ position (λ found. found == byte) text.now }
    ensures inside { IfSome result (λ n. n < length text.now) }
{
    text.iter().position(|found| *found == byte)
}

// Where the first such byte stands from a place on; the text's end where there is none. From a place past the end it is that place.
pub fn find(text: &[u8], from: usize, byte: u8) -> usize
    ensures { result ≡ closed_at text.now from byte }
{
    if text.len() < from {
        return from;
    }
    match place_of(&text[from..], byte) {
        Some(n) => from + n,
        None => text.len(),
    }
}

// Where the value of a pair lies: behind its key, up to the first closing byte.
fn value_at(text: &[u8], at: usize, key: &[u8], close: u8) -> Option<Span>
    ensures value { result ≡ value_at text.now at key.now close }
    ensures inside { IfSome result (λ v. (v.from ≤ v.to) × (v.to < length text.now)) }
{
    if !stands(text, at, key) {
        return None;
    }
    let from = at + key.len();
    let to = find(text, from, close);
    if to < text.len() {
        return Some(Span { from, to });
    }
    None
}

// Are all bytes small letters?
fn are_letters(s: &[u8]) -> bool
    ensures { IsTrue result ↔ EachIndex s.now (λ k. (97 ≤ slice_index s.now k) × (slice_index s.now k ≤ 122)) }
{
    s.iter().all(|byte| b'a' <= *byte && *byte <= b'z')
}

// Are bytes a name: 1 to 16 small letters?
fn is_name(s: &[u8]) -> bool
    ensures { result ≡ is_name s.now }
{
    if s.is_empty() || 16 < s.len() {
        return false;
    }
    are_letters(s)
}

// The name that bytes are: its letters, and zeros behind them.
pub fn name_of(s: &[u8]) -> Option<[u8; 16]>
    ensures { result ≡ name_of s.now }
{
    if !is_name(s) {
        return None;
    }
    let mut name = [0u8; 16];
    name[..s.len()].copy_from_slice(s);
    Some(name)
}

// A key with a decimal number in a range.
fn decimal_pair(
    text: &[u8],
    at: usize,
    key: &[u8],
    least: u32,
    most: u32,
    close: u8,
) -> Option<Pair<u32>>
    ensures { result ≡ decimal_pair key.now least most close text.now at }
{
    let Span { from, to } = value_at(text, at, key, close)?;
    let value = decimal(&text[from..to], least, most)?;
    Some(Pair {
        value,
        next: to + 1,
    })
}

// word=0xADDR
fn word_pair(text: &[u8], at: usize) -> Option<Pair<u32>>
    ensures { result ≡ word_pair text.now at }
{
    let Span { from, to } = value_at(text, at, b"word=0x", b' ')?;
    let value = address(&text[from..to])?;
    Some(Pair {
        value,
        next: to + 1,
    })
}

// field=NAME
fn field_pair(text: &[u8], at: usize) -> Option<Pair<[u8; 16]>>
    ensures { result ≡ field_pair text.now at }
{
    let Span { from, to } = value_at(text, at, b"field=", b' ')?;
    let value = name_of(&text[from..to])?;
    Some(Pair {
        value,
        next: to + 1,
    })
}

// No line.
pub fn no_line() -> FieldLine
    ensures { result ≡ no_line }
{
    FieldLine {
        name: [0u8; 16],
        word: 0,
        start: 0,
        stop: 0,
        since: 0,
        until: 0,
    }
}

// The line that begins at a place of a text: six pairs, each where the one before it ends.
#[tactic(auto, unfolding(crate::specs::rules::Lines::line_at, crate::specs::rules::Lines::parsed_if, words::specs::rules::Choice::pick))]
pub fn line_at(text: &[u8], at: usize) -> Option<Parsed>
    ensures { result ≡ line_at text.now at }
{
    let field = field_pair(text, at)?;
    let word = word_pair(text, field.next)?;
    let start = decimal_pair(text, word.next, b"start=", 0, 31, b' ')?;
    let stop = decimal_pair(text, start.next, b"stop=", 0, 31, b' ')?;
    let since = decimal_pair(text, stop.next, b"since=", 1, 9999, b' ')?;
    let until = decimal_pair(text, since.next, b"until=", 0, 9999, b'\n')?;
    let name = field.value;
    let line = FieldLine {
        name,
        word: word.value,
        start: start.value,
        stop: stop.value,
        since: since.value,
        until: until.value,
    };
    if !line.is_in_order() {
        return None;
    }
    Some(Parsed {
        line,
        next: until.next,
    })
}
