// Words chosen for their bits to be watched: which lists of them are taken, and where each word lies in the lent memory.
#![tactic(auto)]

ghost use Rattle.std.specs.Prelude.{◌≡◌, ◌-◌, ◌≤◌, length};
ghost use Rattle.windows.specs.claims.Touching.{one_grants};
ghost use Rattle.bit_choice.specs.rules.Chosen.{may_be_chosen, among, addresses_from, all_fit, good_choice, word_place, places_of, chosen_of, taken, not_taken};
ghost use Rattle.bit_choice.specs.rules.Chosen.{choice_of};

use opcodes::Refusal;
use windows::{Right, Window};

// The most words that may be chosen.
pub const MOST_CHOSEN: usize = 64;

// The chosen words: how many they are, and the place of each in the lent memory.
#[derive(Clone, Copy, Debug, PartialEq, Eq)]
pub struct Chosen {
    pub count: usize,
    pub places: [usize; 64],
}

// A list that is taken, and the words of it; or why it is refused, and none.
#[derive(Clone, Copy)]
pub struct Choice {
    pub refusal: Option<Refusal>,
    pub chosen: Chosen,
}

// Does one window by itself grant the setting of the word at an address?
fn in_one_window(windows: [Window; 8], address: u32) -> bool
    ensures { result ≡ one_grants windows Right.Set address 4 }
{
    windows
        .iter()
        .any(|window| windows::grants(*window, Right::Set, address, 4))
}

// Is the word at an address one to be chosen?
#[tactic(auto, unfolding(crate::specs::rules::Chosen::may_be_chosen))]
fn may_be_chosen(windows: [Window; 8], address: u32) -> bool
    ensures { result ≡ may_be_chosen windows address }
{
    address % 4 == 0 && in_one_window(windows, address)
}

// Is an address among those of a list from an index on?
fn comes_again(bytes: &[u8], count: usize, next: usize, address: u32) -> bool
    requires { count ≤ 64 }
    ensures { result ≡ among address (addresses_from bytes.now next (count - next)) }
{
    for i in next..count {
        if words::word_at(bytes, 4 * i) == address {
            return true;
        }
    }
    false
}

// Is each word one to be chosen, and none chosen again?
fn all_fit(windows: [Window; 8], bytes: &[u8], count: usize) -> bool
    requires { count ≤ 64 }
    ensures { result ≡ all_fit windows (addresses_from bytes.now 0 count) }
{
    for i in 0..count {
        let address = words::word_at(bytes, 4 * i);
        if !may_be_chosen(windows, address) || comes_again(bytes, count, i + 1, address) {
            return false;
        }
    }
    true
}

// Is the list one of whole words, not too many, that may all be chosen?
#[tactic(auto, unfolding(crate::specs::rules::Chosen::good_choice))]
fn is_good(windows: [Window; 8], bytes: &[u8]) -> bool
    ensures { result ≡ good_choice windows bytes.now }
{
    let count = bytes.len() / 4;
    if bytes.len() % 4 != 0 || MOST_CHOSEN < count {
        return false;
    }
    all_fit(windows, bytes, count)
}

// Where a word that may be set lies in the lent memory; 0 for any other.
#[tactic(auto, unfolding(crate::specs::rules::Chosen::word_place))]
fn place_of(windows: [Window; 8], address: u32) -> usize
    ensures { result ≡ word_place windows address }
{
    windows::locate(windows, Right::Set, address, 4).unwrap_or(0)
}

// The places of the first count words, and 0 past them.
fn places_of(windows: [Window; 8], bytes: &[u8], count: usize) -> [usize; 64]
    requires { count ≤ 64 }
    ensures { result ≡ places_of windows (addresses_from bytes.now 0 count) }
{
    let mut places = [0usize; 64];
    for i in 0..count {
        places[i] = place_of(windows, words::word_at(bytes, 4 * i));
    }
    places
}

// A list that is refused: none is chosen.
fn not_taken() -> Choice
    ensures { result ≡ not_taken }
{
    let places = [0usize; 64];
    Choice {
        refusal: Some(Refusal::Chosen),
        chosen: Chosen { count: 0, places },
    }
}

// A list that is taken.
fn taken_of(windows: [Window; 8], bytes: &[u8], count: usize) -> Choice
    requires { count ≤ 64 }
    ensures { result ≡ taken windows count (addresses_from bytes.now 0 count) }
{
    let places = places_of(windows, bytes, count);
    Choice {
        refusal: None,
        chosen: Chosen { count, places },
    }
}

// The words of a lent list of addresses, or 24.
pub fn choose(windows: [Window; 8], bytes: &[u8]) -> Choice
    ensures { result ≡ choice_of windows bytes.now }
{
    if is_good(windows, bytes) {
        let count = bytes.len() / 4;
        return taken_of(windows, bytes, count);
    }
    not_taken()
}
