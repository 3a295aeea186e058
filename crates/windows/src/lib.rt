// Windows: what a map grants, which maps are good, and where a granted range lies in the lent memory.
#![tactic(auto)]

ghost use Rattle.std.specs.Prelude.{◌≡◌, ◌≤◌, length};
ghost use Rattle.windows.specs.rules.Window.{has_right, end_of, inside, holds_address, grants_range, carries_on, place_of, sum_of};
ghost use Rattle.windows.specs.rules.Map.{sound_window, sound_and_rising, good_map, kept_of};

// A stretch of addresses, and the sum of the numbers of its rights.
#[derive(Clone, Copy, Debug, PartialEq, Eq)]
pub struct Window {
    pub first: u32,
    pub length: u32,
    pub rights: u32,
}

impl Window {
    // A window past a map's count: all zero.
    pub const NONE: Window = Window {
        first: 0,
        length: 0,
        rights: 0,
    };
}

// What a window may be used for.
#[derive(Clone, Copy, Debug, PartialEq, Eq)]
pub enum Right {
    Load,
    Set,
    Entry,
}

// Has the window the right?
fn has(window: Window, right: Right) -> bool
    ensures { result ≡ has_right window right }
{
    match right {
        Right::Load => window.rights % 2 == 1,
        Right::Set => window.rights / 2 % 2 == 1,
        Right::Entry => window.rights / 4 % 2 == 1,
    }
}

// The end of a window, in 64 bits: it may be 2^32.
fn end_of(window: Window) -> u64
    ensures { result ≡ end_of window }
{
    (window.first as u64) + (window.length as u64)
}

// Is the address inside the window?
#[tactic(auto, unfolding(crate::specs::rules::Window::inside))]
fn is_inside(window: Window, address: u32) -> bool
    ensures { result ≡ inside window address }
{
    window.first <= address && (address as u64) < end_of(window)
}

// Has the window the right, and the address inside it?
fn holds(window: Window, right: Right, address: u32) -> bool
    ensures { result ≡ holds_address window right address }
{
    has(window, right) && is_inside(window, address)
}

// Does the window alone grant the right to a range of size bytes at an address?
#[tactic(auto, unfolding(crate::specs::rules::Window::grants_range))]
pub fn grants(window: Window, right: Right, address: u32, size: u32) -> bool
    ensures { result ≡ grants_range window right address size }
{
    holds(window, right, address) && (address as u64) + (size as u64) <= end_of(window)
}

// The most windows of a map, and the most bytes of its memory.
pub const MOST_WINDOWS: usize = 8;

pub const MOST_MEMORY: usize = 65536;

// Do windows carry on from an address to an end? Each begins where the one before ends, and has the right.
fn carries_on(windows: &[Window], right: Right, from: u64, end: u64) -> bool
    ensures { result ≡ carries_on windows.now right from end }
{
    let mut reached = from;
    for window in windows {
        if end <= reached {
            return true;
        }
        if (window.first as u64) != reached || !has(*window, right) {
            return false;
        }
        reached = end_of(*window);
    }
    end <= reached
}

// Where a range lies in the lent memory, by the first chain of windows that grants it, if one does. The first window is asked by itself, before the others are
// gone through.
pub fn locate(windows: [Window; 8], right: Right, address: u32, size: u32) -> Option<usize>
    ensures { result ≡ place_of windows right address size }
{
    let first = windows[0];
    if grants(first, right, address, size) {
        return Some((address - first.first) as usize);
    }
    go_through(windows, right, address, size)
}

// The same, window by window. Most ranges end inside the window that holds their address.
fn go_through(windows: [Window; 8], right: Right, address: u32, size: u32) -> Option<usize>
    ensures { result ≡ place_of windows right address size }
{
    let end = (address as u64) + (size as u64);
    let mut base: usize = 0;
    for (i, window) in windows.iter().enumerate() {
        if holds(*window, right, address) {
            let place = base + ((address - window.first) as usize);
            let reached = end_of(*window);
            if end <= reached {
                return Some(place);
            }
            if carries_on(&windows[i + 1..], right, reached, end) {
                return Some(place);
            }
        }
        base += window.length as usize;
    }
    None
}

// How many bytes some windows have together.
fn sum_some(windows: &[Window]) -> usize
    requires { length windows.now ≤ 8 }
    ensures { result ≡ sum_of windows.now }
{
    windows.iter().map(|window| window.length as usize).sum()
}

// How many bytes all of them have: the length of the lent memory.
pub fn sum(windows: [Window; 8]) -> usize
    ensures { result ≡ sum_of windows }
{
    sum_some(&windows)
}

// The first count windows; those past them become all zero. Each is looked at, so that the compiler may choose it field by field.
pub fn kept(count: usize, windows: [Window; 8]) -> [Window; 8]
    ensures { result ≡ kept_of count windows }
{
    let mut left = windows;
    for i in 0..MOST_WINDOWS {
        if count <= i {
            left[i] = Window::NONE;
        }
    }
    left
}

// Is the window sound by itself?
#[tactic(auto, unfolding(crate::specs::rules::Map::sound_window))]
fn is_sound(window: Window) -> bool
    ensures { result ≡ sound_window window }
{
    0 < window.length && end_of(window) <= 4294967296 && 1 <= window.rights && window.rights <= 7
}

// Are windows sound, and do they rise with no overlap?
#[tactic(auto, unfolding(crate::specs::rules::Map::all_sound, crate::specs::rules::Map::rising))]
fn sound_and_rising(windows: &[Window]) -> bool
    ensures { result ≡ sound_and_rising 0 windows.now }
{
    let mut end: u64 = 0;
    for window in windows {
        if (window.first as u64) < end || !is_sound(*window) {
            return false;
        }
        end = end_of(*window);
    }
    true
}

// Is the map of the first count windows good?
#[tactic(auto, unfolding(crate::specs::rules::Map::good_map))]
pub fn is_good(count: usize, windows: [Window; 8]) -> bool
    ensures { result ≡ good_map count windows }
{
    if count < 1 || MOST_WINDOWS < count {
        return false;
    }
    let first = &windows[..count];
    sound_and_rising(first) && sum_some(first) <= MOST_MEMORY
}
