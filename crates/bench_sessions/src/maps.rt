// A map lent as bytes.
ghost use Rattle.std.specs.Prelude.{◌≡◌, ◌<◌};
ghost use Rattle.bench_sessions.specs.rules.Map.{window_at, windows_of, count_of};

use windows::Window;

// A window of the map; words past its end count as 0, and where it is all past the end none is looked for.
fn window_at(map: &[u8], i: usize) -> Window
    requires { i < 8 }
    ensures { result ≡ window_at map.now i }
{
    if map.len() <= 12 * i {
        return Window {
            first: 0,
            length: 0,
            rights: 0,
        };
    }
    let first = words::word_at(map, 12 * i);
    let length = words::word_at(map, 12 * i + 4);
    let rights = words::word_at(map, 12 * i + 8);
    Window {
        first,
        length,
        rights,
    }
}

// The eight windows that a session may hold.
pub fn windows_of(map: &[u8]) -> [Window; 8]
    ensures { result ≡ windows_of map.now }
{
    [
        window_at(map, 0),
        window_at(map, 1),
        window_at(map, 2),
        window_at(map, 3),
        window_at(map, 4),
        window_at(map, 5),
        window_at(map, 6),
        window_at(map, 7),
    ]
}

// How many windows the map has; none where it is not of whole windows.
pub fn count_of(map: &[u8]) -> usize
    ensures { result ≡ count_of map.now }
{
    if map.len() % 12 == 0 {
        return map.len() / 12;
    }
    0
}
