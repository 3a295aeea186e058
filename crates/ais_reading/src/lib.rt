// What programs read: standard input or a file, as far as a room goes.
#![tactic(auto)]

ghost use Rattle.std.specs.Io.{ReadsAtMost};

use std::io;
use std::io::Read;

// Reads until the room is full or nothing is left, and answers how many bytes stand at the front of the room.
pub fn read_full(reader: &mut impl Read, room: &mut [u8]) -> io::Result<usize>
    ensures { ReadsAtMost result room.new }
{
    let mut have: usize = 0;
    while have < room.len() {
        let more = reader.read(&mut room[have..])?;
        if more == 0 {
            break;
        }
        have += more;
    }
    Ok(have)
}

// Reads standard input so.
pub fn read_input(rt: &impl Input, room: &mut [u8]) -> io::Result<usize>
    ensures { ReadsAtMost result room.new }
{
    let mut reader = rt.reader();
    read_full(&mut reader, room)
}
