// Events written into lent room, two words each: kind and value, little-endian, one after the other.
#![tactic(auto)]

ghost use Rattle.std.specs.Prelude.{◌≡◌, length};
ghost use Rattle.opcodes.specs.rules.Answers.{told};
ghost use Rattle.event_room.specs.rules.Room.{place_after, room_after};

use opcodes::Event;
use words::Unit;

// Writes an event at a place of the room, if its eight bytes fit, and says where the next one goes. Nothing is no event.
pub fn tell(room: &mut [u8], place: usize, event: Event) -> usize
    ensures value { result ≡ place_after (length room.old) place (told event) }
    ensures room_after { room.new ≡ room_after room.old place (told event) }
{
    let kind = event.kind();
    if kind == 0 {
        return place;
    }
    if room.len() < 8 || room.len() - 8 < place {
        return place;
    }
    words::write(room, place, Unit::Four, kind as u32);
    words::write(room, place + 4, Unit::Four, event.value());
    place + 8
}
