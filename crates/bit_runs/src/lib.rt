// The run that the bits program tells of: an image in the check program's window, and beside the chosen words two rows of entries. In one
// stands the number of the command that wrote each bit last, in the other that command's offset in the image.
#![tactic(auto)]

ghost use Rattle.std.specs.Prelude.{◌≡◌};
ghost use Rattle.bit_runs.specs.rules.Runs.{left_by};

use bit_choice::Chosen;
use flash_session::Session;
use opcodes::{Dialect, Refusal};

// How the run ended, the offset of its last command, and the chosen words.
#[derive(Clone, Copy)]
pub struct Traced {
    pub refusal: Option<Refusal>,
    pub at: u32,
    pub chosen: Chosen,
}

// Opens and runs an image, with the words of a lent list of addresses watched; where they are refused nothing is run.
pub fn run(
    list: &[u8],
    image: &[u8],
    memory: &mut [u8],
    numbers: &mut [u8],
    offsets: &mut [u8],
) -> Result<Traced, Refusal>
    ensures value { result ≡ (left_by list.now image.now memory.old numbers.old offsets.old).traced }
    ensures memory_after { memory.new ≡ (left_by list.now image.now memory.old numbers.old offsets.old).memory }
    ensures numbers_after { numbers.new ≡ (left_by list.now image.now memory.old numbers.old offsets.old).numbers }
    ensures offsets_after { offsets.new ≡ (left_by list.now image.now memory.old numbers.old offsets.old).offsets }
{
    let windows = checking::windows();
    let choice = bit_choice::choose(windows, list);
    if choice.refusal.is_some() {
        return Err(Refusal::Chosen);
    }
    let chosen = choice.chosen;
    let places = chosen.places;
    let opened = Session::open_numbering(Dialect::Am17xx, 1, windows, image, 0);
    let mut room = [0u8; 0];
    let ran = flash_runs::run_from(
        opened,
        chosen.count,
        &places,
        memory,
        image,
        numbers,
        offsets,
        &mut room,
    );
    Ok(Traced {
        refusal: ran.called.refusal,
        at: ran.called.at,
        chosen,
    })
}
