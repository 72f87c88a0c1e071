#![tactic(auto)]
// An image: the bytes that a dump writes, and how they are read back. Nothing is read before all of it is judged.
mod body;
mod judge;
pub mod layout;
pub mod reader;

ghost use Rattle.images.specs.Restoring.{Restores};

use records::settings::Settings;
use records::state::State;
use words::refusal::Refusal;

// The state that an image holds, and its window over the first words of the row room.
pub fn restore(s: Settings, image: &[u8], rows: &mut [u64]) -> Result<State, Refusal>
    ensures { Restores s image.now rows.old result rows.new }
{
    judge::judge_restore(s, image, rows)?;
    reader::read_window(image, rows);
    Ok(reader::state_in(image))
}
