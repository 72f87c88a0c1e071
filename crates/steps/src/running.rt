// A list of steps from anywhere, run over rows: refused where it, the rows or the position state are not as the papers say.
ghost use Rattle.std.specs.Prelude.{◌≡◌};
ghost use Rattle.steps.specs.Running.{runs};

use crate::machine::Ran;
use crate::{machine, wellformed};
use rules::answers;
use rules::position::PositionState;
use words::limits::{MOST_ROWS, MOST_SLOTS};
use words::refusal::Refusal;

// The numbers of these two settings.
pub const SETTING_SLOTS: u64 = 0;

pub const SETTING_DEPTH: u64 = 1;

// Runs a list over rows of `slots` slots, with a window of `depth` rows.
pub fn run(
    list: &[u8],
    rows: &[u64],
    slots: usize,
    depth: usize,
    s: PositionState,
) -> Result<Ran, Refusal>
    ensures { result ≡ runs list.now rows.now slots depth s }
{
    if MOST_SLOTS < slots {
        return Err(Refusal::Setting(SETTING_SLOTS));
    }
    if depth < 1 {
        return Err(Refusal::Setting(SETTING_DEPTH));
    }
    if MOST_ROWS < depth {
        return Err(Refusal::Setting(SETTING_DEPTH));
    }
    if rows::are_whole(rows, slots) {
        if answers::state_right(s) {
            match wellformed::check(list, slots as u64, depth as u64) {
                Ok(()) => return Ok(machine::run(list, rows, slots, s)),
                Err(p) => return Err(Refusal::Steps(p as u64)),
            }
        }
    }
    Err(Refusal::Records)
}
