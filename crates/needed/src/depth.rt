// How many rows a rule needs, so that the row room can be measured before anything runs.
ghost use Rattle.std.specs.Prelude.{◌≡◌, ◌<◌};
ghost use Rattle.table.specs.Checked.{checked};
ghost use Rattle.table.specs.Depth.{row_bytes};
ghost use Rattle.needed.specs.Depth.{depth_answer};

use table::answer::Accepted;
use table::check;
use table::header::slots;
use words::limits::MOST_REACH;
use words::refusal::Refusal;

// The rows that a window has to have, the bytes of a row, and of all of them.
#[derive(Clone, Copy)]
pub struct Needs {
    pub rows: u64,
    pub row: u64,
    pub window: u64,
}

// The number of that setting.
pub const SETTING_LOOKBACK: u64 = 7;

// How many bytes a row of a table's width takes.
fn row_bytes(t: &[u8]) -> u64
    ensures { (result ≡ row_bytes t.now) × (result < 4096) }
{
    8 * (7 + slots(t) as u64)
}

// The rows that the rules of a table need beside a volatility target's lookback, which is 0 where there is none.
pub fn depth(t: &[u8], lookback: u64) -> Result<Needs, Refusal>
    ensures { result ≡ depth_answer (checked t.now) t.now lookback }
{
    let checked = check(t);
    let answer = checked.answer;
    match answer {
        Err(refusal) => Err(refusal),
        Ok(Accepted { nodes: _, rows }) => {
            if MOST_REACH < lookback {
                return Err(Refusal::Setting(SETTING_LOOKBACK));
            }
            let needed = rows.max(lookback + 1);
            let row = row_bytes(t);
            Ok(Needs {
                rows: needed,
                row,
                window: needed * row,
            })
        }
    }
}
