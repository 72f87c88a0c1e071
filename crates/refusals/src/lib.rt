#![tactic(auto)]
// Refusals 10 to 15: whether what a call is handed can be used. The lines of the table of refusals are judged in the paper's order,
// and the first that does not hold decides.
pub mod bar;
pub mod day;
pub mod entries;
pub mod lists;
pub mod rooms;
pub mod setting;
pub mod verdict;

ghost use Rattle.std.specs.Prelude.{◌≡◌};
ghost use Rattle.records.specs.Lent.{rooms};
ghost use Rattle.refusals.specs.Judgement.{finish_judged};

use records::settings::Settings;
use records::state::State;
use verdict::Verdict;

// Whether a run can be finished.
pub fn judge_finish(s: Settings, t: State, rows: &[u64], equity: &[u64], trades: &[u64]) -> Verdict
    ensures { result ≡ finish_judged s t (rooms rows.now equity.now trades.now) }
{
    rooms::judge_room(s, rows)?;
    setting::judge_settings(s)?;
    rooms::judge_state(s, t, rows, equity, trades)?;
    rooms::judge_close(t, trades)
}
