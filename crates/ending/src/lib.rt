#![tactic(auto)]
// The end of a run: the Rust's `finish`. What it comes to is defined in the crate engine, beside a bar.
mod closing;

ghost use Rattle.std.specs.Prelude.{Result};
ghost use Rattle.records.specs.Lent.{rooms};
ghost use Rattle.engine.specs.Finish.{finish_of};
ghost use Rattle.engine.specs.Step.{Is};

use engine::answer::Ended;
use records::settings::Settings;
use records::state::State;
use words::refusal::Refusal;

// The end of a run: an open position is closed at the last close, the last equity point counts its fee, and the figures are made. Of
// the rows nothing is read: they are handed over so that the state is judged by all the rooms that it counts.
pub fn finish(
    s: Settings,
    t: State,
    rows: &[u64],
    equity: &mut [u64],
    trades: &mut [u64],
) -> Result<Ended, (Refusal, State)>
    ensures { Is (Result Ended (Refusal × State)) (finish_of s t (rooms rows.now equity.old trades.old))
        result rows.now equity.new trades.new }
{
    let verdict = refusals::judge_finish(s, t, rows, equity, trades);
    match verdict {
        Err(refusal) => Err((refusal, t)),
        Ok(()) => {
            let ended = closing::conclude(s, t, rows, equity, trades);
            let state = ended.state;
            let metrics = ended.metrics;
            Ok(Ended {
                state: state,
                metrics: metrics,
            })
        }
    }
}
