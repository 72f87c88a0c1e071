// One bar, and the end of a run.
ghost use Rattle.std.specs.Prelude.{◌≡◌};
ghost use Rattle.records.specs.Lent.{rooms, lists};
ghost use Rattle.stepping.specs.Bars.{step_call};
ghost use Rattle.capi.specs.Finish.{finish_call};

use crate::calls::judge_ending;
use crate::figures::put_metrics;
use records::settings::settings_of;
use records::state_words::{put_state, state_of};
use refusals::day::Span;
use refusals::lists::Lists;
use replies::answer_word;
use stepping::day::call_bars;

// One bar.
#[unsafe(no_mangle)]
pub extern "C" fn ysh_step<'a>(
    settings: &[u64],
    state: &mut [u64],
    bar: &[u64],
    rows: &mut [u64],
    equity: &mut [u64],
    trades: &mut [u64],
    entry: &[u8],
    exit: &'a [u8],
    short_entry: &[u8],
    short_exit: &'a [u8],
) -> u64
    ensures { step_call settings.now state.entry.now bar.now
        (rooms rows.old equity.old trades.old)
        (lists entry.now «exit».now short_entry.now short_exit.now)
        ≡ record {
          answer = result;
          lent = record { state = state.exit.now; rooms = rooms rows.new equity.new trades.new };
        } }
{
    let mut done: u64 = 0;
    call_bars(
        Span::One,
        settings,
        state,
        bar,
        rows,
        equity,
        trades,
        Lists {
            entry,
            exit,
            short_entry,
            short_exit,
        },
        &mut done,
    )
}

// The end of a run: an open position is closed, the last equity point counts its fee, and the metrics are given.
#[unsafe(no_mangle)]
pub extern "C" fn ysh_finish(
    settings: &[u64],
    state: &mut [u64],
    rows: &[u64],
    equity: &mut [u64],
    trades: &mut [u64],
    metrics: &mut [u64],
) -> u64
    ensures { finish_call settings.now state.entry.now
        (rooms rows.now equity.old trades.old) metrics.old
        ≡ record {
          answer = result;
          lent = record {
            state = state.exit.now;
            equity = equity.new;
            trades = trades.new;
            metrics = metrics.new;
          };
        } }
{
    let chosen = settings_of(settings);
    if let Err(refusal) = judge_ending(chosen, settings, state, rows, metrics) {
        return answer_word(refusal);
    }
    let finished = ending::finish(chosen, state_of(state), rows, equity, trades);
    match finished {
        Err((refusal, _)) => answer_word(refusal),
        Ok(ended) => {
            put_state(state, ended.state);
            put_metrics(metrics, ended.metrics);
            0
        }
    }
}
