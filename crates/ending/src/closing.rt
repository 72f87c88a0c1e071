// The end of a run: the last trade and the figures.
ghost use Rattle.std.specs.Prelude.{◌≡◌};
ghost use Rattle.records.specs.Lent.{rooms};
ghost use Rattle.engine.specs.Finish.{last_exit, remarked, end_state, measured, ended};
ghost use Rattle.engine.specs.Step.{Is};

use engine::answer::Ended;
use engine::{account, record};
use execution::costs;
use metrics::Metrics;
use portfolio::{Closed, END};
use records::settings::Settings;
use records::state::{Counts, State};

// The exit at the last close, where a position is open and a bar was seen.
fn last_exit(s: Settings, t: State) -> Option<Closed>
    ensures { result ≡ last_exit s t }
{
    if refusals::rooms::to_close(t) {
        let terms = s.terms;
        let position = t.position;
        let account = position.portfolio;
        let last = t.last;
        return Some(costs::close(account, last.close, last.time, terms.taker_bps, END));
    }
    None
}

// The last equity point, where there is one, becomes the equity after closing; its time stays.
fn remark(equity: &mut [u64], n: usize, exit: Option<Closed>, close: f64)
    ensures { equity.new ≡ remarked equity.old n «exit» close }
{
    match exit {
        None => {}
        Some(c) => {
            if n == 0 {
                return;
            }
            if equity.len() / words::limits::POINT_WORDS < n {
                return;
            }
            let account = c.portfolio;
            let at = (n - 1) * words::limits::POINT_WORDS + 1;
            equity[at] = floats::word_of(account.equity(close));
        }
    }
}

// The state with its position left and its trades counted anew.
fn end_state(t: State, exit: Option<Closed>, trades: usize) -> State
    ensures { result ≡ end_state t «exit» trades }
{
    let n = t.counts;
    let order = t.order;
    let open = t.position;
    let last = t.last;
    let position = account::leaving(open, exit);
    State {
        counts: Counts {
            bars_seen: n.bars_seen,
            rows_held: n.rows_held,
            equity_points: n.equity_points,
            trades,
        },
        order,
        position,
        last,
    }
}

// The figures over the points and trades that the rooms hold.
fn measure(s: Settings, equity: &[u64], points: usize, trades: &[u64], count: usize) -> Metrics
    ensures { result ≡ measured s equity.now points trades.now count }
{
    let marked = record::first_records(equity, points, words::limits::POINT_WORDS);
    let closed = record::first_records(trades, count, words::limits::TRADE_WORDS);
    metrics::metrics_of(s.capital, marked, closed)
}

// The end of a run that was judged fine.
pub(crate) fn conclude(
    s: Settings,
    t: State,
    rows: &[u64],
    equity: &mut [u64],
    trades: &mut [u64],
) -> Ended
    ensures { Is Ended (ended s t (rooms rows.now equity.old trades.old))
        result rows.now equity.new trades.new }
{
    let n = t.counts;
    let last = t.last;
    let exit = last_exit(s, t);
    let count = account::book(trades, n.trades, exit);
    remark(equity, n.equity_points, exit, last.close);
    let state = end_state(t, exit, count);
    let metrics = measure(s, equity, n.equity_points, trades, count);
    Ended { state, metrics }
}
