// The phases of a bar.
ghost use Rattle.std.specs.Prelude.{◌≡◌, Err};
ghost use Rattle.records.specs.Lent.{rooms};
ghost use Rattle.refusals.specs.Lists.{lists_of};
ghost use Rattle.records.specs.Settings.{settings_of};
ghost use Rattle.rows.specs.History.{width};
ghost use Rattle.rows.specs.Ring.{turned};
ghost use Rattle.engine.specs.InPlace.{Ready, Turns};
ghost use Rattle.engine.specs.Step.{advanced};

use crate::answer::Advanced;
use crate::{account, decide, record};
use portfolio::Candle;
use records::settings::Settings;
use records::state::{Counts, Last, Order, Position, State};
use refusals::day::Span;
use refusals::lists::Lists;
use rows::ring::Ring;
use words::refusal::Refusal;

// 16: an entry that is due cannot be sized. The state is the one that was given, and no row moves.
fn not_sized(t: State, start: usize) -> Advanced
    ensures { result ≡ record { answer = Err ((Refusal.Quantity t.counts.bars_seen), t); start = start } }
{
    let n = t.counts;
    let sixteen = Refusal::Quantity(n.bars_seen);
    Advanced {
        answer: Err((sixteen, t)),
        start,
    }
}

// The state after a bar: the bar's time and close are the last.
fn after_bar(counts: Counts, order: Order, position: Position, candle: Candle) -> State
    ensures { result ≡ record { counts = counts; order = order; position = position; last = record { time = candle.time; close = candle.close } } }
{
    let last = Last {
        time: candle.time,
        close: candle.close,
    };
    State {
        counts,
        order,
        position,
        last,
    }
}

// The phases in the paper's order, for a bar of a call that was handed what it can use: the working order is filled, the row recorded, the exits
// inside the bar taken, funding charged, the equity marked, and the next action decided. The order is the argument: each phase reads what those
// before it left, and nothing is written before the fill is known, so that one that is turned away (16) changes nothing. The rows held begin
// at row `start` of their room.
pub(crate) fn advance<'a>(
    span: Span,
    s: Settings,
    settings: &[u64],
    t: State,
    bar: &[u64],
    rows: &mut [u64],
    start: usize,
    equity: &mut [u64],
    trades: &mut [u64],
    trees: Lists<'a>,
) -> Advanced
    requires { (s ≡ settings_of settings.now)
        × Ready span s t bar.now rows.old start (lists_of trees) }
    ensures { Turns span s (advanced s t bar.now
        (rooms (turned (width s.slots) start rows.old) equity.old trades.old)
        (lists_of trees.entry))
        result rows.new equity.new trades.new }
{
    let n = t.counts;
    let order = t.order;
    let position = t.position;
    let number = n.bars_seen;
    let candle = records::bar::candle_of(bar);
    let before = Ring {
        held: n.rows_held,
        start,
    };
    let place = record::place_for(span, rows, before, s.slots);
    let after = place.ring;
    let filled = account::fill_working_order(s, order, position, candle, rows, before, number);
    if filled.turned_away {
        return not_sized(t, start);
    }
    let working = filled.order;
    let opened = filled.position;
    let at_open = filled.exit;
    let booked = account::book(trades, n.trades, at_open);
    record::record_bar(rows, place, bar, s.slots);
    let left = account::apply_intrabar_exits(s, settings, opened, candle);
    let open = left.position;
    let inside = left.exit;
    let closed = account::book(trades, booked, inside);
    let charged = account::charge_funding(s, open, bar);
    let points = account::mark_equity(equity, n, candle, charged);
    let next = decide::decide_next_action(
        s,
        working,
        charged,
        number,
        candle.close,
        rows,
        after,
        trees,
    );
    let seen = number + 1;
    let counts = Counts {
        bars_seen: seen,
        rows_held: after.held,
        equity_points: points,
        trades: closed,
    };
    Advanced {
        answer: Ok(after_bar(counts, next, charged, candle)),
        start: after.start,
    }
}
