// Refusals 10, 13 and 14: the rooms and the counts of the state.
ghost use Rattle.std.specs.Prelude.{◌≡◌};
ghost use Rattle.records.specs.Lent.{rooms};
ghost use Rattle.refusals.specs.Lines.{judged};
ghost use Rattle.refusals.specs.Rooms.{room_lines, counts_fine, held_fine, entry_below, state_lines, place_lines, to_close, close_lines};

use crate::verdict::{Verdict, line};
use records::settings::Settings;
use records::state::{Counts, State};
use words::limits::{MOST_COUNT, POINT_WORDS, TRADE_WORDS};
use words::refusal::Refusal;

// 10: the room of rows has places for D of them.
pub fn judge_room(s: Settings, rows: &[u64]) -> Verdict
    ensures { result ≡ judged (room_lines s rows.now) }
{
    if rows::row_count(rows, s.slots) < s.depth {
        return Err(Refusal::Room(0));
    }
    Ok(())
}

// Whether no count is above what a count may be.
pub(crate) fn counts_fine(n: Counts) -> bool
    ensures { result ≡ counts_fine n }
{
    if MOST_COUNT < n.bars_seen {
        return false;
    }
    if MOST_COUNT < n.rows_held as u64 {
        return false;
    }
    if MOST_COUNT < n.equity_points as u64 {
        return false;
    }
    n.trades as u64 <= MOST_COUNT
}

// Whether the rooms have places for what the state counts.
fn held_fine(slots: usize, n: Counts, rows: &[u64], equity: &[u64], trades: &[u64]) -> bool
    ensures { result ≡ held_fine slots n (rooms rows.now equity.now trades.now) }
{
    if rows::row_count(rows, slots) < n.rows_held {
        return false;
    }
    if equity.len() / POINT_WORDS < n.equity_points {
        return false;
    }
    n.trades <= trades.len() / TRADE_WORDS
}

// Whether the entry bar, if there is one, is below the bars seen.
pub fn entry_below(entered: Option<u64>, seen: u64) -> bool
    ensures { result ≡ entry_below entered seen }
{
    match entered {
        None => true,
        Some(b) => b < seen,
    }
}

// 13, all of the state.
pub fn judge_state(s: Settings, t: State, rows: &[u64], equity: &[u64], trades: &[u64]) -> Verdict
    ensures { result ≡ judged (state_lines s t (rooms rows.now equity.now trades.now)) }
{
    let n = t.counts;
    if !counts_fine(n) {
        return Err(Refusal::Records);
    }
    if !held_fine(s.slots, n, rows, equity, trades) {
        return Err(Refusal::Records);
    }
    let position = t.position;
    let entered = position.entered;
    if !entry_below(entered, n.bars_seen) {
        return Err(Refusal::Records);
    }
    Ok(())
}

// 14 as a step begins.
pub fn judge_place(n: Counts, equity: &[u64], trades: &[u64]) -> Verdict
    ensures { result ≡ judged (place_lines n equity.now trades.now) }
{
    if equity.len() / POINT_WORDS <= n.equity_points {
        return Err(Refusal::Full);
    }
    if trades.len() / TRADE_WORDS <= n.trades {
        return Err(Refusal::Full);
    }
    if MOST_COUNT <= n.bars_seen {
        return Err(Refusal::Full);
    }
    Ok(())
}

// Whether finish closes a position: one is open, and a bar was seen.
pub fn to_close(t: State) -> bool
    ensures { result ≡ to_close t }
{
    let n = t.counts;
    let position = t.position;
    let account = position.portfolio;
    account.in_position() & (0 < n.bars_seen)
}

// 14 at finish.
pub fn judge_close(t: State, trades: &[u64]) -> Verdict
    ensures { result ≡ judged (close_lines t trades.now) }
{
    let n = t.counts;
    let free = n.trades < trades.len() / TRADE_WORDS;
    line(!to_close(t) | free, Refusal::Full)
}
