// Two runs compared: what differs, as lines, or why nothing is said.
ghost use Rattle.std.specs.Prelude.{◌≡◌, ◌+◌, ◌*◌, ◌≤◌, cond, leb, ltb};
ghost use Rattle.differences.specs.Lines.{differences};
ghost use Rattle.differences.specs.Laws.Counted.{few_lines};
ghost use Rattle.differences.specs.Compared as Comparing;

use crate::equity::first_point;
use crate::put::LINE_WORDS;
use crate::put_all::put_all;
use crate::surplus::apart;
use crate::words_apart::count;
use words::limits::{POINT_WORDS, TRADE_WORDS};
use words::refusal::Refusal;

// The room of the lines.
const LINES_ROOM: u64 = 15;

// Whether both lists of a run are whole records.
fn whole(equity: &[u64], trades: &[u64]) -> bool
    ensures { result ≡ Comparing.whole equity.now trades.now }
{
    equity.len() % POINT_WORDS == 0 && trades.len() % TRADE_WORDS == 0
}

// How many lines tell of a point: 1 where point k is one of n.
fn one_of(k: usize, n: usize) -> usize
    ensures { (result ≡ cond (ltb k n) 1 0) × (result ≤ 1) }
{
    if k < n { 1 } else { 0 }
}

// Whether a room of so many words holds a few lines and those of the words.
fn holds(room: usize, few: usize, words: usize) -> bool
    ensures { result ≡ leb (5 * (few + words)) room }
{
    if room / LINE_WORDS < few {
        return false;
    }
    words <= room / LINE_WORDS - few
}

// What differs between two runs, as lines: 13 where a list is not whole records, then 10 where the room does not hold the lines.
#[tactic(auto, unfolding(crate::specs::Compared::compared))]
pub fn compare(
    equity: &[u64],
    trades: &[u64],
    other_equity: &[u64],
    other_trades: &[u64],
    lines: &mut [u64],
) -> Result<usize, Refusal>
    ensures { Comparing.compared equity.now trades.now other_equity.now other_trades.now
        lines.old ≡ record { answer = result; room = lines.new } }
{
    if whole(equity, trades) && whole(other_equity, other_trades) {
        return compare_whole(equity, trades, other_equity, other_trades, lines);
    }
    Err(Refusal::Records)
}

// How many lines tell of the equity and of what one run has more, where k is the first of so many points that differs.
fn count_few(
    equity: &[u64],
    trades: &[u64],
    other_equity: &[u64],
    other_trades: &[u64],
    k: usize,
    points: usize,
) -> usize
    ensures { (result ≡ few_lines equity.now trades.now other_equity.now other_trades.now k points)
        × (result ≤ 3) }
{
    let first = one_of(k, points);
    let more_trades = apart(trades.len() / TRADE_WORDS, other_trades.len() / TRADE_WORDS);
    let more_points = apart(equity.len() / POINT_WORDS, other_equity.len() / POINT_WORDS);
    first + more_trades + more_points
}

// Of lists that are whole records. Where nothing differs there is no second pass.
fn compare_whole(
    equity: &[u64],
    trades: &[u64],
    other_equity: &[u64],
    other_trades: &[u64],
    lines: &mut [u64],
) -> Result<usize, Refusal>
    ensures { Comparing.written (differences equity.now trades.now other_equity.now other_trades.now)
        lines.old ≡ record { answer = result; room = lines.new } }
{
    let points = (equity.len() / POINT_WORDS).min(other_equity.len() / POINT_WORDS);
    let n = (trades.len() / TRADE_WORDS).min(other_trades.len() / TRADE_WORDS);
    let k = first_point(equity, other_equity, points);
    let few = count_few(equity, trades, other_equity, other_trades, k, points);
    let words = count(trades, other_trades, TRADE_WORDS * n);
    if holds(lines.len(), few, words) {
        let many = few + words;
        if many == 0 {
            return Ok(0);
        }
        put_all(
            equity,
            trades,
            other_equity,
            other_trades,
            k,
            points,
            n,
            lines,
        );
        return Ok(many);
    }
    Err(Refusal::Room(LINES_ROOM))
}
