// All lines of two runs, one after another.
ghost use Rattle.std.specs.Prelude.{◌≡◌, ◌*◌, ◌≤◌, length};
ghost use Rattle.words.specs.Limits.{trade_words};
ghost use Rattle.words.specs.Words.{overwrite};
ghost use Rattle.differences.specs.Lines.{equity_line, differences_from, words_of};

use crate::put::put_line;
use crate::surplus::put_surplus;
use crate::words_apart::put_trades;
use words::limits::{POINT_WORDS, TRADE_WORDS};

// The line of the first point that differs, as line 0, where point k is one of the n; how many lines that is.
fn put_equity(a: &[u64], b: &[u64], k: usize, n: usize, lines: &mut [u64]) -> usize
    requires { (2 * n ≤ length a.now) × (2 * n ≤ length b.now) × (5 * length (equity_line a.now b.now k n) ≤ length lines.old) }
    ensures { (result ≡ length (equity_line a.now b.now k n))
        × (lines.new ≡ overwrite lines.old 0 (words_of (equity_line a.now b.now k n))) }
{
    if k < n {
        put_line(
            lines,
            0,
            1,
            k as u64,
            1,
            a[POINT_WORDS * k + 1],
            b[POINT_WORDS * k + 1],
        );
        return 1;
    }
    0
}

// The lines that there are where k is the first of `points` points that differs and n trades are compared.
pub(crate) fn put_all(
    equity: &[u64],
    trades: &[u64],
    other_equity: &[u64],
    other_trades: &[u64],
    k: usize,
    points: usize,
    n: usize,
    lines: &mut [u64],
)
    requires { (2 * points ≤ length equity.now) × (2 * points ≤ length other_equity.now) × (trade_words * n ≤ length trades.now)
        × (trade_words * n ≤ length other_trades.now)
        × (5 * length (differences_from equity.now trades.now other_equity.now other_trades.now k points (trade_words * n)) ≤ length lines.old) }
    ensures { lines.new ≡ overwrite lines.old 0 (words_of (differences_from equity.now trades.now
        other_equity.now other_trades.now k points (trade_words * n))) }
{
    let c = put_equity(equity, other_equity, k, points, lines);
    let d = put_trades(trades, other_trades, n, lines, c);
    let e = put_surplus(
        3,
        trades.len() / TRADE_WORDS,
        other_trades.len() / TRADE_WORDS,
        lines,
        d,
    );
    put_surplus(
        4,
        equity.len() / POINT_WORDS,
        other_equity.len() / POINT_WORDS,
        lines,
        e,
    );
}
