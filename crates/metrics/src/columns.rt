// Lists of records in lent words, and the floats that the figures read of them.
ghost use Rattle.std.specs.Prelude.{◌≡◌, ◌/◌, ◌<◌, length, get_or};
ghost use Rattle.floats.specs.Floats.{zero};
ghost use Rattle.metrics.specs.Records.{column, equity_of, pnls_of};

use words::limits::{POINT_WORDS, TRADE_WORDS};
use words::places::TRADE_PNL;

// Where an equity point has its equity: time, equity.
const EQUITY: usize = 1;

// Word `at` of record i, of those of `width` words that the list has whole, as a float; 0 past the last.
fn float_at(words: &[u64], width: usize, at: usize, i: usize) -> f64
    requires { at < width }
    ensures { result ≡ get_or (column (length words.now / width) width at words.now) i zero }
{
    if i < words.len() / width {
        return floats::float_of(words[width * i + at]);
    }
    0.0
}

// How many whole points a list has.
#[tactic(auto, using(crate::specs::Laws::Columns::length_equity))]
pub fn point_count(equity: &[u64]) -> usize
    ensures { result ≡ length (equity_of equity.now) }
{
    equity.len() / POINT_WORDS
}

// The equity of point i, and 0 past the last.
#[tactic(auto, unfolding(crate::specs::Records::equity_of))]
pub fn equity_at(equity: &[u64], i: usize) -> f64
    ensures { result ≡ get_or (equity_of equity.now) i zero }
{
    float_at(equity, POINT_WORDS, EQUITY, i)
}

// How many whole trades a list has.
#[tactic(auto, using(crate::specs::Laws::Columns::length_pnls))]
pub fn trade_count(trades: &[u64]) -> usize
    ensures { result ≡ length (pnls_of trades.now) }
{
    trades.len() / TRADE_WORDS
}

// The pnl of trade i, and 0 past the last.
#[tactic(auto, unfolding(crate::specs::Records::pnls_of))]
pub fn pnl_at(trades: &[u64], i: usize) -> f64
    ensures { result ≡ get_or (pnls_of trades.now) i zero }
{
    float_at(trades, TRADE_WORDS, TRADE_PNL, i)
}
