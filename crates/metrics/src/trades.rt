// Win rate and profit factor, over the trades' pnl.
ghost use Rattle.std.specs.Prelude.{◌≡◌, length};
ghost use Rattle.metrics.specs.Records.{pnls_of};
ghost use Rattle.metrics.specs.Trades.{is_on, size_of, sizes_on, win_rate, profit_factor};
ghost use Rattle.metrics.specs.Trades as Trades;

use super::{columns, quotient};

// Trades that won, or that lost.
#[derive(Clone, Copy)]
pub enum WinOrLoss {
    Wins,
    Losses,
}

// Whether a trade with this pnl is on a side.
pub fn is_on(side: WinOrLoss, pnl: f64) -> bool
    ensures { result ≡ is_on side pnl }
{
    match side {
        WinOrLoss::Wins => 0.0 < pnl,
        WinOrLoss::Losses => pnl < 0.0,
    }
}

// The pnl of a trade of that side, without its sign.
pub fn size_of(side: WinOrLoss, pnl: f64) -> f64
    ensures { result ≡ size_of side pnl }
{
    match side {
        WinOrLoss::Wins => pnl,
        WinOrLoss::Losses => -pnl,
    }
}

// How many trades are on a side.
pub fn count_on(trades: &[u64], side: WinOrLoss) -> usize
    ensures { result ≡ length (sizes_on side (pnls_of trades.now)) }
{
    let n = columns::trade_count(trades);
    let mut count = 0;
    for i in 0..n {
        if is_on(side, columns::pnl_at(trades, i)) {
            count += 1;
        }
    }
    count
}

// How many of a hundred trades won; 0 where there is none.
#[tactic(auto, unfolding(crate::specs::Trades::win_rate))]
pub fn win_rate(trades: &[u64]) -> f64
    ensures { result ≡ win_rate (pnls_of trades.now) }
{
    let n = columns::trade_count(trades);
    if n == 0 {
        return 0.0;
    }
    let wins = count_on(trades, WinOrLoss::Wins);
    floats::sums::counted(wins as u64) / floats::sums::counted(n as u64) * 100.0
}

// What the trades of a side add up to: gross profit, or gross loss.
pub fn gross(trades: &[u64], side: WinOrLoss) -> f64
    ensures { result ≡ Trades.gross side (pnls_of trades.now) }
{
    let n = columns::trade_count(trades);
    let mut total = 0.0;
    for i in 0..n {
        let pnl = columns::pnl_at(trades, i);
        if is_on(side, pnl) {
            total += size_of(side, pnl);
        }
    }
    total
}

// Gross profit over gross loss.
#[tactic(auto, unfolding(crate::specs::Trades::profit_factor))]
pub fn profit_factor(trades: &[u64]) -> f64
    ensures { result ≡ profit_factor (pnls_of trades.now) }
{
    let gross_profit = gross(trades, WinOrLoss::Wins);
    let gross_loss = gross(trades, WinOrLoss::Losses);
    quotient::gain_over(gross_profit, gross_loss)
}
