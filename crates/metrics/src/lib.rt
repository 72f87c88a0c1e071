#![tactic(auto)]
// The figures of a run: metrics.rs over lent words, for any number of equity points and trades.
pub mod columns;
pub mod drawdown;
pub mod quotient;
pub mod returns;
pub mod trades;

ghost use Rattle.std.specs.Prelude.{◌≡◌, Err};
ghost use Rattle.metrics.specs.Records.{equity_of, pnls_of};
ghost use Rattle.metrics.specs.Figures.{final_equity, metrics_of, not_whole, outcome, computed, figure_words};

use words::limits::{METRIC_WORDS, POINT_WORDS, TRADE_WORDS};
use words::refusal::Refusal;

// Summary performance metrics.
#[derive(Clone, Copy)]
pub struct Metrics {
    // Final equity less initial equity.
    pub pnl: f64,
    // Total return in percent.
    pub return_pct: f64,
    // Mean over standard deviation of the returns from bar to bar.
    pub sharpe: f64,
    // Mean over downside deviation of the same returns.
    pub sortino: f64,
    // Total return over maximum drawdown.
    pub calmar: f64,
    // Maximum drawdown in percent, from a peak of the marked points to a later one.
    pub max_drawdown: f64,
    // How many of a hundred trades won.
    pub win_rate: f64,
    // Gross profit over gross loss.
    pub profit_factor: f64,
    // Number of completed trades.
    pub num_trades: u64,
}

// 13 at 0: a list is not whole records.
fn not_whole() -> Result<Metrics, Refusal>
    ensures { result ≡ Err not_whole }
{
    Err(Refusal::Records)
}

// The last point's equity, or the capital where there is no point.
fn final_equity(initial: f64, equity: &[u64]) -> f64
    ensures { result ≡ final_equity initial (equity_of equity.now) }
{
    let n = columns::point_count(equity);
    if n == 0 {
        return initial;
    }
    columns::equity_at(equity, n - 1)
}

// The figures of the whole records of two lists; what is left over at the end of a list is not read.
#[tactic(auto, unfolding(crate::specs::Figures::metrics_of))]
pub fn metrics_of(initial: f64, equity: &[u64], trades: &[u64]) -> Metrics
    ensures { result ≡ metrics_of initial (equity_of equity.now) (pnls_of trades.now) }
{
    let pnl = final_equity(initial, equity) - initial;
    let return_pct = floats::sums::return_pct(pnl, initial);
    let max_drawdown = drawdown::max_drawdown_pct(equity);
    let ratios = returns::ratios_of(equity);
    Metrics {
        pnl: pnl,
        return_pct: return_pct,
        sharpe: ratios.sharpe,
        sortino: ratios.sortino,
        calmar: quotient::gain_over(return_pct, max_drawdown),
        max_drawdown: max_drawdown,
        win_rate: trades::win_rate(trades),
        profit_factor: trades::profit_factor(trades),
        num_trades: columns::trade_count(trades) as u64,
    }
}

// The figures of two lists of whole records; refusal 13 where one is not.
#[tactic(auto, unfolding(crate::specs::Figures::outcome, crate::specs::Figures::computed, crate::specs::Records::whole))]
pub fn compute(initial: f64, equity: &[u64], trades: &[u64]) -> Result<Metrics, Refusal>
    ensures { outcome result ≡ computed initial equity.now trades.now }
{
    if equity.len() % POINT_WORDS != 0 {
        return not_whole();
    }
    if trades.len() % TRADE_WORDS != 0 {
        return not_whole();
    }
    Ok(metrics_of(initial, equity, trades))
}

// The figures as words, in the Rust record's order.
#[tactic(auto, unfolding(crate::specs::Figures::figure_words))]
pub fn words_of(m: Metrics) -> [u64; METRIC_WORDS]
    ensures { result ≡ figure_words m }
{
    [
        floats::word_of(m.pnl),
        floats::word_of(m.return_pct),
        floats::word_of(m.sharpe),
        floats::word_of(m.sortino),
        floats::word_of(m.calmar),
        floats::word_of(m.max_drawdown),
        floats::word_of(m.win_rate),
        floats::word_of(m.profit_factor),
        m.num_trades,
    ]
}
