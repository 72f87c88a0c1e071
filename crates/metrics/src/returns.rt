// Returns from bar to bar, and what the Sharpe and the Sortino ratio make of them.
ghost use Rattle.std.specs.Prelude.{◌≡◌, length};
ghost use Rattle.metrics.specs.Records.{equity_of};
ghost use Rattle.metrics.specs.Returns.{bar_return, bar_returns, itself, away, below_zero, mean_of, sharpe_ratio, sortino_ratio};

use super::{columns, quotient};

// The return from one equity to the next.
#[tactic(auto, unfolding(crate::specs::Returns::bar_return))]
pub fn bar_return(before: f64, now: f64) -> f64
    ensures { result ≡ bar_return before now }
{
    if floats::abs(before) < floats::EPS {
        return 0.0;
    }
    now / before - 1.0
}

// How many returns there are: one less than points.
#[tactic(auto, using(crate::proofs::Neighbours::length_returns))]
pub fn return_count(equity: &[u64]) -> usize
    ensures { result ≡ length (bar_returns (equity_of equity.now)) }
{
    let points = columns::point_count(equity);
    if points == 0 {
        return 0;
    }
    points - 1
}

// The square of a return where it is below 0, else 0.
fn below_zero(r: f64) -> f64
    ensures { result ≡ below_zero r }
{
    floats::sums::square(floats::min(r, 0.0))
}

// The square of how far a return is away from a mean.
fn away(mean: f64, r: f64) -> f64
    ensures { result ≡ away mean r }
{
    floats::sums::square(r - mean)
}

// The mean of the returns, and of the squares of those below 0.
#[derive(Clone, Copy)]
struct Means {
    itself: f64,
    below: f64,
}

// Both in one pass, since a return costs a division. Each pass works the returns out anew, so that no room is needed for them.
fn means_of(equity: &[u64]) -> Means
    ensures itself { result.itself ≡ mean_of itself (bar_returns (equity_of equity.now)) }
    ensures below { result.below ≡ mean_of below_zero (bar_returns (equity_of equity.now)) }
{
    let points = columns::point_count(equity);
    let mut before = columns::equity_at(equity, 0);
    let mut itself = 0.0;
    let mut below = 0.0;
    for i in 1..points {
        let now = columns::equity_at(equity, i);
        let r = bar_return(before, now);
        itself += r;
        below += below_zero(r);
        before = now;
    }
    let n = floats::sums::counted(return_count(equity) as u64);
    Means {
        itself: itself / n,
        below: below / n,
    }
}

// The mean of the squares away from a mean, which has to be known first: a second pass.
fn var_of(equity: &[u64], mean: f64) -> f64
    ensures { result ≡ mean_of (away mean) (bar_returns (equity_of equity.now)) }
{
    let points = columns::point_count(equity);
    let mut before = columns::equity_at(equity, 0);
    let mut total = 0.0;
    for i in 1..points {
        let now = columns::equity_at(equity, i);
        total += away(mean, bar_return(before, now));
        before = now;
    }
    total / floats::sums::counted(return_count(equity) as u64)
}

// The mean return over two deviations of the returns.
#[derive(Clone, Copy)]
pub struct Ratios {
    // Over the standard deviation.
    pub sharpe: f64,
    // Over the downside deviation.
    pub sortino: f64,
}

// Both ratios; 0 for fewer than two points.
#[tactic(auto, unfolding(crate::specs::Returns::sharpe_ratio, crate::specs::Returns::sortino_ratio))]
pub fn ratios_of(equity: &[u64]) -> Ratios
    ensures sharpe { result.sharpe ≡ sharpe_ratio (equity_of equity.now) }
    ensures sortino { result.sortino ≡ sortino_ratio (equity_of equity.now) }
{
    if columns::point_count(equity) < 2 {
        return Ratios {
            sharpe: 0.0,
            sortino: 0.0,
        };
    }
    let means = means_of(equity);
    let var = var_of(equity, means.itself);
    Ratios {
        sharpe: quotient::mean_over(means.itself, floats::root::sqrt(var)),
        sortino: quotient::mean_over(means.itself, floats::root::sqrt(means.below)),
    }
}
