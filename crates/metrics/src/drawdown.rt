// The deepest fall of the equity from a peak before it.
ghost use Rattle.std.specs.Prelude.{◌≡◌};
ghost use Rattle.floats.specs.Floats.{zero};
ghost use Rattle.metrics.specs.Records.{equity_of};
ghost use Rattle.metrics.specs.Drawdown.{peak_at, deepest_at, drawdown_from, max_drawdown_pct};

use super::columns;

// The peak once an equity is seen.
#[tactic(auto, unfolding(crate::specs::Drawdown::peak_at))]
fn peak_at(peak: f64, e: f64) -> f64
    ensures { result ≡ peak_at peak e }
{
    if peak < e { e } else { peak }
}

// The deepest fall, in percent of its peak, once an equity is seen. Only a peak above 0 counts.
#[tactic(auto, unfolding(crate::specs::Drawdown::deepest_at, crate::specs::Drawdown::fall_pct))]
fn deepest_at(peak: f64, deepest: f64, e: f64) -> f64
    ensures { result ≡ deepest_at peak deepest e }
{
    if 0.0 < peak {
        let fall = (peak - e) / peak * 100.0;
        if deepest < fall {
            return fall;
        }
    }
    deepest
}

// The maximum drawdown in percent. The peak starts below every point, not at the capital.
#[tactic(auto, unfolding(crate::specs::Drawdown::max_drawdown_pct))]
pub fn max_drawdown_pct(equity: &[u64]) -> f64
    ensures { result ≡ max_drawdown_pct (equity_of equity.now) }
{
    drawdown_from(floats::float_of(0xfff0_0000_0000_0000), equity)
}

// The deepest fall from a peak that starts at `start`.
pub(crate) fn drawdown_from(start: f64, equity: &[u64]) -> f64
    ensures { result ≡ drawdown_from start zero (equity_of equity.now) }
{
    let n = columns::point_count(equity);
    let mut peak = start;
    let mut deepest = 0.0;
    for i in 0..n {
        let e = columns::equity_at(equity, i);
        peak = peak_at(peak, e);
        deepest = deepest_at(peak, deepest, e);
    }
    deepest
}
