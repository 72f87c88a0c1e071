// `size`: the quantity of an entry, without its sign.
ghost use Rattle.std.specs.Prelude.{◌≡◌};
ghost use Rattle.execution.specs.Size.{size, wanted, by_risk, by_volatility, capped, max_notional, at_most};

use crate::terms::{Risk, Sizing};

// The quantity of an entry at `price` with `equity` to spend; absent where there is nothing to order.
#[tactic(auto, unfolding(crate::specs::Size::capped_qty, crate::specs::Size::size))]
pub fn size(
    sizing: Sizing,
    risk: Risk,
    equity: f64,
    price: f64,
    realized_vol: Option<f64>,
) -> Option<f64>
    ensures { result ≡ size sizing risk equity price realized_vol }
{
    if price <= 0.0 {
        return None;
    }
    if equity <= 0.0 {
        return None;
    }
    let stop = risk.stop_loss_pct;
    let asked = wanted(sizing, stop, equity, price, realized_vol);
    match asked {
        None => None,
        Some(qty) => {
            if qty <= 0.0 {
                return None;
            }
            let most = max_notional(risk, equity);
            Some(capped(qty, price, most))
        }
    }
}

// What the sizing asks for, before the caps.
#[tactic(auto, unfolding(crate::specs::Size::wanted))]
fn wanted(
    sizing: Sizing,
    stop: Option<f64>,
    equity: f64,
    price: f64,
    realized_vol: Option<f64>,
) -> Option<f64>
    ensures { result ≡ wanted sizing stop equity price realized_vol }
{
    match sizing {
        Sizing::FixedFraction(fraction) => Some(equity * fraction / price),
        Sizing::FixedCash(cash) => Some(cash / price),
        Sizing::FixedQty(qty) => Some(qty),
        Sizing::RiskPerTrade(risk_pct) => by_risk(risk_pct, stop, equity, price),
        Sizing::VolTarget(target_vol, _) => by_volatility(target_vol, realized_vol, equity, price),
        Sizing::Unknown => None,
    }
}

// A stop-loss hit loses risk_pct of the equity. No stop loss, no order: the engine refuses such settings beforehand.
#[tactic(auto, unfolding(crate::specs::Size::by_risk))]
fn by_risk(risk_pct: f64, stop: Option<f64>, equity: f64, price: f64) -> Option<f64>
    ensures { result ≡ by_risk risk_pct stop equity price }
{
    match stop {
        None => None,
        Some(stop) => {
            if stop <= 0.0 {
                return None;
            }
            Some((equity * risk_pct / 100.0) / (price * stop / 100.0))
        }
    }
}

// The position's volatility a bar is target_vol. No volatility yet, no order.
#[tactic(auto, unfolding(crate::specs::Size::by_volatility))]
fn by_volatility(target_vol: f64, realized_vol: Option<f64>, equity: f64, price: f64) -> Option<f64>
    ensures { result ≡ by_volatility target_vol realized_vol equity price }
{
    match realized_vol {
        None => None,
        Some(rv) => Some(equity * target_vol / rv / price),
    }
}

// The quantity whose notional is at most `most`. A product that is a NaN becomes the cap.
fn capped(qty: f64, price: f64, most: f64) -> f64
    ensures { result ≡ capped qty price most }
{
    floats::min(qty * price, most) / price
}

// The most that a position may be worth: the leverage's share of the equity, 1 where none is set, and within it the
// position's.
#[tactic(auto, unfolding(crate::specs::Size::max_notional))]
fn max_notional(risk: Risk, equity: f64) -> f64
    ensures { result ≡ max_notional risk equity }
{
    let max_leverage = risk.max_leverage;
    let max_position_pct = risk.max_position_pct;
    at_most(
        equity * max_leverage.unwrap_or(1.0),
        max_position_pct,
        equity,
    )
}

#[tactic(auto, unfolding(crate::specs::Size::at_most))]
fn at_most(most: f64, max_position_pct: Option<f64>, equity: f64) -> f64
    ensures { result ≡ at_most most max_position_pct equity }
{
    match max_position_pct {
        None => most,
        Some(max_pct) => floats::min(most, equity * max_pct / 100.0),
    }
}
