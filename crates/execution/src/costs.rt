// What a fill costs: slippage and the taker fee. And funding, which a position pays while it is open.
ghost use Rattle.std.specs.Prelude.{◌≡◌};
ghost use Rattle.execution.specs.Costs.{slippage_rate, closed, with_funding, charge_funding};

use crate::terms::Slippage;
use portfolio::{Closed, Portfolio};

// A bar's funding, where one is supplied.
#[derive(Clone, Copy)]
pub struct Funding {
    pub mark: f64,
    pub rate: f64,
}

// The slippage of an order of `qty` as a fraction of the price.
#[tactic(auto, unfolding(crate::specs::Costs::slippage_rate))]
pub fn slippage_rate(slippage: Slippage, qty: f64, volume: f64) -> f64
    ensures { result ≡ slippage_rate slippage qty volume }
{
    match slippage {
        Slippage::FixedBps(bps) => bps / 10_000.0,
        Slippage::VolumeImpact(coef) => {
            if volume > 0.0 {
                return coef * floats::abs(qty) / volume;
            }
            0.0
        }
        Slippage::Unknown => 0.0,
    }
}

// The open position closed at `price`, with the taker fee on what it is worth there.
#[tactic(auto, unfolding(crate::specs::Costs::closed))]
pub fn close(pf: Portfolio, price: f64, time: u64, taker_bps: f64, reason: u64) -> Closed
    ensures { result ≡ closed pf price time taker_bps reason }
{
    let taker = taker_bps / 10_000.0;
    let fee = floats::abs(pf.qty) * price * taker;
    pf.exit(price, time, fee, reason)
}

// Funding for one bar, where it is switched on and a position is open.
#[tactic(auto, unfolding(crate::specs::Costs::charge_funding))]
pub fn charge_funding(on: bool, funding: Option<Funding>, pf: Portfolio) -> Portfolio
    ensures { result ≡ charge_funding on funding pf }
{
    if on {
        if pf.in_position() {
            return with_funding(funding, pf);
        }
        return pf;
    }
    pf
}

#[tactic(auto, unfolding(crate::specs::Costs::with_funding))]
fn with_funding(funding: Option<Funding>, pf: Portfolio) -> Portfolio
    ensures { result ≡ with_funding funding pf }
{
    match funding {
        None => pf,
        Some(Funding { mark, rate }) => pf.apply_funding(pf.qty * mark * rate),
    }
}
