// The terms of an entry, made anew part by part. A value that is handed on whole is copied whole, the unused bytes of its enums with it, and on every
// bar; what is made where an entry is due is copied there alone.
ghost use Rattle.std.specs.Prelude.{◌≡◌};

use execution::terms::{Risk, Sizing, Slippage, Terms};

fn level_anew(level: Option<f64>) -> Option<f64>
    ensures { result ≡ level }
{
    match level {
        None => None,
        Some(x) => Some(x),
    }
}

fn sizing_anew(sizing: Sizing) -> Sizing
    ensures { result ≡ sizing }
{
    match sizing {
        Sizing::FixedFraction(x) => Sizing::FixedFraction(x),
        Sizing::FixedQty(x) => Sizing::FixedQty(x),
        Sizing::FixedCash(x) => Sizing::FixedCash(x),
        Sizing::VolTarget(x, n) => Sizing::VolTarget(x, n),
        Sizing::RiskPerTrade(x) => Sizing::RiskPerTrade(x),
        Sizing::Unknown => Sizing::Unknown,
    }
}

fn slippage_anew(slippage: Slippage) -> Slippage
    ensures { result ≡ slippage }
{
    match slippage {
        Slippage::FixedBps(x) => Slippage::FixedBps(x),
        Slippage::VolumeImpact(x) => Slippage::VolumeImpact(x),
        Slippage::Unknown => Slippage::Unknown,
    }
}

fn risk_anew(risk: Risk) -> Risk
    ensures { result ≡ risk }
{
    let stop = risk.stop_loss_pct;
    let trailing = risk.trailing_stop_pct;
    let take = risk.take_profit_pct;
    let leverage = risk.max_leverage;
    let position = risk.max_position_pct;
    Risk {
        stop_loss_pct: level_anew(stop),
        trailing_stop_pct: level_anew(trailing),
        take_profit_pct: level_anew(take),
        max_leverage: level_anew(leverage),
        max_position_pct: level_anew(position),
        liquidation: risk.liquidation,
    }
}

pub(crate) fn anew(terms: Terms) -> Terms
    ensures { result ≡ terms }
{
    let sizing = terms.sizing;
    let risk = terms.risk;
    let slippage = terms.slippage;
    Terms {
        sizing: sizing_anew(sizing),
        risk: risk_anew(risk),
        taker_bps: terms.taker_bps,
        slippage: slippage_anew(slippage),
        partial_fills: terms.partial_fills,
        max_participation: terms.max_participation,
        lot: terms.lot,
    }
}

// The terms with these levels.
pub(crate) fn with_levels(terms: Terms, risk: Risk) -> Terms
    ensures { risk ≡ terms.risk → result ≡ terms }
{
    let sizing = terms.sizing;
    let slippage = terms.slippage;
    Terms {
        sizing,
        risk,
        taker_bps: terms.taker_bps,
        slippage,
        partial_fills: terms.partial_fills,
        max_participation: terms.max_participation,
        lot: terms.lot,
    }
}
