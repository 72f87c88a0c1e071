// Exits inside a bar: the levels of a stop loss, a trailing stop and a take profit, then liquidation. Fills are aware of
// gaps: a bar that opens beyond a level fills at the open.
ghost use Rattle.std.specs.Prelude.{◌≡◌};
ghost use Rattle.execution.specs.Intrabar.{favourable, extreme_with, fall_to, rise_to, fill_under, fill_over};
ghost use Rattle.execution.specs.Intrabar.{fired, first_of, long_exit, short_exit, intrabar_exit};
ghost use Rattle.execution.specs.Intrabar.{breached, liquidated, or_liquidated, closed_by, apply_intrabar_exits};

use crate::costs;
use crate::terms::{Risk, Terms};
use portfolio::{Candle, Closed, LIQUIDATION, Portfolio, STOP_LOSS, TAKE_PROFIT, TRAILING_STOP};

// A level that a bar's range touched: the fill price and the reason.
#[derive(Clone, Copy)]
pub struct Trigger {
    pub price: f64,
    pub reason: u64,
}

// The most favourable price since the entry, this bar counted.
#[tactic(auto, unfolding(crate::specs::Intrabar::favourable))]
pub fn favourable(candle: Candle, extreme: f64, is_long: bool) -> f64
    ensures { result ≡ favourable candle extreme is_long }
{
    if is_long {
        return floats::max(extreme, candle.high);
    }
    floats::min(extreme, candle.low)
}

// The favourable extreme after this bar: it moves only in a position.
#[tactic(auto, unfolding(crate::specs::Intrabar::extreme_with))]
pub fn extreme_with(candle: Candle, pf: Portfolio, extreme: f64) -> f64
    ensures { result ≡ extreme_with candle pf extreme }
{
    if pf.in_position() {
        return favourable(candle, extreme, pf.is_long());
    }
    extreme
}

// `level`'s reached_below and reached_above put the open first into the same `min` and `max`, which decides between two zeros' signs: so
// these are no twins of those.
// A level that is touched from above: filled there, or at the open where the bar opened under it.
#[tactic(auto, unfolding(crate::specs::Intrabar::fall_to))]
fn fall_to(level: f64, open: f64, low: f64) -> Option<f64>
    ensures { result ≡ fall_to level «open» low }
{
    if low <= level {
        return Some(floats::min(level, open));
    }
    None
}

// A level that is touched from below: filled there, or at the open where the bar opened over it.
#[tactic(auto, unfolding(crate::specs::Intrabar::rise_to))]
fn rise_to(level: f64, open: f64, high: f64) -> Option<f64>
    ensures { result ≡ rise_to level «open» high }
{
    if high >= level {
        return Some(floats::max(level, open));
    }
    None
}

// The fill at a level `pct` percent under `base`.
#[tactic(auto, unfolding(crate::specs::Intrabar::fill_under))]
fn fill_under(candle: Candle, base: f64, pct: Option<f64>) -> Option<f64>
    ensures { result ≡ fill_under candle base pct }
{
    match pct {
        None => None,
        Some(p) => fall_to(base * (1.0 - p / 100.0), candle.open, candle.low),
    }
}

// The fill at a level `pct` percent over `base`.
#[tactic(auto, unfolding(crate::specs::Intrabar::fill_over))]
fn fill_over(candle: Candle, base: f64, pct: Option<f64>) -> Option<f64>
    ensures { result ≡ fill_over candle base pct }
{
    match pct {
        None => None,
        Some(p) => rise_to(base * (1.0 + p / 100.0), candle.open, candle.high),
    }
}

// A level's fill and its reason.
#[tactic(auto, unfolding(crate::specs::Intrabar::fired))]
fn fired(price: Option<f64>, reason: u64) -> Option<Trigger>
    ensures { result ≡ fired price reason }
{
    match price {
        None => None,
        Some(p) => Some(Trigger { price: p, reason }),
    }
}

// The stop is taken to be hit before the trailing stop, and that before the target.
#[tactic(auto, unfolding(crate::specs::Intrabar::first_of))]
fn first_of(stop: Option<f64>, trail: Option<f64>, take: Option<f64>) -> Option<Trigger>
    ensures { result ≡ first_of stop trail take }
{
    let stopped = fired(stop, STOP_LOSS);
    let trailed = fired(trail, TRAILING_STOP);
    let taken = fired(take, TAKE_PROFIT);
    stopped.or(trailed).or(taken)
}

// A long's stops stand under, its target over. It and a short's differ in each function that they call: one function over both would
// be passed those as closures, and be no shorter.
#[tactic(auto, unfolding(crate::specs::Intrabar::long_exit))]
fn long_exit(candle: Candle, risk: Risk, entry: f64, extreme: f64) -> Option<Trigger>
    ensures { result ≡ long_exit candle risk entry extreme }
{
    let stop_loss_pct = risk.stop_loss_pct;
    let trailing_stop_pct = risk.trailing_stop_pct;
    let take_profit_pct = risk.take_profit_pct;
    let stop = fill_under(candle, entry, stop_loss_pct);
    let trail = fill_under(candle, extreme, trailing_stop_pct);
    let take = fill_over(candle, entry, take_profit_pct);
    first_of(stop, trail, take)
}

// A short's stops stand over, its target under.
#[tactic(auto, unfolding(crate::specs::Intrabar::short_exit))]
fn short_exit(candle: Candle, risk: Risk, entry: f64, extreme: f64) -> Option<Trigger>
    ensures { result ≡ short_exit candle risk entry extreme }
{
    let stop_loss_pct = risk.stop_loss_pct;
    let trailing_stop_pct = risk.trailing_stop_pct;
    let take_profit_pct = risk.take_profit_pct;
    let stop = fill_over(candle, entry, stop_loss_pct);
    let trail = fill_over(candle, extreme, trailing_stop_pct);
    let take = fill_under(candle, entry, take_profit_pct);
    first_of(stop, trail, take)
}

// The level that the bar touches, if any.
#[tactic(auto, unfolding(crate::specs::Intrabar::intrabar_exit))]
pub fn intrabar_exit(
    candle: Candle,
    risk: Risk,
    entry: f64,
    extreme: f64,
    is_long: bool,
) -> Option<Trigger>
    ensures { result ≡ intrabar_exit candle risk entry extreme is_long }
{
    if entry <= 0.0 {
        return None;
    }
    if is_long {
        return long_exit(candle, risk, entry, extreme);
    }
    short_exit(candle, risk, entry, extreme)
}

#[tactic(auto, unfolding(crate::specs::Intrabar::breached))]
fn breached(candle: Candle, price: f64, is_long: bool) -> bool
    ensures { result ≡ breached candle price is_long }
{
    if is_long {
        return candle.low <= price;
    }
    candle.high >= price
}

// The bankruptcy price, where the bar reaches it: there the account's equity is 0.
#[tactic(auto, unfolding(crate::specs::Intrabar::bankruptcy_price, crate::specs::Intrabar::liquidated))]
pub fn liquidation(candle: Candle, pf: Portfolio) -> Option<Trigger>
    ensures { result ≡ liquidated candle pf }
{
    let p_liq = -pf.cash / pf.qty;
    if p_liq > 0.0 {
        if breached(candle, p_liq, pf.is_long()) {
            return Some(Trigger {
                price: p_liq,
                reason: LIQUIDATION,
            });
        }
        return None;
    }
    None
}

#[tactic(auto, unfolding(crate::specs::Intrabar::or_liquidated))]
fn or_liquidated(
    fired: Option<Trigger>,
    candle: Candle,
    risk: Risk,
    pf: Portfolio,
) -> Option<Trigger>
    ensures { result ≡ or_liquidated fired candle risk pf }
{
    match fired {
        Some(Trigger { price, reason }) => Some(Trigger { price, reason }),
        None => {
            if risk.liquidation {
                return liquidation(candle, pf);
            }
            None
        }
    }
}

#[tactic(auto, unfolding(crate::specs::Intrabar::closed_by))]
fn closed_by(
    trigger: Option<Trigger>,
    candle: Candle,
    terms: Terms,
    pf: Portfolio,
) -> Option<Closed>
    ensures { result ≡ closed_by trigger candle terms pf }
{
    match trigger {
        None => None,
        Some(Trigger { price, reason }) => {
            Some(costs::close(pf, price, candle.time, terms.taker_bps, reason))
        }
    }
}

// The open position against one bar's range. `extreme` has taken this bar already.
#[tactic(auto, unfolding(crate::specs::Intrabar::apply_intrabar_exits, crate::specs::Intrabar::touched))]
pub fn apply_intrabar_exits(
    candle: Candle,
    terms: Terms,
    pf: Portfolio,
    extreme: f64,
) -> Option<Closed>
    ensures { result ≡ apply_intrabar_exits candle terms pf extreme }
{
    if pf.in_position() {
        let risk = terms.risk;
        let fired = intrabar_exit(candle, risk, pf.entry_price, extreme, pf.is_long());
        let trigger = or_liquidated(fired, candle, risk, pf);
        return closed_by(trigger, candle, terms, pf);
    }
    None
}
