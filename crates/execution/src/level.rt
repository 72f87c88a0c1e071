// Entries away from the market: the levels of a limit, a stop and a stop-limit, and where a bar fills them.
ghost use Rattle.std.specs.Prelude.{◌≡◌};
ghost use Rattle.execution.specs.Level.{level_from, entry_trigger, fee_bps, reached_below, reached_above, no_dearer_than, no_cheaper_than};
ghost use Rattle.execution.specs.Level.{long_fill, short_fill, level_fill};

use portfolio::Candle;

#[derive(Clone, Copy)]
pub enum Side {
    Long,
    Short,
}

// The order kind that a setting names. Unknown stands for one that the papers do not name: it counts as market.
#[derive(Clone, Copy)]
pub enum OrderType {
    Market,
    Limit,
    Stop,
    StopLimit,
    Unknown,
}

// The settings of entries: their order kind, how far from the deciding bar's close they stand, in percent, and a limit's fee.
#[derive(Clone, Copy)]
pub struct Entries {
    pub order_type: OrderType,
    pub level_pct: f64,
    pub limit_pct: f64,
    pub maker_bps: f64,
}

// What an entry waits for, with the prices that its deciding bar fixed: nothing, a limit, a stop, or a stop and then a limit.
#[derive(Clone, Copy)]
pub enum OrderKind {
    Market,
    Limit(f64),
    Stop(f64),
    StopLimit(f64, f64),
}

// The level that stands `pct` percent over a close; under it where pct is negative.
#[tactic(auto, unfolding(crate::specs::Level::level_from))]
fn level_from(close: f64, pct: f64) -> f64
    ensures { result ≡ level_from close pct }
{
    close * (1.0 + pct / 100.0)
}

// The order kind and the prices of an entry that is decided at a close.
#[tactic(auto, unfolding(crate::specs::Level::entry_trigger))]
pub fn entry_trigger(entries: Entries, close: f64) -> OrderKind
    ensures { result ≡ entry_trigger entries close }
{
    let order_type = entries.order_type;
    let level = level_from(close, entries.level_pct);
    let limit = level_from(close, entries.limit_pct);
    match order_type {
        OrderType::Market => OrderKind::Market,
        OrderType::Limit => OrderKind::Limit(level),
        OrderType::Stop => OrderKind::Stop(level),
        OrderType::StopLimit => OrderKind::StopLimit(level, limit),
        OrderType::Unknown => OrderKind::Market,
    }
}

// The fee of an entry: a resting limit provides liquidity.
#[tactic(auto, unfolding(crate::specs::Level::fee_bps))]
pub fn fee_bps(kind: OrderKind, maker_bps: f64, taker_bps: f64) -> f64
    ensures { result ≡ fee_bps kind maker_bps taker_bps }
{
    match kind {
        OrderKind::Market => taker_bps,
        OrderKind::Limit(_) => maker_bps,
        OrderKind::Stop(_) => taker_bps,
        OrderKind::StopLimit(_, _) => taker_bps,
    }
}

// A level that is reached from above: filled there, or at the open where the bar opened under it.
#[tactic(auto, unfolding(crate::specs::Level::reached_below))]
fn reached_below(level: f64, candle: Candle) -> Option<f64>
    ensures { result ≡ reached_below level candle }
{
    if candle.low <= level {
        return Some(floats::min(candle.open, level));
    }
    None
}

// A level that is reached from below: filled there, or at the open where the bar opened over it.
#[tactic(auto, unfolding(crate::specs::Level::reached_above))]
fn reached_above(level: f64, candle: Candle) -> Option<f64>
    ensures { result ≡ reached_above level candle }
{
    if candle.high >= level {
        return Some(floats::max(candle.open, level));
    }
    None
}

// A buyer's stop that was reached at `price`, held to its limit.
#[tactic(auto, unfolding(crate::specs::Level::no_dearer_than))]
fn no_dearer_than(limit: f64, price: Option<f64>, candle: Candle) -> Option<f64>
    ensures { result ≡ no_dearer_than limit price candle }
{
    match price {
        None => None,
        Some(px) => {
            if px <= limit {
                return Some(px);
            }
            if candle.low <= limit {
                return Some(limit);
            }
            None
        }
    }
}

// A seller's stop that was reached at `price`, held to its limit.
#[tactic(auto, unfolding(crate::specs::Level::no_cheaper_than))]
fn no_cheaper_than(limit: f64, price: Option<f64>, candle: Candle) -> Option<f64>
    ensures { result ≡ no_cheaper_than limit price candle }
{
    match price {
        None => None,
        Some(px) => {
            if px >= limit {
                return Some(px);
            }
            if candle.high >= limit {
                return Some(limit);
            }
            None
        }
    }
}

// It and a short's differ in each function that they call: one function over both would be passed those as closures, and be no shorter.
#[tactic(auto, unfolding(crate::specs::Level::long_fill))]
fn long_fill(kind: OrderKind, candle: Candle) -> Option<f64>
    ensures { result ≡ long_fill kind candle }
{
    match kind {
        OrderKind::Market => Some(candle.open),
        OrderKind::Limit(level) => reached_below(level, candle),
        OrderKind::Stop(level) => reached_above(level, candle),
        OrderKind::StopLimit(stop, limit) => no_dearer_than(
            limit,
            reached_above(stop, candle),
            candle,
        ),
    }
}

#[tactic(auto, unfolding(crate::specs::Level::short_fill))]
fn short_fill(kind: OrderKind, candle: Candle) -> Option<f64>
    ensures { result ≡ short_fill kind candle }
{
    match kind {
        OrderKind::Market => Some(candle.open),
        OrderKind::Limit(level) => reached_above(level, candle),
        OrderKind::Stop(level) => reached_below(level, candle),
        OrderKind::StopLimit(stop, limit) => no_cheaper_than(
            limit,
            reached_below(stop, candle),
            candle,
        ),
    }
}

// The raw price at which an entry fills on a bar; absent where the bar does not reach it, and the order works on.
#[tactic(auto, unfolding(crate::specs::Level::level_fill))]
pub fn level_fill(side: Side, kind: OrderKind, candle: Candle) -> Option<f64>
    ensures { result ≡ level_fill side kind candle }
{
    match side {
        Side::Long => long_fill(kind, candle),
        Side::Short => short_fill(kind, candle),
    }
}
