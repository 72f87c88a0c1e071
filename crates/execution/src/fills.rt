// A working order that fills: an entry with its size, slippage and fee, or an exit.
ghost use Rattle.std.specs.Prelude.{◌≡◌};
ghost use Rattle.rows.specs.History.{history_of};
ghost use Rattle.rows.specs.Ring.{ring_of};
ghost use Rattle.execution.specs.Fills.{is_turned_away, direction, volatility_for, quantity, probe_qty, within_volume};
ghost use Rattle.execution.specs.Fills.{entry_with, execute_entry, exit_direction, execute_exit};

use crate::level::Side;
use crate::lots::Quantity;
use crate::terms::{Sizing, Slippage, Terms};
use crate::{costs, lots, size, volatility};
use portfolio::{Candle, Closed, Portfolio};

// An entry order's answer: the portfolio with the position, and the fill price. A quantity that is too large enters nothing, and the
// step that meets one is refused.
// No Option or Result: there are three cases, and none entered is no refusal.
#[derive(Clone, Copy)]
pub enum Entry {
    NoEntry,
    TooLarge,
    Entered(Portfolio, f64),
}

impl Entry {
    pub fn is_turned_away(self) -> bool
        ensures { result ≡ is_turned_away self }
    {
        match self {
            Entry::NoEntry => false,
            Entry::TooLarge => true,
            Entry::Entered(_, _) => false,
        }
    }
}

#[tactic(auto, unfolding(crate::specs::Fills::direction))]
fn direction(side: Side) -> f64
    ensures { result ≡ direction side }
{
    match side {
        Side::Long => 1.0,
        Side::Short => -1.0,
    }
}

// The volatility that the sizing asks for, over the rows before this bar, which begin at row `start`.
#[tactic(auto, unfolding(crate::specs::Fills::volatility_for))]
fn volatility_for(sizing: Sizing, rows: &[u64], slots: usize, start: usize) -> Option<f64>
    ensures { result ≡ volatility_for sizing (ring_of slots start rows.now) }
{
    match sizing {
        Sizing::VolTarget(_, lookback) => volatility::realized_vol_ring(
            rows, slots, start, lookback,
        ),
        Sizing::FixedFraction(_) => None,
        Sizing::FixedQty(_) => None,
        Sizing::FixedCash(_) => None,
        Sizing::RiskPerTrade(_) => None,
        Sizing::Unknown => None,
    }
}

// What an entry at `price` orders, in lots.
#[tactic(auto, unfolding(crate::specs::Fills::quantity))]
fn quantity(terms: Terms, cash: f64, price: f64, rv: Option<f64>) -> Quantity
    ensures { result ≡ quantity terms cash price rv }
{
    let sizing = terms.sizing;
    let risk = terms.risk;
    lots::size_in_lots(terms.lot, size::size(sizing, risk, cash, price, rv))
}

// Slippage by volume needs the order's size: what it would be at the price before slippage.
#[tactic(auto, unfolding(crate::specs::Fills::probe_qty))]
fn probe_qty(
    slippage: Slippage,
    terms: Terms,
    cash: f64,
    raw_price: f64,
    rv: Option<f64>,
) -> Quantity
    ensures { result ≡ probe_qty slippage terms cash raw_price rv }
{
    match slippage {
        Slippage::VolumeImpact(_) => quantity(terms, cash, raw_price, rv),
        Slippage::FixedBps(_) => Quantity::Nothing,
        Slippage::Unknown => Quantity::Nothing,
    }
}

// A partial fill takes at most a share of the bar's volume, in lots again.
#[tactic(auto, unfolding(crate::specs::Fills::within_volume))]
fn within_volume(terms: Terms, sized: Quantity, volume: f64) -> Quantity
    ensures { result ≡ within_volume terms sized volume }
{
    match sized {
        Quantity::Nothing => Quantity::Nothing,
        Quantity::TooLarge => Quantity::TooLarge,
        Quantity::Of(base) => {
            if terms.partial_fills {
                let share = floats::min(base, terms.max_participation * volume);
                return lots::in_lots(terms.lot, share);
            }
            Quantity::Of(base)
        }
    }
}

// The position opened, where it would not count as flat.
#[tactic(auto, unfolding(crate::specs::Fills::entry_with))]
fn entry_with(
    dir: f64,
    ordered: Quantity,
    fill: f64,
    fee_bps: f64,
    candle: Candle,
    pf: Portfolio,
) -> Entry
    ensures { result ≡ entry_with dir ordered fill fee_bps candle pf }
{
    match ordered {
        Quantity::Nothing => Entry::NoEntry,
        Quantity::TooLarge => Entry::TooLarge,
        Quantity::Of(base) => {
            if base > floats::EPS {
                let rate = fee_bps / 10_000.0;
                let fee = base * fill * rate;
                return Entry::Entered(pf.enter(dir * base, fill, candle.time, fee), fill);
            }
            Entry::NoEntry
        }
    }
}

// An entry at `raw_price`, before slippage, from flat: all of the equity is cash. `rows` are the rows before this bar.
pub fn execute_entry(
    side: Side,
    raw_price: f64,
    fee_bps: f64,
    terms: Terms,
    candle: Candle,
    pf: Portfolio,
    rows: &[u64],
    slots: usize,
) -> Entry
    ensures { result ≡ execute_entry side raw_price fee_bps terms candle pf (history_of slots rows.now) }
{
    execute_entry_ring(side, raw_price, fee_bps, terms, candle, pf, rows, slots, 0)
}

// The same where the rows before this bar begin at row `start`, go on to the last and then from the first.
#[tactic(auto, unfolding(crate::specs::Fills::execute_entry))]
pub fn execute_entry_ring(
    side: Side,
    raw_price: f64,
    fee_bps: f64,
    terms: Terms,
    candle: Candle,
    pf: Portfolio,
    rows: &[u64],
    slots: usize,
    start: usize,
) -> Entry
    ensures { result ≡ execute_entry side raw_price fee_bps terms candle pf (ring_of slots start rows.now) }
{
    let sizing = terms.sizing;
    let slippage = terms.slippage;
    let dir = direction(side);
    let rv = volatility_for(sizing, rows, slots, start);
    let probe = probe_qty(slippage, terms, pf.cash, raw_price, rv);
    if probe.is_too_large() {
        return Entry::TooLarge;
    }
    let slip = costs::slippage_rate(slippage, probe.or_zero(), candle.volume);
    let fill = raw_price * (1.0 + dir * slip);
    let sized = quantity(terms, pf.cash, fill, rv);
    let ordered = within_volume(terms, sized, candle.volume);
    entry_with(dir, ordered, fill, fee_bps, candle, pf)
}

// A long exit sells and fills lower, a short exit buys and fills higher.
#[tactic(auto, unfolding(crate::specs::Fills::exit_direction))]
fn exit_direction(pf: Portfolio) -> f64
    ensures { result ≡ exit_direction pf }
{
    if pf.is_long() {
        return -1.0;
    }
    1.0
}

// The open position closed at `raw_price`, before slippage.
#[tactic(auto, unfolding(crate::specs::Fills::execute_exit))]
pub fn execute_exit(
    reason: u64,
    raw_price: f64,
    terms: Terms,
    candle: Candle,
    pf: Portfolio,
) -> Option<Closed>
    ensures { result ≡ execute_exit reason raw_price terms candle pf }
{
    if pf.in_position() {
        let slippage = terms.slippage;
        let dir = exit_direction(pf);
        let slip = costs::slippage_rate(slippage, pf.qty, candle.volume);
        let fill = raw_price * (1.0 + dir * slip);
        return Some(costs::close(pf, fill, candle.time, terms.taker_bps, reason));
    }
    None
}
