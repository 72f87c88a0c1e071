// The parts of a case, each read from its place among the case's words, which are 0 past the end.
use execution::costs::Funding;
use execution::level::Side;
use execution::terms::{Risk, Sizing, Slippage, Terms};
use portfolio::{Candle, Portfolio};

// Word j after place `base`.
pub(crate) fn word(case: &[u64], base: usize, j: usize) -> u64 {
    words::word_from(case, base, j)
}

pub(crate) fn float(case: &[u64], base: usize, j: usize) -> f64 {
    floats::float_of(word(case, base, j))
}

pub(crate) fn flag(case: &[u64], base: usize, j: usize) -> bool {
    word(case, base, j) != 0
}

// A flag, and the number after it. The flags stand at even places.
pub(crate) fn optional(case: &[u64], base: usize, j: u8) -> Option<f64> {
    if flag(case, base, j as usize) {
        return Some(float(case, base, j as usize + 1));
    }
    None
}

pub(crate) fn sizing(case: &[u64], base: usize) -> Sizing {
    let kind = word(case, base, 0);
    let value = float(case, base, 1);
    if kind == 0 {
        return Sizing::FixedFraction(value);
    }
    if kind == 1 {
        return Sizing::FixedQty(value);
    }
    if kind == 2 {
        return Sizing::FixedCash(value);
    }
    if kind == 3 {
        return Sizing::VolTarget(value, word(case, base, 2));
    }
    if kind == 4 {
        return Sizing::RiskPerTrade(value);
    }
    Sizing::Unknown
}

pub(crate) fn slippage(case: &[u64], base: usize) -> Slippage {
    let kind = word(case, base, 0);
    let value = float(case, base, 1);
    if kind == 0 {
        return Slippage::FixedBps(value);
    }
    if kind == 1 {
        return Slippage::VolumeImpact(value);
    }
    Slippage::Unknown
}

pub(crate) fn risk(case: &[u64], base: usize) -> Risk {
    let stop_loss_pct = optional(case, base, 0);
    let trailing_stop_pct = optional(case, base, 2);
    let take_profit_pct = optional(case, base, 4);
    let max_leverage = optional(case, base, 6);
    let max_position_pct = optional(case, base, 8);
    Risk {
        stop_loss_pct,
        trailing_stop_pct,
        take_profit_pct,
        max_leverage,
        max_position_pct,
        liquidation: flag(case, base, 10),
    }
}

pub(crate) fn candle(case: &[u64], base: usize) -> Candle {
    Candle {
        time: word(case, base, 0),
        open: float(case, base, 1),
        high: float(case, base, 2),
        low: float(case, base, 3),
        close: float(case, base, 4),
        volume: float(case, base, 5),
    }
}

pub(crate) fn portfolio(case: &[u64], base: usize) -> Portfolio {
    Portfolio {
        cash: float(case, base, 0),
        qty: float(case, base, 1),
        entry_price: float(case, base, 2),
        entry_time: word(case, base, 3),
        entry_fee: float(case, base, 4),
        fees_paid: float(case, base, 5),
        funding: 0.0,
        worst: 0.0,
    }
}

pub(crate) fn side(case: &[u64], base: usize) -> Side {
    if flag(case, base, 0) {
        return Side::Short;
    }
    Side::Long
}

pub(crate) fn funding(case: &[u64], base: usize) -> Option<Funding> {
    if flag(case, base, 0) {
        return Some(Funding {
            mark: float(case, base, 1),
            rate: float(case, base, 2),
        });
    }
    None
}

// The settings of an entry.
pub(crate) fn entry_terms(case: &[u64]) -> Terms {
    let sizing = sizing(case, 3);
    let risk = risk(case, 6);
    let slippage = slippage(case, 17);
    Terms {
        sizing,
        risk,
        taker_bps: float(case, 0, 19),
        slippage,
        partial_fills: flag(case, 0, 20),
        max_participation: float(case, 0, 21),
        lot: 0.0,
    }
}

// The settings of an exit.
pub(crate) fn exit_terms(risk: Risk, taker_bps: f64, slippage: Slippage) -> Terms {
    Terms {
        sizing: Sizing::Unknown,
        risk,
        taker_bps,
        slippage,
        partial_fills: false,
        max_participation: 0.0,
        lot: 0.0,
    }
}

// No level at all.
pub(crate) fn no_risk() -> Risk {
    Risk {
        stop_loss_pct: None,
        trailing_stop_pct: None,
        take_profit_pct: None,
        max_leverage: None,
        max_position_pct: None,
        liquidation: false,
    }
}
