// The words of the answers.
use crate::cases;
use execution::fills::Entry;
use execution::intrabar::Trigger;
use portfolio::{Closed, Portfolio, Trade};

pub(crate) fn optional_words(value: Option<f64>) -> [u64; 2] {
    match value {
        None => [0, 0],
        Some(x) => [1, floats::word_of(x)],
    }
}

pub(crate) fn trigger_words(trigger: Option<Trigger>) -> [u64; 2] {
    match trigger {
        None => [0, 0],
        Some(Trigger { price, reason }) => [reason, floats::word_of(price)],
    }
}

pub(crate) fn portfolio_words(pf: Portfolio) -> [u64; 6] {
    [
        floats::word_of(pf.cash),
        floats::word_of(pf.qty),
        floats::word_of(pf.entry_price),
        pf.entry_time,
        floats::word_of(pf.entry_fee),
        floats::word_of(pf.fees_paid),
    ]
}

pub(crate) fn after_entry(entry: Entry, pf: Portfolio) -> Portfolio {
    match entry {
        Entry::NoEntry => pf,
        Entry::TooLarge => pf,
        Entry::Entered(opened, _) => opened,
    }
}

pub(crate) fn after_exit(exit: Option<Closed>, pf: Portfolio) -> Portfolio {
    match exit {
        None => pf,
        Some(closed) => {
            let left = closed.portfolio;
            left
        }
    }
}

// The marks that a case has before its order.
fn marks_before(case: &[u64]) -> [u64; 3] {
    [
        cases::word(case, 0, 34),
        cases::word(case, 0, 35),
        floats::word_of(cases::float(case, 0, 36)),
    ]
}

pub(crate) fn entry_marks(entry: Entry, case: &[u64]) -> [u64; 3] {
    match entry {
        Entry::NoEntry => marks_before(case),
        Entry::TooLarge => marks_before(case),
        Entry::Entered(_, fill) => [1, cases::word(case, 0, 37), floats::word_of(fill)],
    }
}

pub(crate) fn entry_bar(exit: Option<Closed>, flag: u64, bar: u64) -> [u64; 2] {
    match exit {
        None => [flag, bar],
        Some(_) => [0, 0],
    }
}

pub(crate) fn closed_flag(exit: Option<Closed>) -> u64 {
    match exit {
        None => 0,
        Some(_) => 1,
    }
}

// The words of a trade that the Rust has.
pub(crate) fn trade_words(trade: Trade) -> [u64; 8] {
    let w = trade.words();
    [w[0], w[1], w[2], w[3], w[4], w[5], w[6], w[7]]
}

pub(crate) fn closed_words(exit: Option<Closed>) -> [u64; 8] {
    match exit {
        None => [0; 8],
        Some(closed) => {
            let trade = closed.trade;
            trade_words(trade)
        }
    }
}

pub(crate) fn state_words(case: &[u64]) -> [u64; 3] {
    let pf = cases::portfolio(case, 1);
    let equity = pf.equity(cases::float(case, 0, 7));
    [
        floats::word_of(equity),
        u64::from(pf.in_position()),
        u64::from(pf.is_long()),
    ]
}
