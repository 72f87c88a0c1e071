// What each case comes to.
use crate::cases;
use execution::fills::Entry;
use execution::intrabar::Trigger;
use execution::terms::Slippage;
use execution::{costs, fills, intrabar, size};
use portfolio::{Closed, Portfolio, SIGNAL};

pub(crate) fn size_of(case: &[u64]) -> Option<f64> {
    let sizing = cases::sizing(case, 1);
    let risk = cases::risk(case, 4);
    let equity = cases::float(case, 0, 15);
    let price = cases::float(case, 0, 16);
    let realized_vol = cases::optional(case, 17, 0);
    size::size(sizing, risk, equity, price, realized_vol)
}

pub(crate) fn rate_of(case: &[u64]) -> f64 {
    let slippage = cases::slippage(case, 1);
    costs::slippage_rate(slippage, cases::float(case, 0, 3), cases::float(case, 0, 4))
}

pub(crate) fn entry_of(case: &[u64], rows: &[u64]) -> Entry {
    let side = cases::side(case, 1);
    let raw = cases::float(case, 0, 2);
    let terms = cases::entry_terms(case);
    let candle = cases::candle(case, 22);
    let pf = cases::portfolio(case, 28);
    fills::execute_entry(side, raw, terms.taker_bps, terms, candle, pf, rows, 0)
}

pub(crate) fn exit_of(case: &[u64]) -> Option<Closed> {
    let raw = cases::float(case, 0, 1);
    let slippage = cases::slippage(case, 2);
    let risk = cases::no_risk();
    let terms = cases::exit_terms(risk, cases::float(case, 0, 4), slippage);
    let candle = cases::candle(case, 5);
    let pf = cases::portfolio(case, 11);
    fills::execute_exit(SIGNAL, raw, terms, candle, pf)
}

pub(crate) fn extreme_of(case: &[u64]) -> f64 {
    let candle = cases::candle(case, 13);
    let pf = cases::portfolio(case, 19);
    intrabar::extreme_with(candle, pf, cases::float(case, 0, 27))
}

pub(crate) fn left_of(case: &[u64]) -> Option<Closed> {
    let risk = cases::risk(case, 1);
    let terms = cases::exit_terms(risk, cases::float(case, 0, 12), Slippage::Unknown);
    let candle = cases::candle(case, 13);
    let pf = cases::portfolio(case, 19);
    intrabar::apply_intrabar_exits(candle, terms, pf, extreme_of(case))
}

pub(crate) fn trigger_of(case: &[u64]) -> Option<Trigger> {
    let risk = cases::risk(case, 1);
    let candle = cases::candle(case, 12);
    let entry = cases::float(case, 0, 18);
    let extreme = cases::float(case, 0, 19);
    intrabar::intrabar_exit(candle, risk, entry, extreme, cases::flag(case, 0, 20))
}

// No twin of `exited_of`: this reads another case and enters, that one leaves.
pub(crate) fn entered_of(case: &[u64]) -> Portfolio {
    let pf = cases::portfolio(case, 1);
    let qty = cases::float(case, 0, 7);
    let price = cases::float(case, 0, 8);
    let time = cases::word(case, 0, 9);
    pf.enter(qty, price, time, cases::float(case, 0, 10))
}

pub(crate) fn exited_of(case: &[u64]) -> Closed {
    let pf = cases::portfolio(case, 1);
    let price = cases::float(case, 0, 7);
    let time = cases::word(case, 0, 8);
    let fee = cases::float(case, 0, 9);
    pf.exit(price, time, fee, cases::word(case, 0, 10))
}

pub(crate) fn funded_of(case: &[u64]) -> Portfolio {
    let pf = cases::portfolio(case, 1);
    pf.apply_funding(cases::float(case, 0, 7))
}

pub(crate) fn charged_of(case: &[u64]) -> Portfolio {
    let on = cases::flag(case, 0, 1);
    let funding = cases::funding(case, 2);
    costs::charge_funding(on, funding, cases::portfolio(case, 5))
}
