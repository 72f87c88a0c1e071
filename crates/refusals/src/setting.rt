// Refusal 12: the settings.
ghost use Rattle.std.specs.Prelude.{◌≡◌};
ghost use Rattle.refusals.specs.Lines.{judged};
ghost use Rattle.refusals.specs.Settings.{lookback, sizing_known, sizing_value, slippage_known, slippage_value, level_fine, stop_there};
ghost use Rattle.refusals.specs.Settings.{depth_fine, sizing_lines, slippage_lines, risk_lines, term_lines, setting_lines};

use crate::entries;
use crate::verdict::Verdict;
use execution::terms::{Risk, Sizing, Slippage, Terms};
use records::settings::Settings;
use words::limits::{MOST_REACH, MOST_ROWS, MOST_SLOTS};
use words::refusal::Refusal;

// How far back sizing looks: only a volatility target does.
fn lookback_of(sizing: Sizing) -> u64
    ensures { result ≡ lookback sizing }
{
    match sizing {
        Sizing::VolTarget(_, n) => n,
        Sizing::FixedFraction(_) => 0,
        Sizing::FixedQty(_) => 0,
        Sizing::FixedCash(_) => 0,
        Sizing::RiskPerTrade(_) => 0,
        Sizing::Unknown => 0,
    }
}

fn sizing_known(sizing: Sizing) -> bool
    ensures { result ≡ sizing_known sizing }
{
    match sizing {
        Sizing::Unknown => false,
        Sizing::FixedFraction(_) => true,
        Sizing::FixedQty(_) => true,
        Sizing::FixedCash(_) => true,
        Sizing::VolTarget(_, _) => true,
        Sizing::RiskPerTrade(_) => true,
    }
}

fn sizing_value(sizing: Sizing) -> f64
    ensures { result ≡ sizing_value sizing }
{
    match sizing {
        Sizing::FixedFraction(x) => x,
        Sizing::FixedQty(x) => x,
        Sizing::FixedCash(x) => x,
        Sizing::VolTarget(x, _) => x,
        Sizing::RiskPerTrade(x) => x,
        Sizing::Unknown => 0.0,
    }
}

fn slippage_known(slippage: Slippage) -> bool
    ensures { result ≡ slippage_known slippage }
{
    match slippage {
        Slippage::Unknown => false,
        Slippage::FixedBps(_) => true,
        Slippage::VolumeImpact(_) => true,
    }
}

fn slippage_value(slippage: Slippage) -> f64
    ensures { result ≡ slippage_value slippage }
{
    match slippage {
        Slippage::FixedBps(x) => x,
        Slippage::VolumeImpact(x) => x,
        Slippage::Unknown => 0.0,
    }
}

// A level that is there is finite.
fn level_fine(level: Option<f64>) -> bool
    ensures { result ≡ level_fine level }
{
    match level {
        None => true,
        Some(x) => floats::is_finite(x),
    }
}

// Risk sizing has its stop loss.
fn stop_there(sizing: Sizing, stop: Option<f64>) -> bool
    ensures { result ≡ stop_there sizing stop }
{
    match sizing {
        Sizing::RiskPerTrade(_) => match stop {
            None => false,
            Some(_) => true,
        },
        Sizing::FixedFraction(_) => true,
        Sizing::FixedQty(_) => true,
        Sizing::FixedCash(_) => true,
        Sizing::VolTarget(_, _) => true,
        Sizing::Unknown => true,
    }
}

// Whether D is in its range and above what sizing looks back.
fn depth_fine(depth: usize, sizing: Sizing) -> bool
    ensures { result ≡ depth_fine depth sizing }
{
    if depth < 1 {
        return false;
    }
    if MOST_ROWS < depth {
        return false;
    }
    lookback_of(sizing) < depth as u64
}

// Settings 5 to 7.
fn judge_sizing(sizing: Sizing) -> Verdict
    ensures { result ≡ judged (sizing_lines sizing) }
{
    if !sizing_known(sizing) {
        return Err(Refusal::Setting(5));
    }
    if !floats::is_finite(sizing_value(sizing)) {
        return Err(Refusal::Setting(6));
    }
    if MOST_REACH < lookback_of(sizing) {
        return Err(Refusal::Setting(7));
    }
    Ok(())
}

// Settings 9 and 10.
fn judge_slippage(slippage: Slippage) -> Verdict
    ensures { result ≡ judged (slippage_lines slippage) }
{
    if !slippage_known(slippage) {
        return Err(Refusal::Setting(9));
    }
    if !floats::is_finite(slippage_value(slippage)) {
        return Err(Refusal::Setting(10));
    }
    Ok(())
}

// Settings 12 to 16.
fn judge_risk(sizing: Sizing, risk: Risk) -> Verdict
    ensures { result ≡ judged (risk_lines sizing risk) }
{
    let stop = risk.stop_loss_pct;
    let trailing = risk.trailing_stop_pct;
    let take = risk.take_profit_pct;
    let leverage = risk.max_leverage;
    let position = risk.max_position_pct;
    if !stop_there(sizing, stop) {
        return Err(Refusal::Setting(12));
    }
    if !level_fine(stop) {
        return Err(Refusal::Setting(12));
    }
    if !level_fine(trailing) {
        return Err(Refusal::Setting(13));
    }
    if !level_fine(take) {
        return Err(Refusal::Setting(14));
    }
    if !level_fine(leverage) {
        return Err(Refusal::Setting(15));
    }
    if !level_fine(position) {
        return Err(Refusal::Setting(16));
    }
    Ok(())
}

// Settings 5 to 19 but 11.
fn judge_terms(t: Terms) -> Verdict
    ensures { result ≡ judged (term_lines t) }
{
    let sizing = t.sizing;
    let slippage = t.slippage;
    let risk = t.risk;
    judge_sizing(sizing)?;
    if !floats::is_finite(t.taker_bps) {
        return Err(Refusal::Setting(8));
    }
    judge_slippage(slippage)?;
    judge_risk(sizing, risk)?;
    if !floats::is_finite(t.max_participation) {
        return Err(Refusal::Setting(19));
    }
    Ok(())
}

// All settings, in the order of their numbers: the lowest decides, and none above it is looked at.
pub fn judge_settings(s: Settings) -> Verdict
    ensures { result ≡ judged (setting_lines s) }
{
    let terms = s.terms;
    let placing = s.entries;
    let sizing = terms.sizing;
    if MOST_SLOTS < s.slots {
        return Err(Refusal::Setting(0));
    }
    if !depth_fine(s.depth, sizing) {
        return Err(Refusal::Setting(1));
    }
    if !floats::is_finite(s.capital) {
        return Err(Refusal::Setting(2));
    }
    judge_terms(terms)?;
    entries::judge_entries(placing, terms.lot)
}
