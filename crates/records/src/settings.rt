// The settings, and what their words mean. The words are a slice, here and for a state, with its least length in a clause: C lends slices, which
// may be longer, and to hand on an array's reference each call would have to cut one.
ghost use Rattle.std.specs.Prelude.{◌≡◌, ◌≤◌, length};
ghost use Rattle.words.specs.Limits.{setting_words};
ghost use Rattle.records.specs.Settings.{flag_of, level_of, sizing_of, slippage_of, risk_of, terms_of, order_type_of, entries_of, settings_of};

use crate::fields::{float_in, padded, word_in};
use execution::level::{Entries, OrderType};
use execution::terms::{Risk, Sizing, Slippage, Terms};
use words::limits::SETTING_WORDS;
use words::places;

// The settings, with their numbers.
#[derive(Clone, Copy)]
pub struct Settings {
    // 0: K, the slots of a bar
    pub slots: usize,
    // 1: D, the rows of the window
    pub depth: usize,
    // 2
    pub capital: f64,
    // 3: bars numbered below it decide nothing
    pub warmup: u64,
    // 4: the bars that an order waits
    pub delay: u64,
    // 5 to 7 sizing, 8 taker fee, 9 and 10 slippage, 12 to 17 risk, 18 partial fills, 19 participation, 24 lot
    pub terms: Terms,
    // 11: whether funding is charged
    pub funding: bool,
    // 20 to 22 how an entry is ordered, 23 maker fee
    pub entries: Entries,
}

// The mask's bit of each optional setting, as the number to divide by: setting i has bit i.
const STOP_LOSS_BIT: u64 = 4096;

const TRAILING_STOP_BIT: u64 = 8192;

const TAKE_PROFIT_BIT: u64 = 16384;

const MAX_LEVERAGE_BIT: u64 = 32768;

const MAX_POSITION_BIT: u64 = 65536;

// Off is 0, on is any other word.
fn flag_of(w: u64) -> bool
    ensures { result ≡ flag_of w }
{
    w != 0
}

// A level, given where the lowest bit is set.
fn level_of(bits: u64, w: u64) -> Option<f64>
    ensures { result ≡ level_of bits w }
{
    if bits % 2 == 1 {
        return Some(floats::float_of(w));
    }
    None
}

// Settings 5 to 7.
fn sizing_of(kind: u64, value: u64, lookback: u64) -> Sizing
    ensures { result ≡ sizing_of kind value lookback }
{
    let x = floats::float_of(value);
    match kind {
        0 => Sizing::FixedFraction(x),
        1 => Sizing::FixedQty(x),
        2 => Sizing::FixedCash(x),
        3 => Sizing::VolTarget(x, lookback),
        4 => Sizing::RiskPerTrade(x),
        _ => Sizing::Unknown,
    }
}

// Settings 9 and 10.
fn slippage_of(kind: u64, value: u64) -> Slippage
    ensures { result ≡ slippage_of kind value }
{
    let x = floats::float_of(value);
    match kind {
        0 => Slippage::FixedBps(x),
        1 => Slippage::VolumeImpact(x),
        _ => Slippage::Unknown,
    }
}

// Settings 12 to 17. Bit i of the mask is set where setting i is given.
fn risk_of(words: &[u64]) -> Risk
    requires { setting_words ≤ length words.now }
    ensures { result ≡ risk_of words.now }
{
    let given = word_in(words, places::GIVEN);
    Risk {
        stop_loss_pct: level_of(given / STOP_LOSS_BIT, word_in(words, places::STOP_LOSS)),
        trailing_stop_pct: level_of(
            given / TRAILING_STOP_BIT,
            word_in(words, places::TRAILING_STOP),
        ),
        take_profit_pct: level_of(given / TAKE_PROFIT_BIT, word_in(words, places::TAKE_PROFIT)),
        max_leverage: level_of(
            given / MAX_LEVERAGE_BIT,
            word_in(words, places::MAX_LEVERAGE),
        ),
        max_position_pct: level_of(
            given / MAX_POSITION_BIT,
            word_in(words, places::MAX_POSITION),
        ),
        liquidation: flag_of(word_in(words, places::LIQUIDATION)),
    }
}

// Settings 5 to 10, 12 to 19 and 24.
fn terms_of(words: &[u64]) -> Terms
    requires { setting_words ≤ length words.now }
    ensures { result ≡ terms_of words.now }
{
    Terms {
        sizing: sizing_of(
            word_in(words, places::SIZING_KIND),
            word_in(words, places::SIZING_VALUE),
            word_in(words, places::LOOKBACK),
        ),
        risk: risk_of(words),
        taker_bps: float_in(words, places::TAKER_BPS),
        slippage: slippage_of(
            word_in(words, places::SLIPPAGE_KIND),
            word_in(words, places::SLIPPAGE_VALUE),
        ),
        partial_fills: flag_of(word_in(words, places::PARTIAL_FILLS)),
        max_participation: float_in(words, places::PARTICIPATION),
        lot: float_in(words, places::LOT),
    }
}

// Setting 20.
fn order_type_of(kind: u64) -> OrderType
    ensures { result ≡ order_type_of kind }
{
    match kind {
        0 => OrderType::Market,
        1 => OrderType::Limit,
        2 => OrderType::Stop,
        3 => OrderType::StopLimit,
        _ => OrderType::Unknown,
    }
}

// Settings 20 to 23.
fn entries_of(words: &[u64]) -> Entries
    requires { setting_words ≤ length words.now }
    ensures { result ≡ entries_of words.now }
{
    Entries {
        order_type: order_type_of(word_in(words, places::ENTRY_KIND)),
        level_pct: float_in(words, places::LEVEL_PCT),
        limit_pct: float_in(words, places::LIMIT_PCT),
        maker_bps: float_in(words, places::MAKER_BPS),
    }
}

// The settings of a list that has all their words.
fn whole_settings(words: &[u64]) -> Settings
    requires { setting_words ≤ length words.now }
    ensures { result ≡ settings_of words.now }
{
    Settings {
        slots: word_in(words, places::SLOTS) as usize,
        depth: word_in(words, places::DEPTH) as usize,
        capital: float_in(words, places::CAPITAL),
        warmup: word_in(words, places::WARMUP),
        delay: word_in(words, places::DELAY),
        terms: terms_of(words),
        funding: flag_of(word_in(words, places::FUNDING)),
        entries: entries_of(words),
    }
}

// The settings of a list of words; a word past the end is 0.
pub fn settings_of(words: &[u64]) -> Settings
    ensures { result ≡ settings_of words.now }
{
    if words.len() < SETTING_WORDS {
        return whole_settings(&padded::<SETTING_WORDS>(words));
    }
    whole_settings(words)
}

// The levels among them, read where they stand: whoever needs them seldom does not carry them along.
pub fn risk_in(words: &[u64]) -> Risk
    ensures { result ≡ risk_of words.now }
{
    if words.len() < SETTING_WORDS {
        let all = settings_of(words);
        let terms = all.terms;
        return terms.risk;
    }
    risk_of(words)
}
