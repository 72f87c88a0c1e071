// Whether a dump refuses nothing of the words that it is handed, seen in the words as they are: no record is made of them. It is enough, and
// seldom more than is needed; where it does not hold, the lines of the refusals say which one it is, if any.
ghost use Rattle.std.specs.Prelude.{◌≡◌, ◌≤◌, ◌<◌, length};
ghost use Rattle.words.specs.Limits.{setting_words, state_words, most_slots, most_rows, most_count};
ghost use Rattle.floats.specs.Floats.{float_of};
ghost use Rattle.refusals.specs.Settings.{lot_fine};
ghost use Rattle.dumpable.specs.Laws.Passing.{finite_at, sizing_passes, kinds_pass, costs_pass, levels_pass, entries_pass, counts_pass, rooms_pass, words_pass};

use images::layout::HEAD_BYTES;
use records::state_words::entered_of;
use refusals::rooms::entry_below;
use words::limits::{MOST_COUNT, MOST_ROWS, MOST_SLOTS, ROW_FIXED, SETTING_WORDS, STATE_WORDS};
use words::places;

// Whether the float of word i is finite.
fn finite_at(w: &[u64], i: usize) -> bool
    requires { i < length w.now }
    ensures { result ≡ finite_at w.now i }
{
    floats::word_is_finite(w[i])
}

// The kind of sizing: a lookback is below D, and risk sizing has its stop loss.
fn sizing_passes(kind: u64, back: u64, depth: u64, given: u64) -> bool
    ensures { result ≡ sizing_passes kind back depth given }
{
    if kind < 3 {
        return true;
    }
    if kind == 3 {
        return back < depth;
    }
    if kind == 4 {
        return given / 4096 % 2 == 1;
    }
    false
}

// K, D and the kinds.
fn kinds_pass(w: &[u64]) -> bool
    requires { setting_words ≤ length w.now }
    ensures { result ≡ kinds_pass w.now }
{
    (w[places::SLOTS] as usize <= MOST_SLOTS)
        & (1 <= w[places::DEPTH])
        & (w[places::DEPTH] as usize <= MOST_ROWS)
        & (w[places::SLIPPAGE_KIND] <= 1)
        & (w[places::ENTRY_KIND] <= 3)
        & sizing_passes(
            w[places::SIZING_KIND],
            w[places::LOOKBACK],
            w[places::DEPTH],
            w[places::GIVEN],
        )
}

// Capital, sizing, taker fee, slippage, participation. This and the levels stay two: handed an array of five places, one function would name none.
fn costs_pass(w: &[u64]) -> bool
    requires { setting_words ≤ length w.now }
    ensures { result ≡ costs_pass w.now }
{
    finite_at(w, places::CAPITAL)
        & finite_at(w, places::SIZING_VALUE)
        & finite_at(w, places::TAKER_BPS)
        & finite_at(w, places::SLIPPAGE_VALUE)
        & finite_at(w, places::PARTICIPATION)
}

// The levels, given or not.
fn levels_pass(w: &[u64]) -> bool
    requires { setting_words ≤ length w.now }
    ensures { result ≡ levels_pass w.now }
{
    finite_at(w, places::STOP_LOSS)
        & finite_at(w, places::TRAILING_STOP)
        & finite_at(w, places::TAKE_PROFIT)
        & finite_at(w, places::MAX_LEVERAGE)
        & finite_at(w, places::MAX_POSITION)
}

// A lot is finite and not negative.
fn lot_passes(w: u64) -> bool
    ensures { result ≡ lot_fine (float_of w) }
{
    floats::word_is_finite(w) & (0.0 <= floats::float_of(w))
}

// The entries' percentages, maker fee and lot.
fn entries_pass(w: &[u64]) -> bool
    requires { setting_words ≤ length w.now }
    ensures { result ≡ entries_pass w.now }
{
    finite_at(w, places::LEVEL_PCT)
        & finite_at(w, places::LIMIT_PCT)
        & finite_at(w, places::MAKER_BPS)
        & lot_passes(w[places::LOT])
}

// Counts and the entry bar.
fn counts_pass(w: &[u64]) -> bool
    requires { state_words ≤ length w.now }
    ensures { result ≡ counts_pass w.now }
{
    (w[places::BARS_SEEN] <= MOST_COUNT)
        & (w[places::ROWS_HELD] <= MOST_COUNT)
        & (w[places::EQUITY_POINTS] <= MOST_COUNT)
        & (w[places::TRADES] <= MOST_COUNT)
        & entry_below(
            entered_of(w[places::ENTERED], w[places::ENTRY_BAR]),
            w[places::BARS_SEEN],
        )
}

// Row room and area: products of small numbers, and no division.
fn rooms_pass(slots: usize, depth: usize, held: usize, rows: usize, area: usize) -> bool
    requires { (slots ≤ most_slots) × (depth ≤ most_rows) × (held ≤ most_count) }
    ensures { result ≡ rooms_pass slots depth held rows area }
{
    let width = ROW_FIXED + slots;
    let deep = depth * width;
    (deep <= rows) & (held * width <= rows) & (HEAD_BYTES + 8 * deep <= area)
}

// Settings and state that have all their words.
fn whole_pass(settings: &[u64], state: &[u64], rows: usize, area: usize) -> bool
    requires { (setting_words ≤ length settings.now) × (state_words ≤ length state.now) }
    ensures { result ≡ words_pass settings.now state.now rows area }
{
    let fine = kinds_pass(settings)
        & costs_pass(settings)
        & levels_pass(settings)
        & entries_pass(settings)
        & counts_pass(state);
    if fine {
        return rooms_pass(
            settings[places::SLOTS] as usize,
            settings[places::DEPTH] as usize,
            state[places::ROWS_HELD] as usize,
            rows,
            area,
        );
    }
    false
}

// All of it.
pub fn words_pass(settings: &[u64], state: &[u64], rows: usize, area: usize) -> bool
    ensures { result ≡ words_pass settings.now state.now rows area }
{
    if settings.len() < SETTING_WORDS {
        return false;
    }
    if state.len() < STATE_WORDS {
        return false;
    }
    whole_pass(settings, state, rows, area)
}
