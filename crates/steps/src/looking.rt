// Highest and Lowest: a look over rows one after the other, the oldest first. Floats that are finite and not negative stand in the order of
// their words, and most are: these are compared as words, with no float made of them, as far as the rows lie one after the other. Any other
// row is read as what it is. Most rows are no better than the best before them, and are passed over.
ghost use Rattle.std.specs.Prelude.{◌≡◌, true, false, ℕ, ◌+◌, ◌-◌, ◌*◌, ◌<◌, ◌≤◌, min, length, Some};
ghost use Rattle.floats.specs.Floats.{float_of};
ghost use Rattle.rows.specs.History.{history_of};
ghost use Rattle.rows.specs.Ring.{ring_of};
ghost use Rattle.table.specs.Trees.{extreme};
ghost use Rattle.rules.specs.Values.{words_from};
ghost use Rattle.rules.specs.Meaning.{series_at, extreme_over};
ghost use Rattle.steps.specs.Machine.{ago};
ghost use Rattle.steps.specs.Looks.{over_of, of_row, place_of, InRow, best_after, PassedOver, Stopped};

use crate::leaves;
use rows::ring;
use rules::values;
use table::kinds;

// A price or a slot of the row that begins at word `base`, which has it.
fn series_in(rows: &[u64], slots: usize, base: usize, slot: bool, which: u8) -> Option<f64>
    requires slots_in_bounds { base + (7 + slots) ≤ length rows.now }
    requires which_lt_slots { slot ≡ true → (which < slots) × (which < 64) }
    ensures { result ≡ of_row (over_of slot which) (words_from rows.now base) }
{
    if slot {
        return leaves::slot_in(rows, base, which as u64);
    }
    Some(leaves::price_in(rows, base, which))
}

// How many rows were passed over, and what the row after them has, if it is what stopped it. An Option would be an Option in an Option: a
// missing value stops it too.
#[derive(Clone, Copy)]
struct Stop {
    passed: usize,
    stopped: bool,
    later: Option<f64>,
}

// Row k stops it, with what it has.
fn stopped_at(k: usize, later: Option<f64>) -> Stop
    ensures { (result.passed ≡ k) × (result.stopped ≡ true) × (result.later ≡ later) }
{
    Stop {
        passed: k,
        stopped: true,
        later,
    }
}

// How many of `count` rows, one after the other from word `base`, come before one that is better than `best` or that does not have it.
// What does not change from row to row is asked for once by the compiler, so this is a loop for each case.
fn pass_rows(
    kind: u8,
    rows: &[u64],
    slots: usize,
    base: usize,
    count: usize,
    slot: bool,
    which: u8,
    best: f64,
) -> Stop
    requires slots_in_bounds { base + count * (7 + slots) ≤ length rows.now }
    requires which_lt_slots { slot ≡ true → (which < slots) × (which < 64) }
    ensures { PassedOver kind (over_of slot which) rows.now slots base best result.passed
        × Stopped (over_of slot which) rows.now slots base count result.passed result.stopped result.later }
{
    let mut at = base;
    for k in 0..count {
        let found = series_in(rows, slots, at, slot, which);
        match found {
            None => {
                return stopped_at(k, found);
            }
            Some(x) => {
                if kind == kinds::HIGHEST {
                    if best < x {
                        return stopped_at(k, found);
                    }
                } else if x < best {
                    return stopped_at(k, found);
                }
                at += words::limits::ROW_FIXED + slots;
            }
        }
    }
    let later = None;
    Stop {
        passed: count,
        stopped: false,
        later,
    }
}

// The same for any number of a slot: none is passed over where the rows do not have it.
fn pass(
    kind: u8,
    rows: &[u64],
    slots: usize,
    base: usize,
    count: usize,
    slot: bool,
    which: u8,
    best: f64,
) -> Stop
    requires { (1 ≤ count) × (base + count * (7 + slots) ≤ length rows.now) }
    ensures { PassedOver kind (over_of slot which) rows.now slots base best result.passed
        × Stopped (over_of slot which) rows.now slots base count result.passed result.stopped result.later }
{
    if slot {
        if (which as usize) < slots {
            if which < 64 {
                return pass_rows(kind, rows, slots, base, count, slot, which, best);
            }
        }
        return stopped_at(0, values::slot_at(rows, base, which as u64));
    }
    pass_rows(kind, rows, slots, base, count, slot, which, best)
}

// A price or a slot, in row i of the `held` rows that begin at row `first`.
fn series_at(
    rows: &[u64],
    slots: usize,
    held: usize,
    first: usize,
    slot: bool,
    which: u8,
    i: usize,
) -> Option<f64>
    requires { (held ≡ (history_of slots rows.now).rows) × (first ≤ held) × (i < held) }
    ensures { result ≡ series_at (ring_of slots first rows.now) (over_of slot which) i }
{
    let base = ring::place(held, first, i) * (words::limits::ROW_FIXED + slots);
    if slot {
        return values::slot_at(rows, base, which as u64);
    }
    Some(values::price_at(rows, base, which))
}

// The rows after row `at` that are passed over, up to `newest` or the words' end.
fn passed_from(
    kind: u8,
    rows: &[u64],
    slots: usize,
    held: usize,
    first: usize,
    slot: bool,
    which: u8,
    best: f64,
    at: usize,
    newest: usize,
) -> Stop
    requires { (held ≡ (history_of slots rows.now).rows) × (first ≤ held) × (at < newest) × (newest < held) }
    ensures { (at + result.passed ≤ newest) × ((oldest : ℕ) → oldest ≤ at
        → Some best ≡ extreme_over (ring_of slots first rows.now) kind (over_of slot which) oldest (at - oldest)
        → Some best ≡ extreme_over (ring_of slots first rows.now) kind (over_of slot which) oldest (at + result.passed - oldest))
        × (result.stopped ≡ true → (at + result.passed < newest)
        × (result.later ≡ series_at (ring_of slots first rows.now) (over_of slot which) (at + result.passed + 1)))
        × (result.stopped ≡ false → 1 ≤ result.passed) }
{
    let row = ring::place(held, first, at + 1);
    let base = row * (words::limits::ROW_FIXED + slots);
    let count = (held - row).min(newest - at);
    pass(kind, rows, slots, base, count, slot, which, best)
}

// The word of the infinity. Below it are the words of the finite floats that are not negative, in the order of the floats.
const INFINITY: u64 = 0x7ff0_0000_0000_0000;

// Whether a price or a slot is a word of each row.
fn in_row(slots: usize, slot: bool, which: u8) -> bool
    ensures { result ≡ true → InRow slots slot which }
{
    if slot {
        if (which as usize) < slots {
            return which < 64;
        }
        return false;
    }
    which < 5
}

// Where in the row that word stands.
fn place_of(slot: bool, which: u8) -> usize
    ensures { result ≡ place_of slot which }
{
    if slot {
        return words::limits::ROW_FIXED + which as usize;
    }
    which as usize + 1
}

// Whether the row that begins at word `base` has it: a price always.
fn has_word(rows: &[u64], slots: usize, base: usize, slot: bool, which: u8) -> bool
    requires { (base + (7 + slots) ≤ length rows.now) × InRow slots slot which }
    ensures { result ≡ true → of_row (over_of slot which) (words_from rows.now base)
        ≡ Some (float_of (words_from rows.now base (place_of slot which))) }
{
    if slot {
        let mask = rows[base + words::places::BAR_MASK];
        return (mask >> which as u64) % 2 == 1;
    }
    true
}

// How many rows are left, and the word of the best up to them.
#[derive(Clone, Copy)]
struct Quick {
    left: usize,
    best: u64,
}

// The best of `start` and `count` rows, one after the other from word `base`, up to one that does not have it, or that is negative, infinite
// or a NaN. What does not change from row to row is asked for once by the compiler, so this is a loop for each case.
// A countdown by hand, since both `for passed in 0..count` and `.rev()` cost one instruction more a row: 9.8 in place of 8.8.
fn quick_rows(
    kind: u8,
    rows: &[u64],
    slots: usize,
    base: usize,
    count: usize,
    slot: bool,
    which: u8,
    start: u64,
) -> Quick
    requires { (base + count * (7 + slots) ≤ length rows.now) × InRow slots slot which × (start < 0x7ff0_0000_0000_0000) }
    ensures { (result.left ≤ count) × (Some (float_of result.best)
        ≡ best_after kind (over_of slot which) rows.now slots base (Some (float_of start)) (count - result.left)) }
{
    let place = place_of(slot, which);
    let mut best = start;
    let mut at = base;
    let mut left = count;
    while 0 < left {
        if !has_word(rows, slots, at, slot, which) {
            return Quick { left, best };
        }
        let word = rows[at + place];
        if kind == kinds::HIGHEST {
            if best < word {
                if INFINITY <= word {
                    return Quick { left, best };
                }
                best = word;
            }
        } else if word < best {
            best = word;
        } else if INFINITY <= word {
            return Quick { left, best };
        }
        at += words::limits::ROW_FIXED + slots;
        left -= 1;
    }
    Quick { left, best }
}

// The row reached, and the best up to it.
#[derive(Clone, Copy)]
struct Looked {
    at: usize,
    best: f64,
}

// The rows after row `at`, up to `newest`, the words' end, or one that has to be read as what it is.
fn quick_from(
    kind: u8,
    rows: &[u64],
    slots: usize,
    held: usize,
    first: usize,
    slot: bool,
    which: u8,
    best: f64,
    at: usize,
    newest: usize,
) -> Looked
    requires { (held ≡ (history_of slots rows.now).rows) × (first ≤ held) × (at < newest) × (newest < held) }
    ensures { (result.at ≤ newest) × ((oldest : ℕ) → oldest ≤ at
        → Some best ≡ extreme_over (ring_of slots first rows.now) kind (over_of slot which) oldest (at - oldest)
        → Some result.best ≡ extreme_over (ring_of slots first rows.now) kind (over_of slot which) oldest (result.at - oldest)) }
{
    if in_row(slots, slot, which) {
        let word = floats::word_of(best);
        if word < INFINITY {
            let row = ring::place(held, first, at + 1);
            let base = row * (words::limits::ROW_FIXED + slots);
            let count = (held - row).min(newest - at);
            let quick = quick_rows(kind, rows, slots, base, count, slot, which, word);
            return Looked {
                at: at + (count - quick.left),
                best: floats::float_of(quick.best),
            };
        }
    }
    Looked { at, best }
}

// The best of the rows from `oldest` to `last`, where that of the oldest is `start`.
fn best_over(
    kind: u8,
    rows: &[u64],
    slots: usize,
    held: usize,
    first: usize,
    slot: bool,
    which: u8,
    start: f64,
    oldest: usize,
    last: usize,
) -> Option<f64>
    requires held_value { (held ≡ (history_of slots rows.now).rows) × (first ≤ held) × (oldest ≤ last) × (last < held) }
    requires start_value { Some start ≡ series_at (ring_of slots first rows.now) (over_of slot which) oldest }
    ensures { result ≡ extreme_over (ring_of slots first rows.now) kind (over_of slot which) oldest (last - oldest) }
{
    let mut best = start;
    let mut at = oldest;
    // A `while`, since a turn goes on by as many rows as it passed.
    while at < last {
        let quick = quick_from(kind, rows, slots, held, first, slot, which, best, at, last);
        if at < quick.at {
            at = quick.at;
            best = quick.best;
        } else {
            let stop = passed_from(kind, rows, slots, held, first, slot, which, best, at, last);
            at += stop.passed;
            if stop.stopped {
                at += 1;
                let later = stop.later;
                match later {
                    None => {
                        return None;
                    }
                    Some(x) => {
                        best = values::took(kind, best, x);
                    }
                }
            }
        }
    }
    Some(best)
}

// The same, whatever the oldest row has.
fn extreme_over(
    kind: u8,
    rows: &[u64],
    slots: usize,
    held: usize,
    first: usize,
    slot: bool,
    which: u8,
    oldest: usize,
    newest: usize,
) -> Option<f64>
    requires { (held ≡ (history_of slots rows.now).rows) × (first ≤ held) × (oldest ≤ newest) × (newest < held) }
    ensures { result ≡ extreme_over (ring_of slots first rows.now) kind (over_of slot which) oldest (newest - oldest) }
{
    let start = series_at(rows, slots, held, first, slot, which, oldest)?;
    best_over(
        kind, rows, slots, held, first, slot, which, start, oldest, newest,
    )
}

// Highest or Lowest over n rows, the newest of them `back` rows before the newest of all.
pub(crate) fn extreme_ago(
    kind: u8,
    rows: &[u64],
    slots: usize,
    held: usize,
    first: usize,
    slot: bool,
    which: u8,
    n: u64,
    back: u64,
) -> Option<f64>
    requires { (held ≡ (history_of slots rows.now).rows) × (first ≤ held) }
    ensures { result ≡ ago (ring_of slots first rows.now) (extreme kind (over_of slot which) n) back }
{
    if held as u64 <= back {
        return None;
    }
    let newest = held - 1 - back as usize;
    let rest = n.saturating_sub(1);
    if (newest as u64) < rest {
        return None;
    }
    let oldest = newest - rest as usize;
    extreme_over(kind, rows, slots, held, first, slot, which, oldest, newest)
}
