// The leaves of a rule, one function for each: what a price, a slot, an operation and a comparison is. The evaluator
// and the steps call these, so each is decided once. All are total.
ghost use Rattle.std.specs.Prelude.{◌≡◌, ◌-◌};
ghost use Rattle.floats.specs.Floats.{float_of, ◌⊕◌, ◌⊘◌, three, four};
ghost use Rattle.rules.specs.Values.{words_from, price_of, slot_of, divide, tested, held, counted_since};
ghost use Rattle.rules.specs.Values as Values;

use crate::position::PositionState;
use table::kinds;

// "hlc3 is ((high+low)+close)/3"
pub fn typical(high: f64, low: f64, close: f64) -> f64
    ensures { result ≡ (high ⊕ low ⊕ close) ⊘ three }
{
    (high + low + close) / 3.0
}

// "ohlc4 (((open+high)+low)+close)/4"
pub fn mean_price(open: f64, high: f64, low: f64, close: f64) -> f64
    ensures { result ≡ («open» ⊕ high ⊕ low ⊕ close) ⊘ four }
{
    (open + high + low + close) / 4.0
}

// `price` of the row that begins at word `base`, by its selector.
pub fn price_at(rows: &[u64], base: usize, selector: u8) -> f64
    ensures { result ≡ price_of (words_from rows.now base) selector }
{
    if selector < 5 {
        return field_at(rows, base, selector as usize + 1);
    }
    let high = field_at(rows, base, words::places::BAR_HIGH);
    let low = field_at(rows, base, words::places::BAR_LOW);
    let close = field_at(rows, base, words::places::BAR_CLOSE);
    if selector == 5 {
        return typical(high, low, close);
    }
    mean_price(
        field_at(rows, base, words::places::BAR_OPEN),
        high,
        low,
        close,
    )
}

// Word j of the row that begins at word `base`, as a float.
pub fn field_at(rows: &[u64], base: usize, j: usize) -> f64
    ensures { result ≡ float_of (words_from rows.now base j) }
{
    floats::float_of(words::word_from(rows, base, j))
}

// A slot of the row that begins at word `base`, missing where its bit of the mask is 0.
pub fn slot_at(rows: &[u64], base: usize, slot: u64) -> Option<f64>
    ensures { result ≡ slot_of (words_from rows.now base) slot }
{
    let mask = words::word_from(rows, base, words::places::BAR_MASK);
    if words::limits::MOST_SLOTS as u64 <= slot {
        return None;
    }
    if (mask >> slot) % 2 == 1 {
        Some(field_at(rows, base, words::limits::ROW_FIXED + slot as usize))
    } else {
        None
    }
}

// The number for the operation, where the Rust hands `binary` a closure.
pub fn combine(kind: u8, x: f64, y: f64) -> f64
    ensures { result ≡ Values.combine kind x y }
{
    if kind == kinds::ADD {
        return x + y;
    }
    if kind == kinds::SUB {
        return x - y;
    }
    if kind == kinds::MUL {
        return x * y;
    }
    divided(x, y)
}

fn divided(x: f64, y: f64) -> f64
    ensures { result ≡ divide x y }
{
    if floats::abs(y) < floats::EPS {
        return 0.0 / 0.0;
    }
    x / y
}

// An operation on two values.
#[tactic(auto, unfolding(crate::specs::Values::combined))]
pub fn combined(kind: u8, a: Option<f64>, b: Option<f64>) -> Option<f64>
    ensures { result ≡ Values.combined kind a b }
{
    let x = a?;
    let y = b?;
    Some(combine(kind, x, y))
}

// Whether a later number takes the place of the best before it, by the kind: strictly greater for Highest, strictly less for Lowest.
fn better(kind: u8, best: f64, later: f64) -> bool
    ensures { result ≡ Values.better kind best later }
{
    if kind == kinds::HIGHEST {
        return best < later;
    }
    later < best
}

// The best of a value and a later one: missing if either is.
#[tactic(auto, unfolding(crate::specs::Values::pick))]
pub fn pick(kind: u8, best: Option<f64>, later: Option<f64>) -> Option<f64>
    ensures { result ≡ Values.pick kind best later }
{
    let before = best?;
    let now = later?;
    Some(took(kind, before, now))
}

// The better of a number and a later one.
pub fn took(kind: u8, best: f64, later: f64) -> f64
    ensures { result ≡ Values.took kind best later }
{
    if better(kind, best, later) {
        later
    } else {
        best
    }
}

// A comparison of two numbers, by its kind.
fn test(kind: u8, x: f64, y: f64) -> bool
    ensures { result ≡ tested kind x y }
{
    if kind == kinds::GT {
        return x > y;
    }
    if kind == kinds::LT {
        return x < y;
    }
    if kind == kinds::GE {
        return x >= y;
    }
    if kind == kinds::LE {
        return x <= y;
    }
    if kind == kinds::EQ {
        return floats::abs(x - y) < floats::EPS;
    }
    floats::abs(x - y) >= floats::EPS
}

// A comparison of two values: the Rust's `compare`.
#[tactic(auto, unfolding(crate::specs::Values::compared))]
pub fn compared(kind: u8, a: Option<f64>, b: Option<f64>) -> bool
    ensures { result ≡ Values.compared kind a b }
{
    match (a, b) {
        (Some(x), Some(y)) => test(kind, x, y),
        _ => false,
    }
}

// A cross of a and b, now and one bar before: the Rust's `cross`.
pub fn crossed(
    kind: u8,
    a: Option<f64>,
    b: Option<f64>,
    a_before: Option<f64>,
    b_before: Option<f64>,
) -> bool
    ensures { result ≡ Values.crossed kind a b a_before b_before }
{
    if kind == kinds::CROSS_ABOVE {
        if compared(kinds::LE, a_before, b_before) {
            return compared(kinds::GT, a, b);
        }
        return false;
    }
    if compared(kinds::GE, a_before, b_before) {
        return compared(kinds::LT, a, b);
    }
    false
}

// Between, closed at both ends.
pub fn within(x: Option<f64>, low: Option<f64>, high: Option<f64>) -> bool
    ensures { result ≡ Values.within x low high }
{
    if compared(kinds::LE, low, x) {
        return compared(kinds::LE, x, high);
    }
    false
}

// Rising or Falling, of a value now and n bars back: the Rust's `compare_prev`.
pub fn trended(kind: u8, now: Option<f64>, then: Option<f64>) -> bool
    ensures { result ≡ Values.trended kind now then }
{
    if kind == kinds::RISING {
        return compared(kinds::GT, now, then);
    }
    compared(kinds::LT, now, then)
}

// A number of bars against k, by the selector: the Rust's `int_pred`.
pub fn bars_tested(selector: u8, k: u64, n: u64) -> bool
    ensures { result ≡ Values.bars_tested selector k n }
{
    if selector == 0 {
        return n > k;
    }
    if selector == 1 {
        return n < k;
    }
    if selector == 2 {
        return n >= k;
    }
    if selector == 3 {
        return n <= k;
    }
    n == k
}

// Whether a position is open.
pub fn in_position(qty: f64) -> bool
    ensures { result ≡ held qty }
{
    floats::abs(qty) > floats::EPS
}

// BarsSinceEntry.
pub fn since_entry(selector: u8, k: u64, s: PositionState) -> bool
    ensures { result ≡ counted_since selector k s }
{
    if in_position(s.qty) {
        let entered = s.entered;
        match entered {
            None => false,
            Some(bar) => bars_tested(selector, k, bars_since(s.bars_seen, bar)),
        }
    } else {
        false
    }
}

// This bar's number less the entry bar's, 0 where that is not below.
pub fn bars_since(seen: u64, bar: u64) -> u64
    ensures { result ≡ seen - 1 - bar }
{
    seen.saturating_sub(1).saturating_sub(bar)
}
