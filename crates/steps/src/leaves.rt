// Leaves: what a step gives that takes no value. Most are read from a row that is there and that has what they name: these are told at
// once, with no test of where a word lies, and the newest row's place is told beforehand.
// The rows, their slots, how many there are and where they begin travel as four parameters: in a struct that holds a reference each contract
// would say `(ring_of window.entry.slots window.entry.first window.entry.rows.now)`, and be longer.
ghost use Rattle.std.specs.Prelude.{◌≡◌, Bool, true, ◌+◌, ◌-◌, ◌*◌, ◌<◌, ◌≤◌, length, Some, Float, Option};
ghost use Rattle.floats.specs.Floats.{float_of};
ghost use Rattle.rows.specs.History.{History, history_of};
ghost use Rattle.rows.specs.Ring.{ring_place, ring_of};
ghost use Rattle.rules.specs.Values.{words_from, price_of, slot_of};
ghost use Rattle.table.specs.Trees.{const, ref, price};
ghost use Rattle.steps.specs.Bytes.{op_of};
ghost use Rattle.steps.specs.Machine.{ago, giving, effect};

use crate::step::Step;
use rules::position::PositionState;
use rules::values;
use table::kinds;

// A leaf that is told at once, and its value; or a step that is not told. An Option would be an Option in an Option: a leaf that is told may
// well be missing.
#[derive(Clone, Copy)]
pub(crate) struct AtOnce {
    pub told: bool,
    pub value: Option<f64>,
}

// A constant, `n` rows before the newest of `held` rows: missing where there are not more than n.
fn const_ago(held: usize, bits: u64, n: u64) -> Option<f64>
    ensures { (h : History) → held ≡ h.rows → result ≡ ago h (const bits) n }
{
    if n < held as u64 {
        return Some(floats::float_of(bits));
    }
    None
}

// The word where the row begins that stands `n` rows before the newest of `held` rows. They begin at row `first`, so the newest is
// the one before it.
fn row_ago(rows: &[u64], slots: usize, held: usize, first: usize, n: u64) -> usize
    requires { (held ≡ (history_of slots rows.now).rows) × (first ≤ held) × (n < held) }
    ensures { result ≡ ring_place held first (held - 1 - n) * (7 + slots) }
{
    let back = n as usize;
    if back < first {
        return (first - 1 - back) * (words::limits::ROW_FIXED + slots);
    }
    (held - 1 - (back - first)) * (words::limits::ROW_FIXED + slots)
}

// A slot, n rows back.
fn ref_ago(rows: &[u64], slots: usize, held: usize, first: usize, slot: u8, n: u64) -> Option<f64>
    requires { (held ≡ (history_of slots rows.now).rows) × (first ≤ held) }
    ensures { result ≡ ago (ring_of slots first rows.now) (ref slot) n }
{
    if n < held as u64 {
        return values::slot_at(rows, row_ago(rows, slots, held, first, n), slot as u64);
    }
    None
}

// A price, n rows back.
fn price_ago(
    rows: &[u64],
    slots: usize,
    held: usize,
    first: usize,
    selector: u8,
    n: u64,
) -> Option<f64>
    requires { (held ≡ (history_of slots rows.now).rows) × (first ≤ held) }
    ensures { result ≡ ago (ring_of slots first rows.now) (price selector) n }
{
    if n < held as u64 {
        return Some(values::price_at(rows, row_ago(rows, slots, held, first, n), selector));
    }
    None
}

// The value that a leaf gives, of whatever row.
fn leaf_ago(x: Step, rows: &[u64], slots: usize, held: usize, first: usize) -> Option<f64>
    requires held_value { (held ≡ (history_of slots rows.now).rows) × (first ≤ held) }
    requires le_kind { (1 ≤ x.kind) × (x.kind < 4) }
    ensures { (s : PositionState) (a b c d : Option Float) (y : Bool)
        → effect (ring_of slots first rows.now) s (op_of x) a b c d y ≡ giving 0 result y }
{
    if x.kind == kinds::CONST {
        return const_ago(held, x.bits, x.n);
    }
    if x.kind == kinds::REF {
        return ref_ago(rows, slots, held, first, x.selector, x.n);
    }
    price_ago(rows, slots, held, first, x.selector, x.n)
}

// The word where the newest row begins; 0 where there is none.
pub(crate) fn newest_row(rows: &[u64], slots: usize, held: usize, first: usize) -> usize
    requires { (held ≡ (history_of slots rows.now).rows) × (first ≤ held) }
    ensures { result ≡ ring_place held first (held - 1) * (7 + slots) }
{
    if held == 0 {
        return 0;
    }
    row_ago(rows, slots, held, first, 0)
}

// The same as `row_ago`, where that word is known.
fn row_back(rows: &[u64], slots: usize, held: usize, first: usize, newest: usize, n: u64) -> usize
    requires held_value { (held ≡ (history_of slots rows.now).rows) × (first ≤ held) × (n < held) }
    requires newest_value { newest ≡ ring_place held first (held - 1) * (7 + slots) }
    ensures { result ≡ ring_place held first (held - 1 - n) * (7 + slots) }
{
    if n == 0 {
        return newest;
    }
    row_ago(rows, slots, held, first, n)
}

// Word j of the row that begins at word `base`, as a float.
fn field_in(rows: &[u64], base: usize, j: usize) -> f64
    requires { base + j < length rows.now }
    ensures { result ≡ float_of (words_from rows.now base j) }
{
    floats::float_of(rows[base + j])
}

// A price of that row, told at once where the row holds it.
fn field_at_once(rows: &[u64], base: usize, selector: u8) -> AtOnce
    requires { base + 7 ≤ length rows.now }
    ensures { result.told ≡ true → result.value ≡ Some (price_of (words_from rows.now base) selector) }
{
    if selector < 5 {
        let value = Some(field_in(rows, base, selector as usize + 1));
        return AtOnce { told: true, value };
    }
    let value = None;
    AtOnce { told: false, value }
}

// A price of that row, which is there: as `values::price_at`, with no test of where a word lies.
pub(crate) fn price_in(rows: &[u64], base: usize, selector: u8) -> f64
    requires { base + 7 ≤ length rows.now }
    ensures { result ≡ price_of (words_from rows.now base) selector }
{
    if selector < 5 {
        return field_in(rows, base, selector as usize + 1);
    }
    let high = field_in(rows, base, words::places::BAR_HIGH);
    let low = field_in(rows, base, words::places::BAR_LOW);
    let close = field_in(rows, base, words::places::BAR_CLOSE);
    if selector == 5 {
        return values::typical(high, low, close);
    }
    values::mean_price(
        field_in(rows, base, words::places::BAR_OPEN),
        high,
        low,
        close,
    )
}

// A slot of that row, which has it. The test of one bit is all that it has in common with `values::slot_at`, which first asks whether the slot
// has a bit and, for each word, whether the row is there.
pub(crate) fn slot_in(rows: &[u64], base: usize, slot: u64) -> Option<f64>
    requires { (base + 7 + slot < length rows.now) × (slot < 64) }
    ensures { result ≡ slot_of (words_from rows.now base) slot }
{
    let mask = rows[base + words::places::BAR_MASK];
    if (mask >> slot) % 2 == 1 {
        Some(field_in(rows, base, words::limits::ROW_FIXED + slot as usize))
    } else {
        None
    }
}

// A slot, told at once where the row has it.
fn slot_at_once(rows: &[u64], slots: usize, base: usize, slot: u8) -> AtOnce
    requires { base + (7 + slots) ≤ length rows.now }
    ensures { result.told ≡ true → result.value ≡ slot_of (words_from rows.now base) slot }
{
    if slot < 64 {
        if (slot as usize) < slots {
            let value = slot_in(rows, base, slot as u64);
            return AtOnce { told: true, value };
        }
    }
    let value = None;
    AtOnce { told: false, value }
}

// A step of any kind: told where it is a leaf of a row that is there, and needs no reckoning.
pub(crate) fn leaf_at_once(
    x: Step,
    rows: &[u64],
    slots: usize,
    held: usize,
    first: usize,
    newest: usize,
) -> AtOnce
    requires held_value { (held ≡ (history_of slots rows.now).rows) × (first ≤ held) }
    requires newest_value { newest ≡ ring_place held first (held - 1) * (7 + slots) }
    ensures { result.told ≡ true → (s : PositionState) (a b c d : Option Float) (y : Bool)
        → effect (ring_of slots first rows.now) s (op_of x) a b c d y ≡ giving 0 result.value y }
{
    if x.n < held as u64 {
        if x.kind == kinds::CONST {
            let value = Some(floats::float_of(x.bits));
            return AtOnce { told: true, value };
        }
        let base = row_back(rows, slots, held, first, newest, x.n);
        if x.kind == kinds::PRICE {
            return field_at_once(rows, base, x.selector);
        }
        if x.kind == kinds::REF {
            return slot_at_once(rows, slots, base, x.selector);
        }
    }
    let value = None;
    AtOnce { told: false, value }
}

// The value that a leaf gives.
pub(crate) fn leaf(
    x: Step,
    rows: &[u64],
    slots: usize,
    held: usize,
    first: usize,
    newest: usize,
) -> Option<f64>
    requires held_value { (held ≡ (history_of slots rows.now).rows) × (first ≤ held) }
    requires newest_value { newest ≡ ring_place held first (held - 1) * (7 + slots) }
    requires le_kind { (1 ≤ x.kind) × (x.kind < 4) }
    ensures { (s : PositionState) (a b c d : Option Float) (y : Bool)
        → effect (ring_of slots first rows.now) s (op_of x) a b c d y ≡ giving 0 result y }
{
    let at_once = leaf_at_once(x, rows, slots, held, first, newest);
    if at_once.told {
        return at_once.value;
    }
    leaf_ago(x, rows, slots, held, first)
}
