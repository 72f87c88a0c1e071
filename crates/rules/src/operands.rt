// An operand at a bar, over the flat table: `eval_operand` and `binary` of the Rust, which call each other. `left` is how
// many levels of nesting are left, the operand's own counted; it falls with each level, so the two end on any bytes.
ghost use Rattle.std.specs.Prelude.{◌≡◌, ℕ, ◌-◌, ◌≤◌, ◌<◌, Float, Option, Some};
ghost use Rattle.rows.specs.History.{history_of};
ghost use Rattle.rules.specs.Values.{price_of, slot_of, combined};
ghost use Rattle.rules.specs.Meaning.{series_at, extreme_over, extreme_at, value};
ghost use Rattle.rules.specs.Flat.{flat_operand_at};

use crate::shapes::OperandShape;
use crate::{shapes, values};
use table::series::{Series, series_in};

// A price of the row of a bar that is there.
fn price_of_bar(rows: &[u64], slots: usize, bar: usize, selector: u8) -> f64
    requires { bar < (history_of slots rows.now).rows }
    ensures { result ≡ price_of ((history_of slots rows.now).word bar) selector }
{
    values::price_at(rows, bar * (words::limits::ROW_FIXED + slots), selector)
}

// A slot of the row of a bar that is there.
fn slot_of_bar(rows: &[u64], slots: usize, bar: usize, slot: u64) -> Option<f64>
    requires { bar < (history_of slots rows.now).rows }
    ensures { result ≡ slot_of ((history_of slots rows.now).word bar) slot }
{
    values::slot_at(rows, bar * (words::limits::ROW_FIXED + slots), slot)
}

// A price or a slot of the row of a bar that is there.
#[inline(always)]
fn series_of_bar(rows: &[u64], slots: usize, over: Series, bar: usize) -> Option<f64>
    requires { bar < (history_of slots rows.now).rows }
    ensures { result ≡ series_at (history_of slots rows.now) over bar }
{
    match over {
        Series::Price(selector) => Some(price_of_bar(rows, slots, bar, selector)),
        Series::Slot(slot) => slot_of_bar(rows, slots, bar, slot),
    }
}

// One of the five numbers that a row itself holds, of a bar that is there.
fn field_of_bar(rows: &[u64], slots: usize, bar: usize, selector: u8) -> f64
    requires { (bar < (history_of slots rows.now).rows) × (selector < 5) }
    ensures { result ≡ price_of ((history_of slots rows.now).word bar) selector }
{
    values::field_at(
        rows,
        bar * (words::limits::ROW_FIXED + slots),
        selector as usize + 1,
    )
}

// The best of such a number over the bars from `oldest` to `bar`, which is there: it starts at the oldest. A loop of its own: by `series_of_bar` it
// takes 18 instructions a bar more.
fn field_over(kind: u8, rows: &[u64], slots: usize, selector: u8, oldest: usize, bar: usize) -> f64
    requires { (oldest ≤ bar) × (bar < (history_of slots rows.now).rows) × (selector < 5) }
    ensures { Some result ≡ extreme_over (history_of slots rows.now) kind (Series.Price selector) oldest (bar - oldest) }
{
    let mut best = field_of_bar(rows, slots, oldest, selector);
    for at in oldest..bar {
        best = values::took(kind, best, field_of_bar(rows, slots, at + 1, selector));
    }
    best
}

// The best of a price or a slot over the bars from `oldest` to `bar`, which is there: it starts at the oldest, and is missing if it
// is absent in any. Compiled into each of its two calls, with `series_of_bar`, so that what is looked over is asked once and not for each
// bar: of a slot that is 29 instructions a bar.
#[inline(always)]
fn series_over(
    kind: u8,
    rows: &[u64],
    slots: usize,
    over: Series,
    oldest: usize,
    bar: usize,
) -> Option<f64>
    requires { (oldest ≤ bar) × (bar < (history_of slots rows.now).rows) }
    ensures { result ≡ extreme_over (history_of slots rows.now) kind over oldest (bar - oldest) }
{
    let mut best = series_of_bar(rows, slots, over, oldest);
    for at in oldest..bar {
        best = values::pick(kind, best, series_of_bar(rows, slots, over, at + 1));
    }
    best
}

// The same, by the loop for what is looked over; each call of `series_over` names its case.
fn extreme_over(
    kind: u8,
    rows: &[u64],
    slots: usize,
    over: Series,
    oldest: usize,
    bar: usize,
) -> Option<f64>
    requires { (oldest ≤ bar) × (bar < (history_of slots rows.now).rows) }
    ensures { result ≡ extreme_over (history_of slots rows.now) kind over oldest (bar - oldest) }
{
    match over {
        Series::Price(selector) if selector < 5 => {
            Some(field_over(kind, rows, slots, selector, oldest, bar))
        }
        Series::Price(selector) => {
            series_over(kind, rows, slots, Series::Price(selector), oldest, bar)
        }
        Series::Slot(slot) => series_over(kind, rows, slots, Series::Slot(slot), oldest, bar),
    }
}

// Highest or Lowest at a bar that is there: over that bar and the n - 1 before it.
fn extreme_of_bar(
    kind: u8,
    rows: &[u64],
    slots: usize,
    over: Series,
    n: u64,
    bar: usize,
) -> Option<f64>
    requires { bar < (history_of slots rows.now).rows }
    ensures { result ≡ extreme_at (history_of slots rows.now) kind over n bar }
{
    let before = n.saturating_sub(1) as usize;
    if bar < before {
        return None;
    }
    extreme_over(kind, rows, slots, over, bar - before, bar)
}

// The operand at node i, at bar `bar`.
#[cycle(binary_eval_operand)]
pub fn eval_operand(
    t: &[u8],
    ends: &[usize; 256],
    rows: &[u64],
    slots: usize,
    i: usize,
    bar: usize,
    left: usize,
) -> Option<f64>
    ensures { result ≡ value (history_of slots rows.now) (flat_operand_at left t.now ends.now i) bar }
{
    if rows::row_count(rows, slots) <= bar {
        return None;
    }
    if left == 0 {
        return Some(0.0);
    }
    match shapes::operand_shape(t, ends, i) {
        OperandShape::Const(bits) => Some(floats::float_of(bits)),
        OperandShape::Ref(slot) => slot_of_bar(rows, slots, bar, slot),
        OperandShape::Price(selector) => Some(price_of_bar(rows, slots, bar, selector)),
        OperandShape::Prev(a, n) => {
            let back = n as usize;
            if bar < back {
                return None;
            }
            eval_operand(t, ends, rows, slots, a, bar - back, left - 1)
        }
        OperandShape::Arith(kind, a, b) => binary(kind, t, ends, rows, slots, a, b, bar, left - 1),
        OperandShape::Extreme(kind, a, n) => {
            let over = series_in(t, a);
            extreme_of_bar(kind, rows, slots, over, n, bar)
        }
        OperandShape::NoOperand => Some(0.0),
    }
}

// The operation on the operands at nodes a and b.
#[cycle(binary_eval_operand)]
fn binary(
    kind: u8,
    t: &[u8],
    ends: &[usize; 256],
    rows: &[u64],
    slots: usize,
    a: usize,
    b: usize,
    bar: usize,
    left: usize,
) -> Option<f64>
    ensures { (let v : ℕ → ℕ → Option Float = λ i at.
        value (history_of slots rows.now) (flat_operand_at left t.now ends.now i) at in
        result ≡ combined kind (v a bar) (v b bar)) }
{
    let x = eval_operand(t, ends, rows, slots, a, bar, left)?;
    let y = eval_operand(t, ends, rows, slots, b, bar, left)?;
    Some(values::combine(kind, x, y))
}
