// A condition at a bar, over the flat table: `eval_condition` of the Rust and what it calls. `left` is how many levels of
// nesting are left, the condition's own counted; it falls with each level.
ghost use Rattle.std.specs.Prelude.{◌≡◌, cond, not, ◌&&◌, ℕ, ◌-◌, eqb, ltb, Float, Option};
ghost use Rattle.rows.specs.History.{history_of};
ghost use Rattle.rules.specs.Values.{compared, crossed, within, trended, held};
ghost use Rattle.rules.specs.Meaning.{value, holds};
ghost use Rattle.rules.specs.Flat.{flat_operand_at, grow_conditions, group, flat_condition_at};

use crate::operands::eval_operand;
use crate::position::PositionState;
use crate::shapes::ConditionShape;
use crate::{shapes, values};

// A comparison of the operands at nodes a and b.
fn compare(
    kind: u8,
    t: &[u8],
    ends: &[usize; 256],
    rows: &[u64],
    slots: usize,
    a: usize,
    b: usize,
    bar: usize,
    left: usize,
) -> bool
    ensures { (let v : ℕ → ℕ → Option Float = λ i at.
        value (history_of slots rows.now) (flat_operand_at left t.now ends.now i) at in
        result ≡ compared kind (v a bar) (v b bar)) }
{
    let x = eval_operand(t, ends, rows, slots, a, bar, left);
    let y = eval_operand(t, ends, rows, slots, b, bar, left);
    values::compared(kind, x, y)
}

// A cross of the operands at nodes a and b: no at bar 0.
fn cross(
    kind: u8,
    t: &[u8],
    ends: &[usize; 256],
    rows: &[u64],
    slots: usize,
    a: usize,
    b: usize,
    bar: usize,
    left: usize,
) -> bool
    ensures { (let v : ℕ → ℕ → Option Float = λ i at.
        value (history_of slots rows.now) (flat_operand_at left t.now ends.now i) at in
        result ≡ (not (eqb bar 0) && crossed kind (v a bar) (v b bar) (v a (bar - 1)) (v b (bar - 1)))) }
{
    if bar == 0 {
        return false;
    }
    let x = eval_operand(t, ends, rows, slots, a, bar, left);
    let y = eval_operand(t, ends, rows, slots, b, bar, left);
    let x_before = eval_operand(t, ends, rows, slots, a, bar - 1, left);
    let y_before = eval_operand(t, ends, rows, slots, b, bar - 1, left);
    values::crossed(kind, x, y, x_before, y_before)
}

// Between, of the operands at nodes x, low and high.
fn between(
    t: &[u8],
    ends: &[usize; 256],
    rows: &[u64],
    slots: usize,
    x: usize,
    low: usize,
    high: usize,
    bar: usize,
    left: usize,
) -> bool
    ensures { (let v : ℕ → ℕ → Option Float = λ i at.
        value (history_of slots rows.now) (flat_operand_at left t.now ends.now i) at in
        result ≡ within (v x bar) (v low bar) (v high bar)) }
{
    let v = eval_operand(t, ends, rows, slots, x, bar, left);
    let l = eval_operand(t, ends, rows, slots, low, bar, left);
    let h = eval_operand(t, ends, rows, slots, high, bar, left);
    values::within(v, l, h)
}

// Rising or Falling, of the operand at node a now and n bars back.
fn compare_prev(
    kind: u8,
    t: &[u8],
    ends: &[usize; 256],
    rows: &[u64],
    slots: usize,
    a: usize,
    n: u64,
    bar: usize,
    left: usize,
) -> bool
    ensures { (let v : ℕ → ℕ → Option Float = λ i at.
        value (history_of slots rows.now) (flat_operand_at left t.now ends.now i) at in
        result ≡ (not (ltb bar n) && trended kind (v a bar) (v a (bar - n)))) }
{
    let back = n as usize;
    if bar < back {
        return false;
    }
    let now = eval_operand(t, ends, rows, slots, a, bar, left);
    let then = eval_operand(t, ends, rows, slots, a, bar - back, left);
    values::trended(kind, now, then)
}

// InPosition.
fn in_position(wanted: bool, s: PositionState) -> bool
    ensures { result ≡ cond wanted (held s.qty) (not (held s.qty)) }
{
    let held = values::in_position(s.qty);
    if wanted { held } else { !held }
}

// The condition at node i, at bar `bar`.
#[cycle(eval_condition_eval_group)]
pub fn eval_condition(
    t: &[u8],
    ends: &[usize; 256],
    rows: &[u64],
    slots: usize,
    s: PositionState,
    i: usize,
    bar: usize,
    left: usize,
) -> bool
    ensures { result ≡ holds (history_of slots rows.now) s (flat_condition_at left t.now ends.now i) bar }
{
    if left == 0 {
        return false;
    }
    match shapes::condition_shape(t, ends, i) {
        ConditionShape::Compare(kind, a, b) => {
            compare(kind, t, ends, rows, slots, a, b, bar, left - 1)
        }
        ConditionShape::Cross(kind, a, b) => cross(kind, t, ends, rows, slots, a, b, bar, left - 1),
        ConditionShape::Between(x, low, high) => {
            between(t, ends, rows, slots, x, low, high, bar, left - 1)
        }
        ConditionShape::Trend(kind, a, n) => {
            compare_prev(kind, t, ends, rows, slots, a, n, bar, left - 1)
        }
        ConditionShape::Group(all, n, first) => {
            eval_group(all, n, t, ends, rows, slots, s, first, bar, left - 1)
        }
        ConditionShape::Not(a) => !eval_condition(t, ends, rows, slots, s, a, bar, left - 1),
        ConditionShape::InPosition(wanted) => in_position(wanted, s),
        ConditionShape::BarsSince(selector, k) => values::since_entry(selector, k, s),
        ConditionShape::NoCondition => false,
    }
}

// All or Any of the n conditions from node `first` on: the first that is not as `all` decides.
#[cycle(eval_condition_eval_group)]
fn eval_group(
    all: bool,
    n: usize,
    t: &[u8],
    ends: &[usize; 256],
    rows: &[u64],
    slots: usize,
    s: PositionState,
    first: usize,
    bar: usize,
    left: usize,
) -> bool
    ensures { result ≡ holds (history_of slots rows.now) s
        (group all (grow_conditions (flat_condition_at left t.now ends.now) ends.now n first)) bar }
{
    let mut at = first;
    for m in 0..n {
        if eval_condition(t, ends, rows, slots, s, at, bar, left) != all {
            return !all;
        }
        at = shapes::end_in(ends, at);
    }
    all
}
