// What a line shows, by the shape of its node. `left` is how many levels of nesting are left for the operands.
ghost use Rattle.std.specs.Prelude.{◌≡◌, cond, [], ◌∷◌, ℕ, ◌-◌, ◌≤◌, eqb, ltb, Float, Option};
ghost use Rattle.rows.specs.History.{history_of};
ghost use Rattle.rules.specs.Meaning.{value};
ghost use Rattle.rules.specs.Flat.{flat_operand_at, flat_condition_at};
ghost use Rattle.chain.specs.Missing.{Near, missing_in, first_found};
ghost use Rattle.chain.specs.Chain as Chain;
ghost use Rattle.chain.specs.Chain.{shown_by, shown_since, shown};
ghost use Rattle.chain.specs.Lines.{value_word, detail, leaf_or, detail_of};
ghost use Rattle.chain.specs.Flat.{by_ends};

use crate::lines::{
    AT_FIRST_BAR, LINK, MISSING, NO_ENTRY, POSITION, SINCE_ENTRY, TOO_FEW_BARS, VALUES,
};
use crate::missing::{first_found, first_missing};
use rules::operands::eval_operand;
use rules::position::PositionState;
use rules::shapes;
use rules::shapes::ConditionShape;
use rules::values::{bars_since, in_position};

// What a line shows: its sort, and how many of the four words are used.
#[derive(Clone, Copy)]
pub struct Detail {
    pub sort: u64,
    pub used: u64,
    pub first: u64,
    pub second: u64,
    pub third: u64,
    pub fourth: u64,
}

// The word of the operand at node i at a bar, 0 where it is missing.
fn operand_word(
    t: &[u8],
    ends: &[usize; 256],
    rows: &[u64],
    slots: usize,
    i: usize,
    bar: usize,
    left: usize,
) -> u64
    ensures { result ≡ value_word (value (history_of slots rows.now) (flat_operand_at left t.now ends.now i) bar) }
{
    match eval_operand(t, ends, rows, slots, i, bar, left) {
        None => 0,
        Some(x) => floats::word_of(x),
    }
}

// A sort that shows no words.
fn bare(sort: u64) -> Detail
    ensures { result ≡ detail sort [] }
{
    Detail {
        sort,
        used: 0,
        first: 0,
        second: 0,
        third: 0,
        fourth: 0,
    }
}

// The first missing leaf, or up to four values, of which `used` are used.
fn leaf_or(
    gone: Option<(usize, usize)>,
    used: u64,
    first: u64,
    second: u64,
    third: u64,
    fourth: u64,
) -> Detail
    ensures { result ≡ leaf_or gone (record { sort = 1; used = used; first = first; second = second; third = third; fourth = fourth }) }
{
    match gone {
        Some((node, back)) => Detail {
            sort: MISSING,
            used: 2,
            first: node as u64,
            second: back as u64,
            third: 0,
            fourth: 0,
        },
        None => Detail {
            sort: VALUES,
            used,
            first,
            second,
            third,
            fourth,
        },
    }
}

// The first missing leaf of the operands at nodes a and b, looked at `back` bars before `bar`.
fn two_missing(
    t: &[u8],
    ends: &[usize; 256],
    rows: &[u64],
    slots: usize,
    a: usize,
    b: usize,
    bar: usize,
    back: usize,
    left: usize,
) -> Option<(usize, usize)>
    requires { Near back left }
    ensures { (let m : ℕ → Option (ℕ × ℕ) = λ i. missing_in (by_ends ends.now) (history_of slots rows.now)
        (flat_operand_at left t.now ends.now i) i bar back in
        result ≡ first_found (m a) (m b)) }
{
    let x = first_missing(t, ends, rows, slots, a, bar, back, left);
    let y = first_missing(t, ends, rows, slots, b, bar, back, left);
    first_found(x, y)
}

// A comparison of the operands at nodes a and b.
fn show_compare(
    t: &[u8],
    ends: &[usize; 256],
    rows: &[u64],
    slots: usize,
    a: usize,
    b: usize,
    bar: usize,
    left: usize,
) -> Detail
    requires { left ≤ 32 }
    ensures { (let m : ℕ → ℕ → Option (ℕ × ℕ) = λ i back. missing_in (by_ends ends.now) (history_of slots rows.now)
        (flat_operand_at left t.now ends.now i) i bar back in
        let v : ℕ → ℕ → Option Float = λ i at. value (history_of slots rows.now) (flat_operand_at left t.now ends.now i) at in
        result ≡ detail_of (shown_by (first_found (m a 0) (m b 0)) (v a bar ∷ v b bar ∷ []))) }
{
    let gone = two_missing(t, ends, rows, slots, a, b, bar, 0, left);
    let x = operand_word(t, ends, rows, slots, a, bar, left);
    let y = operand_word(t, ends, rows, slots, b, bar, left);
    leaf_or(gone, 2, x, y, 0, 0)
}

// A cross of the operands at nodes a and b.
fn show_cross(
    t: &[u8],
    ends: &[usize; 256],
    rows: &[u64],
    slots: usize,
    a: usize,
    b: usize,
    bar: usize,
    left: usize,
) -> Detail
    requires { left ≤ 32 }
    ensures { (let m : ℕ → ℕ → Option (ℕ × ℕ) = λ i back. missing_in (by_ends ends.now) (history_of slots rows.now)
        (flat_operand_at left t.now ends.now i) i bar back in
        let v : ℕ → ℕ → Option Float = λ i at. value (history_of slots rows.now) (flat_operand_at left t.now ends.now i) at in
        result ≡ detail_of (cond (eqb bar 0) Chain.at_first_bar (shown_by (first_found (first_found (m a 0) (m b 0)) (first_found (m a 1) (m b 1)))
        (v a bar ∷ v b bar ∷ v a (bar - 1) ∷ v b (bar - 1) ∷ [])))) }
{
    if bar == 0 {
        return bare(AT_FIRST_BAR);
    }
    let now = two_missing(t, ends, rows, slots, a, b, bar, 0, left);
    let before = two_missing(t, ends, rows, slots, a, b, bar, 1, left);
    let gone = first_found(now, before);
    let x = operand_word(t, ends, rows, slots, a, bar, left);
    let y = operand_word(t, ends, rows, slots, b, bar, left);
    let x_before = operand_word(t, ends, rows, slots, a, bar - 1, left);
    let y_before = operand_word(t, ends, rows, slots, b, bar - 1, left);
    leaf_or(gone, 4, x, y, x_before, y_before)
}

// Between, of the operands at nodes x, low and high.
fn show_between(
    t: &[u8],
    ends: &[usize; 256],
    rows: &[u64],
    slots: usize,
    x: usize,
    low: usize,
    high: usize,
    bar: usize,
    left: usize,
) -> Detail
    requires { left ≤ 32 }
    ensures { (let m : ℕ → ℕ → Option (ℕ × ℕ) = λ i back. missing_in (by_ends ends.now) (history_of slots rows.now)
        (flat_operand_at left t.now ends.now i) i bar back in
        let v : ℕ → ℕ → Option Float = λ i at. value (history_of slots rows.now) (flat_operand_at left t.now ends.now i) at in
        result ≡ detail_of (shown_by (first_found (first_found (m x 0) (m low 0)) (m high 0)) (v x bar ∷ v low bar ∷ v high bar ∷ []))) }
{
    let two = two_missing(t, ends, rows, slots, x, low, bar, 0, left);
    let third = first_missing(t, ends, rows, slots, high, bar, 0, left);
    let gone = first_found(two, third);
    let v = operand_word(t, ends, rows, slots, x, bar, left);
    let l = operand_word(t, ends, rows, slots, low, bar, left);
    let h = operand_word(t, ends, rows, slots, high, bar, left);
    leaf_or(gone, 3, v, l, h, 0)
}

// Rising or Falling, of the operand at node a now and n bars back.
fn show_trend(
    t: &[u8],
    ends: &[usize; 256],
    rows: &[u64],
    slots: usize,
    a: usize,
    n: u64,
    bar: usize,
    left: usize,
) -> Detail
    requires { Near n left }
    ensures { (let m : ℕ → ℕ → Option (ℕ × ℕ) = λ i back. missing_in (by_ends ends.now) (history_of slots rows.now)
        (flat_operand_at left t.now ends.now i) i bar back in
        let v : ℕ → ℕ → Option Float = λ i at. value (history_of slots rows.now) (flat_operand_at left t.now ends.now i) at in
        result ≡ detail_of (cond (ltb bar n) Chain.too_few_bars (shown_by (first_found (m a 0) (m a n)) (v a bar ∷ v a (bar - n) ∷ [])))) }
{
    let back = n as usize;
    if bar < back {
        return bare(TOO_FEW_BARS);
    }
    let now = first_missing(t, ends, rows, slots, a, bar, 0, left);
    let then = first_missing(t, ends, rows, slots, a, bar, back, left);
    let gone = first_found(now, then);
    let x = operand_word(t, ends, rows, slots, a, bar, left);
    let y = operand_word(t, ends, rows, slots, a, bar - back, left);
    leaf_or(gone, 2, x, y, 0, 0)
}

// The bars since the entry, where there is one.
fn show_since(s: PositionState) -> Detail
    ensures { result ≡ detail_of (shown_since s) }
{
    if in_position(s.qty) {
        let entered = s.entered;
        match entered {
            None => bare(NO_ENTRY),
            Some(bar) => Detail {
                sort: SINCE_ENTRY,
                used: 1,
                first: bars_since(s.bars_seen, bar),
                second: 0,
                third: 0,
                fourth: 0,
            },
        }
    } else {
        bare(NO_ENTRY)
    }
}

// What the line of the condition at node i shows.
pub(crate) fn show(
    t: &[u8],
    ends: &[usize; 256],
    rows: &[u64],
    slots: usize,
    s: PositionState,
    i: usize,
    bar: usize,
    left: usize,
) -> Detail
    requires { left ≤ 32 }
    ensures { result ≡ detail_of (shown (by_ends ends.now) (history_of slots rows.now) s
        (flat_condition_at left t.now ends.now i) i bar) }
{
    if left == 0 {
        return bare(LINK);
    }
    match shapes::condition_shape(t, ends, i) {
        ConditionShape::Compare(_, a, b) => show_compare(t, ends, rows, slots, a, b, bar, left - 1),
        ConditionShape::Cross(_, a, b) => show_cross(t, ends, rows, slots, a, b, bar, left - 1),
        ConditionShape::Between(x, low, high) => {
            show_between(t, ends, rows, slots, x, low, high, bar, left - 1)
        }
        ConditionShape::Trend(_, a, n) => show_trend(t, ends, rows, slots, a, n, bar, left - 1),
        ConditionShape::Group(_, _, _) => bare(LINK),
        ConditionShape::Not(_) => bare(LINK),
        ConditionShape::InPosition(_) => bare(POSITION),
        ConditionShape::BarsSince(_, _) => show_since(s),
        ConditionShape::NoCondition => bare(LINK),
    }
}
