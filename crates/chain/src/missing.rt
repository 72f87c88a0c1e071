// The first missing leaf of an operand, over the flat table. `left` is how many levels of nesting are left, the operand's own
// counted.
ghost use Rattle.std.specs.Prelude.{◌≡◌, ◌+◌, ◌-◌, ◌≤◌};
ghost use Rattle.rows.specs.History.{history_of};
ghost use Rattle.table.specs.Series.{as_operand};
ghost use Rattle.rules.specs.Flat.{flat_operand_at};
ghost use Rattle.chain.specs.Missing.{Near, leaf_gone, newest_gone, missing_in};
ghost use Rattle.chain.specs.Missing as Missing;
ghost use Rattle.chain.specs.Flat.{by_ends};

use rules::operands::eval_operand;
use rules::shapes::OperandShape;
use rules::{shapes, values};
use table::series::{Series, series_in};

// The one of the two that comes first.
pub(crate) fn first_found(
    first: Option<(usize, usize)>,
    second: Option<(usize, usize)>,
) -> Option<(usize, usize)>
    ensures { result ≡ Missing.first_found first second }
{
    match first {
        Some((node, back)) => Some((node, back)),
        None => second,
    }
}

// Node i, a leaf, where it is missing `back` bars before `bar`.
fn leaf_gone(
    t: &[u8],
    ends: &[usize; 256],
    rows: &[u64],
    slots: usize,
    i: usize,
    bar: usize,
    back: usize,
    left: usize,
) -> Option<(usize, usize)>
    ensures { result ≡ leaf_gone (history_of slots rows.now) (flat_operand_at left t.now ends.now i) i bar back }
{
    if bar < back {
        return Some((i, back));
    }
    match eval_operand(t, ends, rows, slots, i, bar - back, left) {
        None => Some((i, back)),
        Some(_) => None,
    }
}

// Node i, a price or a slot, where it is missing `back` bars before `bar`.
fn series_gone(
    rows: &[u64],
    slots: usize,
    over: Series,
    i: usize,
    bar: usize,
    back: usize,
) -> Option<(usize, usize)>
    ensures { result ≡ leaf_gone (history_of slots rows.now) (as_operand over) i bar back }
{
    if bar < back {
        return Some((i, back));
    }
    let at = bar - back;
    if rows::row_count(rows, slots) <= at {
        return Some((i, back));
    }
    match over {
        Series::Price(_) => None,
        Series::Slot(slot) => {
            match values::slot_at(rows, at * (words::limits::ROW_FIXED + slots), slot) {
                None => Some((i, back)),
                Some(_) => None,
            }
        }
    }
}

// Node i at the newest bar where it is missing, of the one `back` bars before `bar` and the `more` before that.
fn newest_gone(
    rows: &[u64],
    slots: usize,
    over: Series,
    i: usize,
    bar: usize,
    back: usize,
    more: usize,
) -> Option<(usize, usize)>
    requires { back + more ≤ 1099511627776 }
    ensures { result ≡ newest_gone (history_of slots rows.now) (as_operand over) i bar back more }
{
    for at in back..back + more {
        match series_gone(rows, slots, over, i, bar, at) {
            Some((node, far)) => return Some((node, far)),
            None => {}
        }
    }
    series_gone(rows, slots, over, i, bar, back + more)
}

// The first missing leaf of the operand at node i, looked at `back` bars before `bar`.
pub(crate) fn first_missing(
    t: &[u8],
    ends: &[usize; 256],
    rows: &[u64],
    slots: usize,
    i: usize,
    bar: usize,
    back: usize,
    left: usize,
) -> Option<(usize, usize)>
    requires { Near back left }
    ensures { result ≡ missing_in (by_ends ends.now) (history_of slots rows.now)
        (flat_operand_at left t.now ends.now i) i bar back }
{
    if left == 0 {
        return leaf_gone(t, ends, rows, slots, i, bar, back, left);
    }
    match shapes::operand_shape(t, ends, i) {
        OperandShape::Const(_) => leaf_gone(t, ends, rows, slots, i, bar, back, left),
        OperandShape::Ref(_) => leaf_gone(t, ends, rows, slots, i, bar, back, left),
        OperandShape::Price(_) => leaf_gone(t, ends, rows, slots, i, bar, back, left),
        OperandShape::Prev(a, n) => {
            let further = back + n as usize;
            first_missing(t, ends, rows, slots, a, bar, further, left - 1)
        }
        OperandShape::Arith(_, a, b) => {
            let x = first_missing(t, ends, rows, slots, a, bar, back, left - 1);
            let y = first_missing(t, ends, rows, slots, b, bar, back, left - 1);
            first_found(x, y)
        }
        OperandShape::Extreme(_, a, n) => {
            let over = series_in(t, a);
            let more = n.saturating_sub(1) as usize;
            newest_gone(rows, slots, over, a, bar, back, more)
        }
        OperandShape::NoOperand => leaf_gone(t, ends, rows, slots, i, bar, back, left),
    }
}
