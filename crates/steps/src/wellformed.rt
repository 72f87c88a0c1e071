// Which lists of steps are well formed, for rows of so many slots and a window of so many rows.
ghost use Rattle.std.specs.Prelude.{◌≡◌, ◌+◌, ◌-◌, ◌<◌, ◌≤◌, length, Err};
ghost use Rattle.steps.specs.Bytes.{read_step, steps_in};
ghost use Rattle.steps.specs.WellFormed.{zeros, rows_fit, unused_fields_zero, series_within, looks_within, bounded, good_step, formed_from, formed};

use crate::step::{Op, Step};
use crate::{decode, quick};
use table::series::Series;
use words::limits::MOST_STEPS;

#[tactic(auto, unfolding(crate::specs::WellFormed::zeros))]
fn zeros(selector: u8, skip: u64, n: u64, bits: u64) -> bool
    ensures { result ≡ zeros selector skip n bits }
{
    selector == 0 && skip == 0 && n == 0 && bits == 0
}

// Whether a look over `skip` rows, the oldest of them n rows back, is over one at least, and ends by the newest; and the constant is zero.
fn rows_fit(skip: u64, n: u64, bits: u64) -> bool
    ensures { result ≡ rows_fit skip n bits }
{
    if skip == 0 {
        return false;
    }
    if skip - 1 <= n {
        return bits == 0;
    }
    false
}

// Whether the slot that is looked over, if it is one, is below `slots`.
fn series_within(slots: u64, over: Series) -> bool
    ensures { result ≡ series_within slots over }
{
    match over {
        Series::Price(_) => true,
        Series::Slot(k) => k < slots,
    }
}

// Whether a look over n rows, the newest of them `back` rows back, has its oldest below `depth`.
fn looks_within(slots: u64, depth: u64, over: Series, n: u64, back: u64) -> bool
    ensures { result ≡ looks_within slots depth over n back }
{
    if series_within(slots, over) {
        let rest = n.saturating_sub(1);
        if depth <= rest {
            return false;
        }
        return back < depth - rest;
    }
    false
}

// Whether the step is of a known kind and the fields that its kind does not use are zero. Two functions go over the operations, this and
// `bounded`, since they are two rules, each with a definition of its own.
#[tactic(auto, unfolding(crate::specs::WellFormed::unused_fields_zero))]
fn unused_fields_zero(x: Step, op: Op) -> bool
    ensures { result ≡ unused_fields_zero x op }
{
    match op {
        Op::Const(_, _) => zeros(x.selector, x.skip, 0, 0),
        Op::Ref(_, _) | Op::Price(_, _) => zeros(0, x.skip, 0, x.bits),
        Op::Extreme(_, _, _, _) => rows_fit(x.skip, x.n, x.bits),
        Op::Arith(_) | Op::Compare(_) | Op::Cross(_) | Op::Between | Op::Answer(_) | Op::Turn => {
            zeros(x.selector, x.skip, x.n, x.bits)
        }
        Op::InPosition(_) => zeros(0, x.skip, x.n, x.bits),
        Op::BarsSinceEntry(_, _) => zeros(0, x.skip, 0, x.bits),
        Op::JumpIf(_, _) => zeros(x.selector, 0, x.n, x.bits),
        Op::Unknown => false,
    }
}

// Whether a slot is below `slots`, a look-back below `depth`, and a jump passes over no more than the steps after it.
fn bounded(slots: u64, depth: u64, after: u64, op: Op) -> bool
    ensures { result ≡ bounded slots depth after op }
{
    match op {
        Op::Const(_, n) => n < depth,
        Op::Ref(k, n) => if (k as u64) < slots { n < depth } else { false },
        Op::Price(_, n) => n < depth,
        Op::Extreme(_, over, n, back) => looks_within(slots, depth, over, n, back),
        Op::Arith(_) => true,
        Op::Compare(_) => true,
        Op::Cross(_) => true,
        Op::Between => true,
        Op::Answer(_) => true,
        Op::Turn => true,
        Op::InPosition(_) => true,
        Op::BarsSinceEntry(_, _) => true,
        Op::JumpIf(_, skip) => skip <= after,
        Op::Unknown => true,
    }
}

// Whether a step with so many steps after it is good.
fn good_step(slots: u64, depth: u64, after: u64, x: Step) -> bool
    ensures { result ≡ good_step slots depth after x }
{
    let op = decode::op_of(x);
    if unused_fields_zero(x, op) {
        return bounded(slots, depth, after, op);
    }
    false
}

// Whether the step whose bytes begin at `at` is good.
fn good_at(list: &[u8], at: usize, slots: u64, depth: u64, after: u64) -> bool
    requires { (at + 16 ≤ length list.now) × (after < 65536) }
    ensures { result ≡ good_step slots depth after (read_step list.now at) }
{
    let head = decode::eight_at(list, at);
    let bits = decode::eight_at(list, at + 8);
    if quick::leaf_yes(head, bits, slots, depth) {
        return true;
    }
    if quick::test_yes(head, bits) {
        return true;
    }
    if quick::jump_yes(head, bits, after) {
        return true;
    }
    good_step(slots, depth, after, decode::read_step(list, at))
}

// How many of the n steps are good from place p on: four at once, one, or none.
fn good_from(list: &[u8], n: usize, p: usize, slots: u64, depth: u64) -> usize
    requires { (n ≡ steps_in list.now) × (n ≤ 1024) × (p < n) }
    ensures { (p + result ≤ n) × (result ≡ 0 → formed_from slots depth list.now p (n - p) ≡ Err p)
        × (formed_from slots depth list.now p (n - p) ≡ formed_from slots depth list.now (p + result) (n - (p + result))) }
{
    let left = n - p;
    if 4 <= left {
        if quick::phrase_yes(list, 16 * p, slots, depth, (left - 4) as u64) {
            return 4;
        }
    }
    if good_at(list, 16 * p, slots, depth, (left - 1) as u64) {
        return 1;
    }
    0
}

// Whether a list is well formed for rows of `slots` slots and a window of `depth` rows.
pub fn check(list: &[u8], slots: u64, depth: u64) -> Result<(), usize>
    ensures { result ≡ formed slots depth list.now }
{
    if list.len() % 16 != 0 {
        return Err(0);
    }
    let n = list.len() / 16;
    if MOST_STEPS < n {
        return Err(0);
    }
    let mut p = 0;
    // A `while`, since a turn goes on by as many steps as it found good.
    while p < n {
        let good = good_from(list, n, p, slots, depth);
        if good == 0 {
            return Err(p);
        }
        p += good;
    }
    Ok(())
}
