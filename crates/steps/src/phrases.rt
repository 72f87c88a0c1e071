// Tests of leaves: a comparison or a cross with its leaves right before it needs no place for a value, and most tests are such. A run goes
// over these, and over the jumps and answers between them, as far as they reach.
ghost use Rattle.std.specs.Prelude.{◌≡◌, true, [], ◌+◌, ◌-◌, ◌*◌, ◌<◌, ◌≤◌};
ghost use Rattle.table.specs.Bytes.{u64};
ghost use Rattle.rows.specs.History.{history_of};
ghost use Rattle.rows.specs.Ring.{ring_place, ring_of};
ghost use Rattle.steps.specs.Bytes.{steps_in};
ghost use Rattle.steps.specs.Places.{Gives, Tests, Came};

use crate::leaves::AtOnce;
use crate::{decode, doing, leaves};
use rules::position::PositionState;
use rules::values;
use table::kinds;

// A test with its leaves: how many steps they are, and what it answers. 0 where there is none.
#[derive(Clone, Copy)]
struct Test {
    steps: usize,
    answer: bool,
}

// How far a run came: to which place, with which answer, and after how many visits.
#[derive(Clone, Copy)]
pub(crate) struct Reached {
    pub p: usize,
    pub answer: bool,
    pub visits: usize,
}

// The leaf at place p.
fn leaf_at(
    list: &[u8],
    p: usize,
    rows: &[u64],
    slots: usize,
    held: usize,
    first: usize,
    newest: usize,
) -> AtOnce
    requires p_bound { p < steps_in list.now }
    requires held_value { (held ≡ (history_of slots rows.now).rows) × (first ≤ held) }
    requires newest_value { newest ≡ ring_place held first (held - 1) * (7 + slots) }
    ensures { result.told ≡ true → Gives (ring_of slots first rows.now) list.now p result.value }
{
    leaves::leaf_at_once(decode::step_at(list, p), rows, slots, held, first, newest)
}

// A cross whose first two leaves stand at p and give a and b.
fn cross_at(
    list: &[u8],
    n: usize,
    p: usize,
    a: Option<f64>,
    b: Option<f64>,
    rows: &[u64],
    slots: usize,
    held: usize,
    first: usize,
    newest: usize,
) -> Test
    requires n_bound { (n ≤ steps_in list.now) × (p < n) }
    requires held_value { (held ≡ (history_of slots rows.now).rows) × (first ≤ held) }
    requires newest_value { newest ≡ ring_place held first (held - 1) * (7 + slots) }
    requires gives { Gives (ring_of slots first rows.now) list.now p a × Gives (ring_of slots first rows.now) list.now (p + 1) b }
    ensures { Tests (ring_of slots first rows.now) list.now n p result.steps result.answer }
{
    if n - p < 5 {
        return Test {
            steps: 0,
            answer: false,
        };
    }
    let x = decode::step_at(list, p + 4);
    let kind = x.kind;
    if doing::is_among(kind, kinds::CROSS_ABOVE, kinds::BETWEEN) {
        let c = leaf_at(list, p + 2, rows, slots, held, first, newest);
        if c.told {
            let d = leaf_at(list, p + 3, rows, slots, held, first, newest);
            if d.told {
                let third = c.value;
                let fourth = d.value;
                let answer = values::crossed(kind, a, b, third, fourth);
                return Test { steps: 5, answer };
            }
        }
    }
    Test {
        steps: 0,
        answer: false,
    }
}

// A comparison or a cross whose leaves begin at p.
fn test_at(
    list: &[u8],
    n: usize,
    p: usize,
    rows: &[u64],
    slots: usize,
    held: usize,
    first: usize,
    newest: usize,
) -> Test
    requires n_bound { (n ≤ steps_in list.now) × (p < n) }
    requires held_value { (held ≡ (history_of slots rows.now).rows) × (first ≤ held) }
    requires newest_value { newest ≡ ring_place held first (held - 1) * (7 + slots) }
    ensures { Tests (ring_of slots first rows.now) list.now n p result.steps result.answer }
{
    if n - p < 3 {
        return Test {
            steps: 0,
            answer: false,
        };
    }
    let a = leaf_at(list, p, rows, slots, held, first, newest);
    if a.told {
        let b = leaf_at(list, p + 1, rows, slots, held, first, newest);
        if b.told {
            let one = a.value;
            let other = b.value;
            let x = decode::step_at(list, p + 2);
            if decode::is_comparison(x.kind) {
                let answer = values::compared(x.kind, one, other);
                return Test { steps: 3, answer };
            }
            return cross_at(list, n, p, one, other, rows, slots, held, first, newest);
        }
    }
    Test {
        steps: 0,
        answer: false,
    }
}

// The leaf at place p, whose first eight bytes are a number below 65,536: one of the newest row.
fn near_leaf(
    list: &[u8],
    p: usize,
    head: u64,
    rows: &[u64],
    slots: usize,
    held: usize,
    first: usize,
    newest: usize,
) -> AtOnce
    requires p_bound { (p < steps_in list.now) × (head ≡ u64 list.now (16 * p)) × (head < 65536) }
    requires held_value { (held ≡ (history_of slots rows.now).rows) × (first ≤ held) }
    requires newest_value { newest ≡ ring_place held first (held - 1) * (7 + slots) }
    ensures { result.told ≡ true → Gives (ring_of slots first rows.now) list.now p result.value }
{
    leaves::leaf_at_once(
        decode::near_step(list, p, head),
        rows,
        slots,
        held,
        first,
        newest,
    )
}

// A price or a slot of the newest row against a constant, which is the test that most strategies have most of: three steps, told by their
// first eight bytes.
fn newest_against(
    list: &[u8],
    n: usize,
    p: usize,
    rows: &[u64],
    slots: usize,
    held: usize,
    first: usize,
    newest: usize,
) -> Test
    requires n_bound { (n ≤ steps_in list.now) × (p < n) }
    requires held_value { (held ≡ (history_of slots rows.now).rows) × (first ≤ held) }
    requires newest_value { newest ≡ ring_place held first (held - 1) * (7 + slots) }
    ensures { (p + result.steps ≤ n) × Tests (ring_of slots first rows.now) list.now n p result.steps result.answer }
{
    if 3 <= n - p {
        let head = decode::eight_at(list, 16 * p);
        if head < 65536 {
            let second = decode::eight_at(list, 16 * (p + 1));
            if second == kinds::CONST as u64 {
                let a = near_leaf(list, p, head, rows, slots, held, first, newest);
                if a.told {
                    let b = near_leaf(list, p + 1, second, rows, slots, held, first, newest);
                    if b.told {
                        let x = decode::step_at(list, p + 2);
                        if decode::is_comparison(x.kind) {
                            let one = a.value;
                            let other = b.value;
                            let answer = values::compared(x.kind, one, other);
                            return Test { steps: 3, answer };
                        }
                    }
                }
            }
        }
    }
    Test {
        steps: 0,
        answer: false,
    }
}

// A run that has come to place p, past such a test where there is one.
fn past_newest(
    list: &[u8],
    n: usize,
    p: usize,
    rows: &[u64],
    slots: usize,
    held: usize,
    first: usize,
    newest: usize,
    answer: bool,
    visits: usize,
) -> Reached
    requires n_bound { (n ≤ steps_in list.now) × (p < n) × (visits ≤ 65536 * p) × (n ≤ 1024) }
    requires held_value { (held ≡ (history_of slots rows.now).rows) × (first ≤ held) }
    requires newest_value { newest ≡ ring_place held first (held - 1) * (7 + slots) }
    ensures { (p ≤ result.p) × ((s : PositionState) → Came (ring_of slots first rows.now) s list.now n [] answer visits p
        → Came (ring_of slots first rows.now) s list.now n [] result.answer result.visits result.p) }
{
    let t = newest_against(list, n, p, rows, slots, held, first, newest);
    if 0 < t.steps {
        return Reached {
            p: p + t.steps,
            answer: t.answer,
            visits: visits + t.steps,
        };
    }
    Reached { p, answer, visits }
}

// The run of the first n steps, as far as they are such tests, jumps and answers.
pub(crate) fn run_tests(
    list: &[u8],
    n: usize,
    rows: &[u64],
    slots: usize,
    first: usize,
    s: PositionState,
) -> Reached
    requires { (n ≤ steps_in list.now) × (n ≤ 1024) × (first ≤ (history_of slots rows.now).rows) }
    ensures { Came (ring_of slots first rows.now) s list.now n [] result.answer result.visits result.p }
{
    let held = rows::row_count(rows, slots);
    let newest = leaves::newest_row(rows, slots, held, first);
    let mut answer = false;
    let mut visits: usize = 0;
    let mut p: usize = 0;
    // A `while`, since a turn goes on by as many steps as it passed, or to where a jump leads.
    while p < n {
        let on = past_newest(list, n, p, rows, slots, held, first, newest, answer, visits);
        p = on.p;
        answer = on.answer;
        visits = on.visits;
        if p == n {
            return Reached { p, answer, visits };
        }
        let x = decode::step_at(list, p);
        let kind = x.kind;
        if doing::is_among(kind, decode::JUMP_AT_NO, decode::PAST_JUMPS) {
            visits += 1;
            if answer == (kind == decode::JUMP_AT_YES) {
                p = doing::landing(p, x.skip, n);
            } else {
                p += 1;
            }
        } else {
            let t = test_at(list, n, p, rows, slots, held, first, newest);
            if 0 < t.steps {
                visits += t.steps;
                answer = t.answer;
                p += t.steps;
            } else if doing::is_among(kind, kinds::ALL, decode::JUMP_AT_NO) {
                visits += 1;
                answer = doing::said(x, s, answer);
                p += 1;
            } else {
                return Reached { p, answer, visits };
            }
        }
    }
    Reached { p, answer, visits }
}
