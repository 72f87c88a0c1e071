// The step machine: what one step does, and the run of a whole list. "a value not there counts as missing", and every value is kept:
// a list is run with a few places for values, and the rare list that needs more is run again with more, at last one for each of its steps.
ghost use Rattle.std.specs.Prelude.{◌≡◌, Bool, true, cond, [], ◌+◌, ◌-◌, ◌<◌, ◌≤◌, ltb, length, Float, Option};
ghost use Rattle.rows.specs.History.{history_of};
ghost use Rattle.rows.specs.Ring.{ring_of, start_within};
ghost use Rattle.table.specs.Named as Named;
ghost use Rattle.steps.specs.Bytes.{op_of, ops_from, ops_of, steps_in, steps_run};
ghost use Rattle.steps.specs.Machine.{viewing, effect, ran_over};
ghost use Rattle.steps.specs.Places.{tested_at, Tries, Fresh, Came};

use crate::step::Step;
use crate::{decode, doing, leaves, looking, phrases, stack};
use rows::ring;
use rules::position::PositionState;
use rules::values;
use table::kinds;
use words::limits::MOST_STEPS;

// What a run came to: its answer, and how many steps it visited.
#[derive(Clone, Copy)]
pub struct Ran {
    pub answer: bool,
    pub visits: usize,
}

// How many values a run has room for at first, then, where they do not suffice, and last: four that are always missing, and the places.
// No translated list needs more than the second; the last has a place for each step.
const FEW: usize = 20;

const SOME: usize = 68;

const ALL: usize = 1028;

// The value that a step of Highest or Lowest gives.
fn look(x: Step, rows: &[u64], slots: usize, held: usize, first: usize) -> Option<f64>
    requires held_value { (held ≡ (history_of slots rows.now).rows) × (first ≤ held) }
    requires le_kind { (9 ≤ x.kind) × (x.kind < 13) }
    ensures { (s : PositionState) (a b c d : Option Float) (y : Bool)
        → effect (ring_of slots first rows.now) s (op_of x) a b c d y ≡ viewing x.skip result y }
{
    let back = decode::newest_back(x.n, x.skip);
    if x.kind < decode::HIGHEST_SLOT {
        return looking::extreme_ago(
            x.kind, rows, slots, held, first, false, x.selector, x.skip, back,
        );
    }
    looking::extreme_ago(
        x.kind - 2,
        rows,
        slots,
        held,
        first,
        true,
        x.selector,
        x.skip,
        back,
    )
}

// How many values a cross or Between takes.
fn taken(kind: u8) -> usize
    ensures { result ≡ cond (ltb kind Named.between) 4 3 }
{
    if kind < kinds::BETWEEN { 4 } else { 3 }
}

// What a cross or Between answers of the last values, of which it reads no more than it takes.
fn tested(kind: u8, numbers: &[f64], there: &[bool], top: usize) -> bool
    requires top_in_bounds { top + 3 < length numbers.now }
    requires top_in_bounds_2 { top + 3 < length there.now }
    ensures { result ≡ tested_at kind numbers.now there.now top }
{
    let a = stack::at(numbers, there, top + 3);
    let b = stack::at(numbers, there, top + 2);
    let c = stack::at(numbers, there, top + 1);
    if kind < kinds::BETWEEN {
        let d = stack::at(numbers, there, top);
        return values::crossed(kind, d, c, b, a);
    }
    values::within(c, b, a)
}

// How many steps of a list are run: whole ones, and no more than 1,024. The list and that number travel as two: each step is read at its place
// in the whole list, and of a part each contract would have to say that its steps are those of the list.
#[tactic(auto, unfolding(crate::specs::Bytes::steps_run))]
fn steps_run(list: &[u8]) -> usize
    ensures { result ≡ steps_run list.now }
{
    (list.len() / 16).min(MOST_STEPS)
}

// The run of the first n steps with so many places for values; nothing where a value finds no place. Below these lie four that are always
// missing: no step takes more. The kinds are asked for in the order of how often they stand in a list; a jump is an `if`, not a sum, so
// that the next step need not wait for the answer.
fn run_with(
    list: &[u8],
    n: usize,
    rows: &[u64],
    slots: usize,
    first: usize,
    s: PositionState,
    places: usize,
    numbers: &mut [f64],
    there: &mut [bool],
    from: usize,
    told: bool,
    seen: usize,
) -> Option<Ran>
    requires n_bound { n ≤ steps_in list.now }
    requires le_places { (1 ≤ places) × (places ≤ 1024) × (first ≤ (history_of slots rows.now).rows) × (n ≤ 1024)
        × Came (ring_of slots first rows.now) s list.now n [] told seen from }
    requires fresh { Fresh places numbers.old there.old }
    ensures { Tries (ran_over (ring_of slots first rows.now) s (ops_from list.now 0 n)) n places result }
{
    let held = rows::row_count(rows, slots);
    let newest = leaves::newest_row(rows, slots, held, first);
    let mut top: usize = 0;
    let mut answer = told;
    let mut visits: usize = seen;
    let mut p: usize = from;
    // A `while`, since a jump goes on from where it leads.
    while p < n {
        let x = decode::step_at(list, p);
        let kind = x.kind;
        visits += 1;
        if doing::is_among(kind, kinds::CONST, kinds::PREV) {
            if top == places {
                return None;
            }
            stack::put(
                numbers,
                there,
                top + 4,
                leaves::leaf(x, rows, slots, held, first, newest),
            );
            top += 1;
            p += 1;
        } else if decode::is_test(kind as u64) {
            if decode::is_comparison(kind) {
                let a = stack::at(numbers, there, top + 3);
                let b = stack::at(numbers, there, top + 2);
                answer = values::compared(kind, b, a);
                top = top.saturating_sub(2);
                p += 1;
            } else {
                answer = tested(kind, numbers, there, top);
                top = top.saturating_sub(taken(kind));
                p += 1;
            }
        } else if doing::is_among(kind, decode::JUMP_AT_NO, decode::PAST_JUMPS) {
            if answer == (kind == decode::JUMP_AT_YES) {
                p = doing::landing(p, x.skip, n);
            } else {
                p += 1;
            }
        } else if decode::is_operation(kind) {
            let a = stack::at(numbers, there, top + 3);
            let b = stack::at(numbers, there, top + 2);
            let under = top.saturating_sub(2);
            stack::put(numbers, there, under + 4, values::combined(kind, b, a));
            top = under + 1;
            p += 1;
        } else if doing::is_among(kind, kinds::HIGHEST, decode::PAST_LOOKS) {
            if top == places {
                return None;
            }
            visits += x.skip.saturating_sub(1) as usize;
            let value = look(x, rows, slots, held, first);
            stack::put(numbers, there, top + 4, value);
            top += 1;
            p += 1;
        } else {
            answer = doing::said(x, s, answer);
            p += 1;
        }
    }
    Some(Ran { answer, visits })
}

// The run from a place on of n steps, at most 1,024, with room for so many values.
fn run_in<const ROOM: usize>(
    list: &[u8],
    n: usize,
    rows: &[u64],
    slots: usize,
    first: usize,
    s: PositionState,
    from: usize,
    told: bool,
    seen: usize,
) -> Option<Ran>
    requires room { (5 ≤ ROOM) × (ROOM ≤ 1028) }
    requires n_bound { n ≤ steps_in list.now }
    requires n_bound_2 { (n ≤ 1024) × (first ≤ (history_of slots rows.now).rows)
        × Came (ring_of slots first rows.now) s list.now n [] told seen from }
    ensures { Tries (ran_over (ring_of slots first rows.now) s (ops_from list.now 0 n)) n (ROOM - 4) result }
{
    let mut numbers = [0.0; ROOM];
    let mut there = [false; ROOM];
    run_with(
        list,
        n,
        rows,
        slots,
        first,
        s,
        ROOM - 4,
        &mut numbers,
        &mut there,
        from,
        told,
        seen,
    )
}

// The run from a place on of n steps, at most 1,024. With few places first: the fewer there are, the less has to be cleared.
fn run_rest(
    list: &[u8],
    n: usize,
    rows: &[u64],
    slots: usize,
    first: usize,
    s: PositionState,
    from: usize,
    told: bool,
    seen: usize,
) -> Ran
    requires n_bound { n ≤ steps_in list.now }
    requires n_bound_2 { (n ≤ 1024) × (first ≤ (history_of slots rows.now).rows)
        × Came (ring_of slots first rows.now) s list.now n [] told seen from }
    ensures { result ≡ ran_over (ring_of slots first rows.now) s (ops_from list.now 0 n) }
{
    if let Some(few) = run_in::<FEW>(list, n, rows, slots, first, s, from, told, seen) {
        return few;
    }
    if let Some(some) = run_in::<SOME>(list, n, rows, slots, first, s, from, told, seen) {
        return some;
    }
    run_in::<ALL>(list, n, rows, slots, first, s, from, told, seen).unwrap()
}

// Runs a list over rows of so many slots each, the oldest of them row `first`. Bytes at the end that are no whole step are not
// looked at, nor steps past the 1,024th. What needs no place for a value is run first.
fn run_from(list: &[u8], rows: &[u64], slots: usize, first: usize, s: PositionState) -> Ran
    requires { first ≤ (history_of slots rows.now).rows }
    ensures { result ≡ ran_over (ring_of slots first rows.now) s (ops_of list.now) }
{
    let n = steps_run(list);
    let reached = phrases::run_tests(list, n, rows, slots, first, s);
    let answer = reached.answer;
    let visits = reached.visits;
    let p = reached.p;
    if p == n {
        return Ran { answer, visits };
    }
    run_rest(list, n, rows, slots, first, s, p, answer, visits)
}

// Runs a list over rows of so many slots each.
pub fn run(list: &[u8], rows: &[u64], slots: usize, s: PositionState) -> Ran
    ensures { result ≡ ran_over (history_of slots rows.now) s (ops_of list.now) }
{
    run_from(list, rows, slots, 0, s)
}

// The row that they begin at: the first where there is no such row. They are counted only where it is another.
fn first_row(rows: &[u64], slots: usize, start: usize) -> usize
    ensures { result ≡ start_within (history_of slots rows.now).rows start }
{
    if start == 0 {
        return 0;
    }
    ring::first_of(rows::row_count(rows, slots), start)
}

// The same over rows that begin at row `start`, go on to the last and then from the first.
pub fn run_ring(list: &[u8], rows: &[u64], slots: usize, start: usize, s: PositionState) -> Ran
    ensures { result ≡ ran_over (ring_of slots start rows.now) s (ops_of list.now) }
{
    run_from(list, rows, slots, first_row(rows, slots, start), s)
}
