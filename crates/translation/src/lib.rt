#![tactic(auto)]
// The translator: a rule's tree as steps, written into a lent room. What it writes is defined in the crate steps.
mod emit;

ghost use Rattle.std.specs.Prelude.{◌≡◌, cond, not, ◌≤◌};
ghost use Rattle.table.specs.Trees.{reach_of, reach_of_all};
ghost use Rattle.rules.specs.Flat.{grow_conditions, flat_condition_at};
ghost use Rattle.steps.specs.Bytes.{Fits, Wrote};
ghost use Rattle.steps.specs.Translation.{code_of, code_each};
ghost use Rattle.steps.specs.Translating.{translates, room_left};

use rules::shapes;
use rules::shapes::ConditionShape;
use steps::decode;
use table::bytes::read64;
use table::trees::{Tree, tree_number};
use table::{header, kinds};
use words::refusal::Refusal;

// "64 bytes a node".
pub const NODE_ROOM: usize = 64;

// The number of the room for the entry steps; those of the exit, short entry and short exit steps follow.
pub const FIRST_ROOM: u64 = 3;

// The kind of the step that begins All or Any: it sets the answer to yes or no.
fn group_kind(all: bool) -> u8
    ensures { result ≡ cond all 27 28 }
{
    if all { kinds::ALL } else { kinds::ANY }
}

// The kind of the jump after a child: All is decided by a no, Any by a yes.
fn jump_kind(all: bool) -> u8
    ensures { result ≡ cond (not all) 33 32 }
{
    if all {
        decode::JUMP_AT_NO
    } else {
        decode::JUMP_AT_YES
    }
}

fn flag(wanted: bool) -> u64
    ensures { result ≡ cond wanted 1 0 }
{
    if wanted { 1 } else { 0 }
}

// The steps of the condition at node i, from place `at` on. The next free place is returned. `left` levels of nesting are left, the
// node's own counted.
#[cycle(emit_condition_emit_each)]
fn emit_condition(
    t: &[u8],
    ends: &[usize; 256],
    i: usize,
    left: usize,
    room: &mut [u8],
    at: usize,
) -> usize
    requires i_bound { reach_of (flat_condition_at left t.now ends.now i) ≤ 4096 }
    requires fits { Fits room.old at (code_of (flat_condition_at left t.now ends.now i)) }
    ensures { Wrote room.old at (code_of (flat_condition_at left t.now ends.now i)) room.new result }
{
    if left == 0 {
        return emit::put_step(room, at, kinds::ANY, 0, 0, 0, 0);
    }
    match shapes::condition_shape(t, ends, i) {
        ConditionShape::Compare(kind, a, b) => emit::emit_compare(
            t,
            ends,
            kind,
            a,
            b,
            0,
            left - 1,
            room,
            at,
        ),
        ConditionShape::Cross(kind, a, b) => emit::emit_cross(
            t,
            ends,
            kind,
            a,
            b,
            left - 1,
            room,
            at,
        ),
        ConditionShape::Between(x, low, high) => emit::emit_between(
            t,
            ends,
            x,
            low,
            high,
            left - 1,
            room,
            at,
        ),
        ConditionShape::Trend(kind, a, n) => emit::emit_compare(
            t,
            ends,
            emit::trend_test(kind),
            a,
            a,
            n,
            left - 1,
            room,
            at,
        ),
        ConditionShape::Group(all, n, first) => {
            let p = emit::put_step(room, at, group_kind(all), 0, 0, 0, 0);
            emit_each(all, n, first, t, ends, left - 1, room, p)
        }
        ConditionShape::Not(a) => {
            let p = emit_condition(t, ends, a, left - 1, room, at);
            emit::put_step(room, p, kinds::NOT, 0, 0, 0, 0)
        }
        ConditionShape::InPosition(wanted) => emit::put_step(
            room,
            at,
            kinds::IN_POSITION,
            flag(wanted),
            0,
            0,
            0,
        ),
        ConditionShape::BarsSince(selector, k) => emit::put_step(
            room,
            at,
            kinds::BARS_SINCE_ENTRY,
            selector as u64,
            0,
            k,
            0,
        ),
        ConditionShape::NoCondition => emit::put_step(room, at, kinds::ANY, 0, 0, 0, 0),
    }
}

// The steps of n conditions of All or Any, the first at node j: after each a jump over the rest. How long the rest is shows at the
// end: so where a jump goes, a step first holds the place of the one before it, and then the jumps are written from the last to the
// first. A call for each condition would take more stack than a small controller has.
#[cycle(emit_condition_emit_each)]
fn emit_each(
    all: bool,
    n: usize,
    j: usize,
    t: &[u8],
    ends: &[usize; 256],
    left: usize,
    room: &mut [u8],
    at: usize,
) -> usize
    requires j_bound { reach_of_all (grow_conditions (flat_condition_at left t.now ends.now) ends.now n j) ≤ 4096 }
    requires fits { Fits room.old at (code_each (not all) (grow_conditions (flat_condition_at left t.now ends.now) ends.now n j)) }
    ensures { Wrote room.old at
        (code_each (not all) (grow_conditions (flat_condition_at left t.now ends.now) ends.now n j))
        room.new result }
{
    let jump = jump_kind(all);
    let mut i = j;
    let mut end = at;
    let mut last = at;
    for k in 0..n {
        let p = emit_condition(t, ends, i, left, room, end);
        end = emit::put_step(room, p, kinds::CONST, 0, 0, 0, last as u64);
        last = p;
        i = shapes::end_in(ends, i);
    }
    for m in 0..n {
        let before = read64(room, 16 * last + 8) as usize;
        emit::put_step(room, last, jump, 0, (end - last - 1) as u64, 0, 0);
        last = before;
    }
    end
}

// Translates a tree of a table into its room. An absent tree needs no room and writes nothing.
pub fn translate(t: &[u8], tree: Tree, room: &mut [u8]) -> Result<usize, Refusal>
    ensures value { result ≡ translates t.now tree room.old }
    ensures room_after { room.new ≡ room_left t.now tree room.old }
{
    let checked = table::check(t);
    checked.answer?;
    let x = tree_number(tree);
    let count = header::count(t, x);
    if room.len() < NODE_ROOM * count {
        return Err(Refusal::Room(FIRST_ROOM + x as u64));
    }
    if count == 0 {
        return Ok(0);
    }
    let ends = checked.ends;
    Ok(emit_condition(t, &ends, header::root(t, x), 32, room, 0))
}
