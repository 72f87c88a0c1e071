// The chain, node by node, into the lent list.
ghost use Rattle.std.specs.Prelude.{◌≡◌, ◌+◌, ◌*◌, ◌≤◌, length};
ghost use Rattle.rows.specs.History.{history_of};
ghost use Rattle.words.specs.Words.{overwrite};
ghost use Rattle.rules.specs.Meaning.{holds};
ghost use Rattle.rules.specs.Flat.{flat_condition_at};
ghost use Rattle.chain.specs.Chain.{line_at, chain};
ghost use Rattle.chain.specs.Lines.{line_from, line_words, put_lines};
ghost use Rattle.chain.specs.Flat.{by_ends, first_at, next_at};

use crate::lines::LINE_WORDS;
use crate::shown::{Detail, show};
use rules::conditions::eval_condition;
use rules::position::PositionState;
use rules::shapes;
use rules::shapes::ConditionShape;

// The first of n conditions, the first at node `first`, that gives the answer.
fn first_with(
    answer: bool,
    n: usize,
    t: &[u8],
    ends: &[usize; 256],
    rows: &[u64],
    slots: usize,
    s: PositionState,
    first: usize,
    bar: usize,
    left: usize,
) -> Option<usize>
    ensures { result ≡ first_at ends.now
        (λ j. holds (history_of slots rows.now) s (flat_condition_at left t.now ends.now j) bar) answer n first }
{
    let mut at = first;
    for m in 0..n {
        if eval_condition(t, ends, rows, slots, s, at, bar, left) == answer {
            return Some(at);
        }
        at = shapes::end_in(ends, at);
    }
    None
}

// Where the chain goes from node i.
fn next_node(
    t: &[u8],
    ends: &[usize; 256],
    rows: &[u64],
    slots: usize,
    s: PositionState,
    i: usize,
    bar: usize,
    left: usize,
) -> Option<usize>
    ensures { result ≡ next_at left t.now ends.now (history_of slots rows.now) s i bar }
{
    if left == 0 {
        return None;
    }
    match shapes::condition_shape(t, ends, i) {
        ConditionShape::Group(all, n, first) => {
            first_with(!all, n, t, ends, rows, slots, s, first, bar, left - 1)
        }
        ConditionShape::Not(a) => Some(a),
        ConditionShape::Compare(_, _, _) => None,
        ConditionShape::Cross(_, _, _) => None,
        ConditionShape::Between(_, _, _) => None,
        ConditionShape::Trend(_, _, _) => None,
        ConditionShape::InPosition(_) => None,
        ConditionShape::BarsSince(_, _) => None,
        ConditionShape::NoCondition => None,
    }
}

// The eight words of a line.
#[tactic(auto, unfolding(crate::specs::Lines::line_from))]
fn line_of(node: usize, yes: bool, d: Detail) -> [u64; 8]
    ensures { result ≡ line_from node yes d }
{
    [
        node as u64,
        u64::from(yes),
        d.sort,
        d.used,
        d.first,
        d.second,
        d.third,
        d.fourth,
    ]
}

// The line of node i, as line `at` of the list, where the list has such a line.
fn put_line(
    t: &[u8],
    ends: &[usize; 256],
    rows: &[u64],
    slots: usize,
    s: PositionState,
    i: usize,
    bar: usize,
    left: usize,
    lines: &mut [u64],
    at: usize,
)
    requires { left + at ≤ 32 }
    ensures { lines.new ≡ overwrite lines.old (8 * at)
        (line_words (line_at (by_ends ends.now) (history_of slots rows.now) s
        (flat_condition_at left t.now ends.now i) i bar)) }
{
    let yes = eval_condition(t, ends, rows, slots, s, i, bar, left);
    let d = show(t, ends, rows, slots, s, i, bar, left);
    let line = line_of(i, yes, d);
    words::put(lines, LINE_WORDS * at, &line);
}

// The lines from node i on, from line `at` of the list on. How many lines there are then is returned.
pub(crate) fn walk(
    t: &[u8],
    ends: &[usize; 256],
    rows: &[u64],
    slots: usize,
    s: PositionState,
    i: usize,
    bar: usize,
    left: usize,
    lines: &mut [u64],
    at: usize,
) -> usize
    requires { left + at ≤ 32 }
    ensures value { result ≡ at + length (chain (by_ends ends.now) (history_of slots rows.now) s
        (flat_condition_at left t.now ends.now i) i bar) }
    ensures lines_after { lines.new ≡ put_lines lines.old at (chain (by_ends ends.now) (history_of slots rows.now) s
        (flat_condition_at left t.now ends.now i) i bar) }
{
    put_line(t, ends, rows, slots, s, i, bar, left, lines, at);
    match next_node(t, ends, rows, slots, s, i, bar, left) {
        None => at + 1,
        Some(j) => walk(t, ends, rows, slots, s, j, bar, left - 1, lines, at + 1),
    }
}
