// A rule's answer over a table, rows and a position state, refusals and all.
ghost use Rattle.std.specs.Prelude.{◌≡◌, cond, false, eqb};
ghost use Rattle.words.specs.Limits.{most_nesting};
ghost use Rattle.rows.specs.History.{history_of};
ghost use Rattle.table.specs.Header.{slots, count, root};
ghost use Rattle.rules.specs.Meaning as Meaning;
ghost use Rattle.rules.specs.Meaning.{says};
ghost use Rattle.rules.specs.Flat.{flat_condition_at};
ghost use Rattle.rules.specs.Answers.{state_right, answered};

use crate::conditions::eval_condition;
use crate::position::PositionState;
use table::trees::{Tree, tree_number};
use words::limits::{MOST_COUNT, MOST_NESTING};
use words::refusal::Refusal;

// Whether the counts of a position state are in order.
pub fn state_right(s: PositionState) -> bool
    ensures { result ≡ state_right s }
{
    if s.bars_seen > MOST_COUNT {
        return false;
    }
    let entered = s.entered;
    match entered {
        None => true,
        Some(bar) => bar < s.bars_seen,
    }
}

// The newest bar: the last row's, and 0 where there is none.
#[tactic(auto, unfolding(crate::specs::Meaning::newest))]
pub fn newest(rows: &[u64], slots: usize) -> usize
    ensures { result ≡ Meaning.newest (history_of slots rows.now) }
{
    rows::row_count(rows, slots).saturating_sub(1)
}

// What a tree says at the newest bar, by the evaluator; an absent tree says no.
fn eval_tree(t: &[u8], ends: &[usize; 256], tree: u8, rows: &[u64], s: PositionState) -> bool
    ensures { result ≡ cond (eqb (count t.now tree) 0) false
        (says (history_of (slots t.now) rows.now) s
        (flat_condition_at most_nesting t.now ends.now (root t.now tree))) }
{
    if table::header::count(t, tree) == 0 {
        return false;
    }
    let slots = table::header::slots(t) as usize;
    let root = table::header::root(t, tree);
    eval_condition(
        t,
        ends,
        rows,
        slots,
        s,
        root,
        newest(rows, slots),
        MOST_NESTING,
    )
}

// The answer of one tree of a table over rows: at the newest bar, with the position as it is.
pub fn answer_rule(t: &[u8], tree: Tree, rows: &[u64], s: PositionState) -> Result<bool, Refusal>
    ensures { result ≡ answered t.now tree rows.now s }
{
    let checked = table::check(t);
    let answer = checked.answer;
    match answer {
        Err(refusal) => Err(refusal),
        Ok(_) => {
            let slots = table::header::slots(t) as usize;
            if rows::are_whole(rows, slots) {
                if state_right(s) {
                    let ends = checked.ends;
                    return Ok(eval_tree(t, &ends, tree_number(tree), rows, s));
                }
            }
            Err(Refusal::Records)
        }
    }
}
