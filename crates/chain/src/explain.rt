// The chain of one tree of a table over rows, refusals and all.
ghost use Rattle.std.specs.Prelude.{◌≡◌, length};
ghost use Rattle.chain.specs.Lines.{put_lines};
ghost use Rattle.chain.specs.Explained.{explanation, explained, lines_after_answer};
ghost use Rattle.chain.specs.Flat.{flat_explanation};

use crate::lines::{LINE_WORDS, LINES_ROOM, MOST_LINES};
use crate::walk::walk;
use rules::answers::{newest, state_right};
use rules::position::PositionState;
use words::limits::{MOST_NESTING, TREES};
use words::refusal::Refusal;

// The lines of a tree into the list, and how many they are: none where the tree is absent. For a caller that has the array that a check of the
// table leaves, and asks more than once.
pub fn explain_tree(
    t: &[u8],
    ends: &[usize; 256],
    tree: u64,
    rows: &[u64],
    s: PositionState,
    lines: &mut [u64],
) -> usize
    ensures value { result ≡ length (flat_explanation t.now ends.now tree rows.now s) }
    ensures lines_after { lines.new ≡ put_lines lines.old 0 (flat_explanation t.now ends.now tree rows.now s) }
{
    if TREES <= tree {
        return 0;
    }
    let x = tree as u8;
    if table::header::count(t, x) == 0 {
        return 0;
    }
    let slots = table::header::slots(t) as usize;
    let root = table::header::root(t, x);
    walk(
        t,
        ends,
        rows,
        slots,
        s,
        root,
        newest(rows, slots),
        MOST_NESTING,
        lines,
        0,
    )
}

// Why a tree, by its number, says what it says at the newest row: its lines into the list, and how many they are. A number above 3
// names no tree.
pub fn explain(
    t: &[u8],
    tree: u64,
    rows: &[u64],
    s: PositionState,
    lines: &mut [u64],
) -> Result<usize, Refusal>
    ensures value { result ≡ explained t.now tree rows.now s lines.old }
    ensures lines_after { lines.new ≡ lines_after_answer result (explanation t.now tree rows.now s) lines.old }
{
    let checked = table::check(t);
    checked.answer?;
    if lines.len() < LINE_WORDS * MOST_LINES {
        return Err(Refusal::Room(LINES_ROOM));
    }
    let slots = table::header::slots(t) as usize;
    if rows::are_whole(rows, slots) {
        if state_right(s) {
            let ends = checked.ends;
            return Ok(explain_tree(t, &ends, tree, rows, s, lines));
        }
    }
    Err(Refusal::Records)
}
