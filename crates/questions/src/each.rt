// The lines of each question into its own place of the list.
ghost use Rattle.std.specs.Prelude.{◌≡◌, [], ◌∷◌, ◌+◌, ◌*◌, ◌<◌, ◌≤◌, length, take};
ghost use Rattle.words.specs.Words.{overwrite};
ghost use Rattle.rows.specs.History.{width, history_of};
ghost use Rattle.table.specs.Header.{slots};
ghost use Rattle.chain.specs.Explained.{explanation};
ghost use Rattle.chain.specs.Lines.{chain_words};
ghost use Rattle.questions.specs.Over.{asked_rows, place_words, lines_over, counts_over, explanation_over};
ghost use Rattle.questions.specs.Laws.Known.{Known};

use crate::position::{POSITION_WORDS, position_at};
use chain::explain::explain_tree;
use chain::lines::{LINE_WORDS, MOST_LINES};
use rules::position::PositionState;
use words::limits::ROW_FIXED;

// The words of a question's place: as many lines as a tree can have.
pub(crate) const PLACE_WORDS: usize = LINE_WORDS * MOST_LINES;

// The first `many` rows.
fn first_rows(rows: &[u64], wide: usize, many: usize) -> &[u64]
    requires { many * wide ≤ length rows.now }
    ensures { result.now ≡ take (many * wide) rows.now }
{
    let end = many * wide;
    &rows[..end]
}

// The lines of a tree over rows into place i of the list, and how many they are as count i.
fn explain_row(
    t: &[u8],
    ends: &[usize; 256],
    tree: u64,
    rows: &[u64],
    s: PositionState,
    i: usize,
    lines: &mut [u64],
    counts: &mut [u64],
)
    requires { Known t.now ends.now × (place_words * i + place_words ≤ length lines.old) }
    ensures lines_after { lines.new ≡ overwrite lines.old (place_words * i)
        (chain_words (explanation t.now tree rows.now s)) }
    ensures counts_after { counts.new ≡ overwrite counts.old i (length (explanation t.now tree rows.now s) ∷ []) }
{
    let from = PLACE_WORDS * i;
    let to = from + PLACE_WORDS;
    let many = explain_tree(t, ends, tree, rows, s, &mut lines[from..to]);
    let count = [many as u64];
    words::put(counts, i, &count);
}

// Each of the newest rows, one for each position, oldest first.
pub(crate) fn explain_rows(
    t: &[u8],
    ends: &[usize; 256],
    tree: u64,
    rows: &[u64],
    positions: &[u64],
    lines: &mut [u64],
    counts: &mut [u64],
)
    requires { Known t.now ends.now × (asked_rows positions.now ≤ (history_of (slots t.now) rows.now).rows)
        × (place_words * asked_rows positions.now ≤ length lines.old) }
    ensures lines_after { lines.new ≡ lines_over (explanation_over t.now tree rows.now positions.now)
        (asked_rows positions.now) lines.old }
    ensures counts_after { counts.new ≡ counts_over (explanation_over t.now tree rows.now positions.now)
        (asked_rows positions.now) counts.old }
{
    let slots = table::header::slots(t) as usize;
    let n = positions.len() / POSITION_WORDS;
    let older = rows::row_count(rows, slots) - n;
    for i in 0..n {
        let upto = first_rows(rows, ROW_FIXED + slots, older + i + 1);
        let position = position_at(positions, i);
        explain_row(t, ends, tree, upto, position, i, lines, counts);
    }
}
