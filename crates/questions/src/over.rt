// Why a tree says what it says at each of the newest rows, refusals and all.
ghost use Rattle.std.specs.Prelude.{◌≡◌, length};
ghost use Rattle.refusals.specs.Lines.{judged};
ghost use Rattle.questions.specs.Over.{asked_rows, over_lines, over_verdict, lines_over, counts_over, explanation_over, unless_refused};

use crate::each::{PLACE_WORDS, explain_rows};
use crate::position::{POSITION_WORDS, all_right};
use chain::lines::LINES_ROOM;
use refusals::verdict::{Verdict, line};
use words::refusal::Refusal;

// The number of the list of counts, as a room.
const COUNTS_ROOM: u64 = 19;

// 10 for the rooms of the lines and of the counts, by their lengths; then 13: rows and positions are whole, there is a row for each position, and every
// position's counts are in order.
#[tactic(auto, unfolding(refusals::specs::Lines::judged, crate::specs::Over::over_lines, crate::specs::Over::asked_rows))]
fn judge_over(slots: usize, rows: &[u64], positions: &[u64], lines: usize, counts: usize) -> Verdict
    ensures { result ≡ judged (over_lines slots rows.now positions.now lines counts) }
{
    let n = positions.len() / POSITION_WORDS;
    line(n <= lines / PLACE_WORDS, Refusal::Room(LINES_ROOM))?;
    line(n <= counts, Refusal::Room(COUNTS_ROOM))?;
    line(rows::are_whole(rows, slots), Refusal::Records)?;
    line(positions.len() % POSITION_WORDS == 0, Refusal::Records)?;
    line(n <= rows::row_count(rows, slots), Refusal::Records)?;
    line(all_right(positions, n), Refusal::Records)
}

// Why a tree, by its number, says what it says at each of the newest rows, as many as there are positions, oldest first: the lines of each into its
// own place of the list, and how many they are into the counts. A number above 3 names no tree.
pub fn explain_over(
    t: &[u8],
    tree: u64,
    rows: &[u64],
    positions: &[u64],
    lines: &mut [u64],
    counts: &mut [u64],
) -> Verdict
    ensures { (result ≡ over_verdict t.now rows.now positions.now (length lines.old)
        (length counts.old))
        × (lines.new ≡ unless_refused result (lines_over (explanation_over t.now tree rows.now positions.now)
        (asked_rows positions.now) lines.old) lines.old)
        × (counts.new ≡ unless_refused result (counts_over (explanation_over t.now tree rows.now positions.now)
        (asked_rows positions.now) counts.old) counts.old) }
{
    let checked = table::check(t);
    checked.answer?;
    let slots = table::header::slots(t) as usize;
    judge_over(slots, rows, positions, lines.len(), counts.len())?;
    let ends = checked.ends;
    explain_rows(t, &ends, tree, rows, positions, lines, counts);
    Ok(())
}
