// Refusal 15: the four lists of steps.
ghost use Rattle.std.specs.Prelude.{◌≡◌, [], ◌∷◌, ◌<◌};
ghost use Rattle.steps.specs.WellFormed.{formed};
ghost use Rattle.refusals.specs.Lines.{judged};
ghost use Rattle.refusals.specs.Lists.{list_line, list_lines, lists_of};

use crate::verdict::Verdict;
use words::limits::MOST_STEPS;
use words::refusal::Refusal;

// The lists of a call, one of each tree.
#[derive(Clone, Copy)]
pub struct Lists<'a> {
    pub entry: &'a [u8],
    pub exit: &'a [u8],
    pub short_entry: &'a [u8],
    pub short_exit: &'a [u8],
}

// One list, numbered 0 to 3 in tree order. Most accounts have no short rules: an empty list is not looked through.
fn judge_list(slots: usize, depth: usize, steps: &[u8], list: u64) -> Verdict
    requires { list < 4 }
    ensures { result ≡ judged (list_line (formed slots depth steps.now) list ∷ []) }
{
    if steps.is_empty() {
        return Ok(());
    }
    let form = steps::wellformed::check(steps, slots as u64, depth as u64);
    match form {
        Ok(()) => Ok(()),
        Err(p) => {
            let place = MOST_STEPS as u64 * list + p as u64;
            Err(Refusal::Steps(place))
        }
    }
}

// 15, all four lists: the lowest comes first.
pub fn judge_lists<'a>(slots: usize, depth: usize, trees: Lists<'a>) -> Verdict
    ensures { result ≡ judged (list_lines slots depth (lists_of trees.entry)) }
{
    judge_list(slots, depth, trees.entry, 0)?;
    judge_list(slots, depth, trees.exit, 1)?;
    judge_list(slots, depth, trees.short_entry, 2)?;
    judge_list(slots, depth, trees.short_exit, 3)
}
