// A whole day in one call: what is looked at once for all of its bars, and what is looked at for each.
ghost use Rattle.std.specs.Prelude.{◌≡◌, ◌≤◌};
ghost use Rattle.words.specs.Limits.{most_slots};
ghost use Rattle.records.specs.Lent.{rooms};
ghost use Rattle.refusals.specs.Lines.{judged};
ghost use Rattle.refusals.specs.Day.{whole_for, day_lines, next_lines};

use crate::verdict::Verdict;
use crate::{bar, rooms, setting};
use records::settings::Settings;
use records::state::{Counts, State};
use words::limits::BAR_FIXED;
use words::refusal::Refusal;

// What a call for bars takes: one, or many.
#[derive(Clone, Copy)]
pub enum Span {
    One,
    Many,
}

// Whether the words are what a call of one bar, or of many, is handed: whole bars.
fn are_for(span: Span, bars: &[u64], slots: usize) -> bool
    requires { slots ≤ most_slots }
    ensures { result ≡ whole_for span slots bars.now }
{
    match span {
        Span::One => records::bar::is_whole(bars, slots),
        Span::Many => bars.len() % (BAR_FIXED + slots) == 0,
    }
}

// Whether the bars of a call can be stepped over one after another: 10, 12 and 13.
pub fn judge_day(
    span: Span,
    s: Settings,
    t: State,
    bars: &[u64],
    rows: &[u64],
    equity: &[u64],
    trades: &[u64],
) -> Verdict
    ensures { result ≡ judged (day_lines span s t bars.now (rooms rows.now equity.now trades.now)) }
{
    rooms::judge_room(s, rows)?;
    setting::judge_settings(s)?;
    rooms::judge_state(s, t, rows, equity, trades)?;
    if are_for(span, bars, s.slots) {
        return Ok(());
    }
    Err(Refusal::Records)
}

// Whether the next of them can be taken: its counts, 14 and 11.
pub fn judge_next(slots: usize, n: Counts, bar: &[u64], equity: &[u64], trades: &[u64]) -> Verdict
    ensures { result ≡ judged (next_lines slots n bar.now equity.now trades.now) }
{
    if !rooms::counts_fine(n) {
        return Err(Refusal::Records);
    }
    rooms::judge_place(n, equity, trades)?;
    bar::judge_bar(slots, bar, n.bars_seen)
}
