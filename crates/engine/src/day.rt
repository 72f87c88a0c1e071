// A whole day in one call: bar after bar, until one is refused. What does not change from bar to bar is looked at once.
ghost use Rattle.std.specs.Prelude.{◌≡◌, ◌/◌, ◌≤◌, length, take};
ghost use Rattle.words.specs.Limits.{bar_words};
ghost use Rattle.records.specs.Lent.{rooms};
ghost use Rattle.refusals.specs.Lists.{lists_of};
ghost use Rattle.records.specs.Settings.{settings_of};
ghost use Rattle.refusals.specs.Day.{next_lines};
ghost use Rattle.refusals.specs.Lines.{judged};
ghost use Rattle.rows.specs.History.{width};
ghost use Rattle.rows.specs.Ring.{turned};
ghost use Rattle.engine.specs.Day.{Underway, in_records, no_bars, day_of, run_with, unlisted_by};
ghost use Rattle.engine.specs.InPlace.{RingAt, Turns};
ghost use Rattle.engine.specs.Run.{run_over};
ghost use Rattle.engine.specs.Step.{step_answer};

use crate::answer::Advanced;
use crate::phases;
use records::settings::Settings;
use records::state::State;
use refusals::day::Span;
use refusals::lists::Lists;
use refusals::verdict::Verdict;
use words::limits::{BAR_FIXED, ROW_FIXED};
use words::refusal::Refusal;

// How many bars were done, what ended it (fine where all were), and the state then.
#[derive(Clone, Copy)]
pub struct Day {
    pub done: usize,
    pub verdict: Verdict,
    pub state: State,
}

// A bar of the call, where everything else is fine. The rows held begin at row `start` of their room.
fn next_bar<'a>(
    span: Span,
    s: Settings,
    settings: &[u64],
    t: State,
    bar: &[u64],
    rows: &mut [u64],
    start: usize,
    equity: &mut [u64],
    trades: &mut [u64],
    trees: Lists<'a>,
) -> Advanced
    requires { (s ≡ settings_of settings.now) × (length bar.now ≡ bar_words s.slots) × RingAt span s t rows.old start × Underway s t
        (rooms (turned (width s.slots) start rows.old) equity.old trades.old)
        (lists_of trees) }
    ensures { Turns span s (step_answer s t bar.now
        (rooms (turned (width s.slots) start rows.old) equity.old trades.old)
        (lists_of trees.entry))
        result rows.new equity.new trades.new }
{
    let n = t.counts;
    let verdict = refusals::day::judge_next(s.slots, n, bar, equity, trades);
    match verdict {
        Err(refusal) => Advanced {
            answer: Err((refusal, t)),
            start,
        },
        Ok(()) => phases::advance(
            span, s, settings, t, bar, rows, start, equity, trades, trees,
        ),
    }
}

// All bars of the call, where everything else is fine. In a call of many no row moves: a full room is used as a ring, and is turned once, at the end.
fn take_bars<'a>(
    span: Span,
    s: Settings,
    settings: &[u64],
    t: State,
    bars: &[u64],
    rows: &mut [u64],
    equity: &mut [u64],
    trades: &mut [u64],
    trees: Lists<'a>,
) -> Day
    requires { (s ≡ settings_of settings.now)
        × Underway s t (rooms rows.old equity.old trades.old) (lists_of trees) }
    ensures { run_over s (lists_of trees.entry) t
        (rooms rows.old equity.old trades.old)
        (in_records (length bars.now / bar_words s.slots) (bar_words s.slots) bars.now)
        ≡ run_with result (rooms rows.new equity.new trades.new) }
{
    let width = BAR_FIXED + s.slots;
    let row = ROW_FIXED + s.slots;
    let count = bars.len() / width;
    let mut state = t;
    let mut start: usize = 0;
    for done in 0..count {
        let from = done * width;
        let to = from + width;
        let went = next_bar(
            span,
            s,
            settings,
            state,
            &bars[from..to],
            rows,
            start,
            equity,
            trades,
            trees,
        );
        start = went.start;
        let answer = went.answer;
        match answer {
            Err((refusal, given)) => {
                rows::ring::turn(rows, row, start);
                return Day {
                    done,
                    verdict: Err(refusal),
                    state: given,
                };
            }
            Ok(next) => {
                state = next;
            }
        }
    }
    rows::ring::turn(rows, row, start);
    Day {
        done: count,
        verdict: Ok(()),
        state,
    }
}

// Whether a call of many is handed none.
pub fn no_bars(span: Span, bars: &[u64]) -> bool
    ensures { result ≡ no_bars span bars.now }
{
    match span {
        Span::One => false,
        Span::Many => bars.is_empty(),
    }
}

// The first bar, where a list of steps is not well formed: 15 comes after what is wrong with the bar.
fn unlisted(
    s: Settings,
    t: State,
    bars: &[u64],
    equity: &[u64],
    trades: &[u64],
    fifteen: Refusal,
) -> Day
    requires { bar_words s.slots ≤ length bars.now }
    ensures { result ≡ unlisted_by
        (judged (next_lines s.slots t.counts (take (bar_words s.slots) bars.now) equity.now trades.now))
        t fifteen }
{
    let n = t.counts;
    let width = BAR_FIXED + s.slots;
    let verdict = refusals::day::judge_next(s.slots, n, &bars[..width], equity, trades);
    match verdict {
        Err(refusal) => Day {
            done: 0,
            verdict: Err(refusal),
            state: t,
        },
        Ok(()) => Day {
            done: 0,
            verdict: Err(fifteen),
            state: t,
        },
    }
}

// Bars, one after another, until one is refused: one, or many. The settings are handed over as their words. Any settings, state, bars and rooms get an
// answer; the bar that is refused changes nothing. The rooms stay three parameters: a struct of `&mut` slices has to promise in every contract that it
// still holds the same ones.
pub fn run_bars<'a>(
    span: Span,
    settings: &[u64],
    t: State,
    bars: &[u64],
    rows: &mut [u64],
    equity: &mut [u64],
    trades: &mut [u64],
    trees: Lists<'a>,
) -> Day
    ensures { day_of span (settings_of settings.now) t bars.now
        (rooms rows.old equity.old trades.old)
        (lists_of trees.entry)
        ≡ run_with result (rooms rows.new equity.new trades.new) }
{
    if no_bars(span, bars) {
        return Day {
            done: 0,
            verdict: Ok(()),
            state: t,
        };
    }
    let s = records::settings::settings_of(settings);
    if let Err(refusal) = refusals::day::judge_day(span, s, t, bars, rows, equity, trades) {
        return Day {
            done: 0,
            verdict: Err(refusal),
            state: t,
        };
    }
    if let Err(refusal) = refusals::lists::judge_lists(s.slots, s.depth, trees) {
        return unlisted(s, t, bars, equity, trades, refusal);
    }
    take_bars(span, s, settings, t, bars, rows, equity, trades, trees)
}
