// Bars in one call: one, or many. Both go one way, so that what a bar does is compiled once, and into it.
ghost use Rattle.std.specs.Prelude.{◌≡◌};
ghost use Rattle.records.specs.Lent.{rooms};
ghost use Rattle.refusals.specs.Lines.{judged};
ghost use Rattle.refusals.specs.Lists.{lists_of};
ghost use Rattle.replies.specs.Call.{word_lines};
ghost use Rattle.stepping.specs.Day.{day_lent_lines, short_of, state_after, day_call};
ghost use Rattle.stepping.specs.WordRun.{answer_of};

use records::settings::settings_of;
use records::state::State;
use records::state_words::{put_state, state_of};
use refusals::day::Span;
use refusals::lists::Lists;
use refusals::verdict::Verdict;
use replies::{answer_word, judge_words};

// 10: the room of rows, where there is a bar; then settings and state.
fn judge_lent(span: Span, settings: &[u64], state: &[u64], bars: &[u64], rows: &[u64]) -> Verdict
    ensures { result ≡ judged (day_lent_lines span settings.now state.now bars.now rows.now) }
{
    if engine::day::no_bars(span, bars) {
        return judge_words(settings, state);
    }
    refusals::rooms::judge_room(settings_of(settings), rows)?;
    judge_words(settings, state)
}

// The same, where settings or state are short of words. Where they are not, the room of rows is left to the engine, which looks at it first.
fn judge_short(span: Span, settings: &[u64], state: &[u64], bars: &[u64], rows: &[u64]) -> Verdict
    ensures { result ≡ short_of (judged (word_lines settings.now state.now))
        (judged (day_lent_lines span settings.now state.now bars.now rows.now)) }
{
    let words = judge_words(settings, state);
    match words {
        Ok(()) => Ok(()),
        Err(_) => judge_lent(span, settings, state, bars, rows),
    }
}

// Writes the state where a bar was done.
fn put_after(room: &mut [u64], done: usize, t: State)
    ensures { room.new ≡ state_after room.old done t }
{
    if done == 0 {
        return;
    }
    put_state(room, t);
}

// What a verdict answers.
pub fn answer_of(verdict: Verdict) -> u64
    ensures { result ≡ answer_of verdict }
{
    match verdict {
        Ok(()) => 0,
        Err(refusal) => answer_word(refusal),
    }
}

// Bars, one after another, until one is refused: how many were done.
pub fn call_bars<'a>(
    span: Span,
    settings: &[u64],
    state: &mut [u64],
    bars: &[u64],
    rows: &mut [u64],
    equity: &mut [u64],
    trades: &mut [u64],
    trees: Lists<'a>,
    done: &mut u64,
) -> u64
    ensures { day_call span settings.now state.entry.now bars.now
        (rooms rows.old equity.old trades.old)
        (lists_of trees.entry)
        ≡ record {
          answer = result;
          lent = record {
            state = state.exit.now;
            rooms = rooms rows.new equity.new trades.new;
            done = done.new;
          };
        } }
{
    if let Err(refusal) = judge_short(span, settings, state, bars, rows) {
        *done = 0;
        return answer_word(refusal);
    }
    let day = engine::day::run_bars(
        span,
        settings,
        state_of(state),
        bars,
        rows,
        equity,
        trades,
        trees,
    );
    let last = day.state;
    let verdict = day.verdict;
    *done = day.done as u64;
    put_after(state, day.done, last);
    answer_of(verdict)
}
