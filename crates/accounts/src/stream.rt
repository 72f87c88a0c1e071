// The stream: its slots and its bars are judged before any account, and once for all of them.
ghost use Rattle.std.specs.Prelude.{◌≡◌, ◌/◌, length, Ok};
ghost use Rattle.refusals.specs.Lines.{judged};
ghost use Rattle.words.specs.Limits.{bar_words};
ghost use Rattle.engine.specs.Day.{in_records};
ghost use Rattle.accounts.specs.Stream.{stream_lines, stream_bar_lines, stream_takes, stream_taken};

use refusals::bar::judge_bar;
use refusals::verdict::Verdict;
use words::limits::{BAR_FIXED, MOST_COUNT, MOST_SLOTS};
use words::refusal::Refusal;

// How many bars the stream takes, and what ended it (fine where it takes all).
#[derive(Clone, Copy)]
pub struct StreamTaken {
    pub done: usize,
    pub verdict: Verdict,
}

// 12 and 13, once for all bars: the stream's slots, its bars, and a list of whole records.
fn judge_stream(slots: usize, seen: u64, bars: &[u64]) -> Verdict
    ensures { result ≡ judged (stream_lines slots seen bars.now) }
{
    if MOST_SLOTS < slots {
        return Err(Refusal::Setting(0));
    }
    if MOST_COUNT < seen {
        return Err(Refusal::Records);
    }
    if bars.len() % (BAR_FIXED + slots) == 0 {
        return Ok(());
    }
    Err(Refusal::Records)
}

// 14 and 11, of each bar.
fn judge_next(slots: usize, seen: u64, bar: &[u64]) -> Verdict
    ensures { result ≡ judged (stream_bar_lines slots seen bar.now) }
{
    if MOST_COUNT <= seen {
        return Err(Refusal::Full);
    }
    judge_bar(slots, bar, seen)
}

// Bar after bar, until one is refused.
fn take_whole(slots: usize, seen: u64, bars: &[u64]) -> StreamTaken
    requires { judged (stream_lines slots seen bars.now) ≡ Ok tt }
    ensures { result ≡ stream_takes slots seen (in_records (length bars.now / bar_words slots) (bar_words slots) bars.now) }
{
    let width = BAR_FIXED + slots;
    let count = bars.len() / width;
    for done in 0..count {
        let from = done * width;
        let to = from + width;
        let verdict = judge_next(slots, seen + done as u64, &bars[from..to]);
        if let Err(refusal) = verdict {
            return StreamTaken {
                done,
                verdict: Err(refusal),
            };
        }
    }
    StreamTaken {
        done: count,
        verdict: Ok(()),
    }
}

// How many of the bars the stream takes. Any slots, count and bars get an answer; no bars ask nothing.
pub fn take_bars(slots: usize, seen: u64, bars: &[u64]) -> StreamTaken
    ensures { result ≡ stream_taken slots seen bars.now }
{
    if bars.is_empty() {
        return StreamTaken {
            done: 0,
            verdict: Ok(()),
        };
    }
    if let Err(refusal) = judge_stream(slots, seen, bars) {
        return StreamTaken {
            done: 0,
            verdict: Err(refusal),
        };
    }
    take_whole(slots, seen, bars)
}
