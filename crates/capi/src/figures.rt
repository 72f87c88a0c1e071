// The nine metrics of lists of words, and the square root of a word.
ghost use Rattle.std.specs.Prelude.{◌≡◌};
ghost use Rattle.words.specs.Words.{overwrite};
ghost use Rattle.metrics.specs.Figures.{figure_words};
ghost use Rattle.floats.specs.Floats.{word_of, float_of};
ghost use Rattle.floats.specs.Sqrt.{sqrt};
ghost use Rattle.capi.specs.Figures.{metrics_call};

use metrics::Metrics;
use replies::{answer_word, judge_metrics};

// Writes the nine metrics over the first words of a room; nothing where it is shorter.
pub(crate) fn put_metrics(room: &mut [u64], m: Metrics)
    ensures { room.new ≡ overwrite room.old 0 (figure_words m) }
{
    let words = metrics::words_of(m);
    words::put(room, 0, &words);
}

// The metrics of equity points and trades.
#[unsafe(no_mangle)]
pub extern "C" fn ysh_metrics(
    initial: u64,
    equity: &[u64],
    trades: &[u64],
    metrics: &mut [u64],
) -> u64
    ensures { metrics_call initial equity.now trades.now metrics.old
        ≡ record { answer = result; lent = metrics.new } }
{
    if let Err(refusal) = judge_metrics(metrics) {
        return answer_word(refusal);
    }
    let computed = metrics::compute(floats::float_of(initial), equity, trades);
    match computed {
        Err(refusal) => answer_word(refusal),
        Ok(m) => {
            put_metrics(metrics, m);
            0
        }
    }
}

// The square root of a float's word.
#[unsafe(no_mangle)]
pub extern "C" fn ysh_root(word: u64) -> u64
    ensures { result ≡ word_of (sqrt (float_of word)) }
{
    floats::word_of(floats::root::sqrt(floats::float_of(word)))
}
