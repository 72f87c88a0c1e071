// A bar as the caller hands it. Reads past its end give 0, so that a bar of any length has a meaning.
ghost use Rattle.std.specs.Prelude.{◌≡◌, length, eqb};
ghost use Rattle.words.specs.Limits.{bar_words};
ghost use Rattle.records.specs.Bar.{candle_of, funding_of};

use crate::fields::float_at;
use execution::costs::Funding;
use portfolio::Candle;
use words::limits::BAR_FIXED;

// Whether the words are exactly one bar.
pub fn is_whole(bar: &[u64], slots: usize) -> bool
    ensures { result ≡ eqb (length bar.now) (bar_words slots) }
{
    if bar.len() < BAR_FIXED {
        return false;
    }
    bar.len() - BAR_FIXED == slots
}

// The bar's time, prices and volume.
pub fn candle_of(bar: &[u64]) -> Candle
    ensures { result ≡ candle_of bar.now }
{
    Candle {
        time: words::word(bar, words::places::BAR_TIME),
        open: float_at(bar, words::places::BAR_OPEN),
        high: float_at(bar, words::places::BAR_HIGH),
        low: float_at(bar, words::places::BAR_LOW),
        close: float_at(bar, words::places::BAR_CLOSE),
        volume: float_at(bar, words::places::BAR_VOLUME),
    }
}

// The bar's funding, which stands behind its slots.
pub fn funding_of(bar: &[u64], slots: usize) -> Option<Funding>
    ensures { result ≡ funding_of slots bar.now }
{
    if words::word_from(bar, words::places::BAR_FUNDED, slots) == 0 {
        return None;
    }
    let mark = floats::float_of(words::word_from(bar, words::places::BAR_MARK, slots));
    let rate = floats::float_of(words::word_from(bar, words::places::BAR_RATE, slots));
    Some(Funding { mark, rate })
}
