// The best of a stretch of bars, and how those of two stretches are joined.
ghost use Rattle.std.specs.Prelude.{◌≡◌, ◌<◌};
ghost use Rattle.floats.specs.Floats.{float_of, ◌≺◌};
ghost use Rattle.blocks.specs.Reading as Reading;
ghost use Rattle.blocks.specs.Blocks as Blocks;

// The bars of a block.
pub(crate) const BLOCK_BARS: usize = 64;

// The words of a block: its high, the first bar that has it, its low, the first bar that has that.
pub(crate) const BLOCK_WORDS: usize = 4;

// The highest close and the first bar that has it, the lowest and the first bar that has that.
#[derive(Clone, Copy)]
pub struct Best {
    pub high: u64,
    pub high_bar: u64,
    pub low: u64,
    pub low_bar: u64,
}

// Of one close.
pub(crate) fn one(close: u64, bar: usize) -> Best
    ensures { result ≡ Reading.one close bar }
{
    Best {
        high: close,
        high_bar: bar as u64,
        low: close,
        low_bar: bar as u64,
    }
}

// Whether a close is below another.
fn below(a: u64, b: u64) -> bool
    ensures { result ≡ (float_of a ≺ float_of b) }
{
    floats::float_of(a) < floats::float_of(b)
}

// Of two stretches, the earlier first: a later number takes the place only if strictly greater, or less.
#[tactic(auto, unfolding(crate::specs::Reading::join))]
pub(crate) fn join(a: Best, b: Best) -> Best
    ensures { result ≡ Reading.join a b }
{
    if below(a.high, b.high) {
        if below(b.low, a.low) {
            return b;
        }
        return Best {
            high: b.high,
            high_bar: b.high_bar,
            low: a.low,
            low_bar: a.low_bar,
        };
    }
    if below(b.low, a.low) {
        return Best {
            high: a.high,
            high_bar: a.high_bar,
            low: b.low,
            low_bar: b.low_bar,
        };
    }
    a
}

// Of block j, as the room has it.
pub(crate) fn block(blocks: &[u64], j: usize) -> Best
    requires { j < 0x1000_0000_0000_0000 }
    ensures { result ≡ Blocks.block blocks.now j }
{
    let at = BLOCK_WORDS * j;
    Best {
        high: words::word(blocks, at),
        high_bar: words::word(blocks, at + 1),
        low: words::word(blocks, at + 2),
        low_bar: words::word(blocks, at + 3),
    }
}
