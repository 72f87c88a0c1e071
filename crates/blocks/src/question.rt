// A question over bars that there are: single bars up to the next block, whole blocks, single bars.
ghost use Rattle.std.specs.Prelude.{◌≡◌, ◌+◌, ◌<◌, ◌≤◌, length};
ghost use Rattle.words.specs.Limits.{most_count};
ghost use Rattle.blocks.specs.Blocks as Blocks;
ghost use Rattle.blocks.specs.Reads as Reads;

use crate::best::{BLOCK_BARS, Best, block, join, one};

// The best so far, and n single bars more.
#[tactic(auto, unfolding(crate::specs::Blocks::with_closes))]
fn singles(closes: &[u64], from: Best, bar: usize, n: usize) -> Best
    requires { bar + n ≤ length closes.now }
    ensures { result ≡ Blocks.with_closes closes.now from bar n }
{
    let mut best = from;
    for i in 0..n {
        best = join(best, one(closes[bar + i], bar + i));
    }
    best
}

// The best so far, and n whole blocks more.
#[tactic(auto, unfolding(crate::specs::Blocks::with_blocks))]
fn wholes(blocks: &[u64], from: Best, j: usize, n: usize) -> Best
    requires { j + n ≤ most_count }
    ensures { result ≡ Blocks.with_blocks blocks.now from j n }
{
    let mut best = from;
    for i in 0..n {
        best = join(best, block(blocks, j + i));
    }
    best
}

// The best so far, and n bars more: single bars up to the next block, whole blocks, single bars.
fn onward(closes: &[u64], blocks: &[u64], best: Best, bar: usize, n: usize) -> Best
    requires { (bar + n ≤ length closes.now) × (bar + n ≤ most_count) }
    ensures { result ≡ Reads.onto closes.now blocks.now best (Reads.reads bar n) }
{
    let front = ((BLOCK_BARS - bar % BLOCK_BARS) % BLOCK_BARS).min(n);
    let start = bar + front;
    let whole = (n - front) / BLOCK_BARS;
    let end = start + BLOCK_BARS * whole;
    let before = singles(closes, best, bar, front);
    let middle = wholes(blocks, before, start / BLOCK_BARS, whole);
    singles(closes, middle, end, bar + n - end)
}

// Whether a block begins at a bar and its bars are all among the next n.
fn begins_block(bar: usize, n: usize) -> bool
    ensures { result ≡ Reads.begins_block bar n }
{
    bar % BLOCK_BARS == 0 && BLOCK_BARS <= n
}

// The best of n bars from `first` on, one or more.
pub(crate) fn ask(closes: &[u64], blocks: &[u64], first: usize, n: usize) -> Best
    requires { (0 < n) × (first + n ≤ length closes.now) × (first + n ≤ most_count) }
    ensures { result ≡ Reads.told closes.now blocks.now (Reads.reads first n) }
{
    if begins_block(first, n) {
        let best = block(blocks, first / BLOCK_BARS);
        return onward(closes, blocks, best, first + BLOCK_BARS, n - BLOCK_BARS);
    }
    let best = one(closes[first], first);
    onward(closes, blocks, best, first + 1, n - 1)
}
