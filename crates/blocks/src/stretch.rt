// The question: the high and the low of the bars from one to another, both included.
ghost use Rattle.std.specs.Prelude.{◌≡◌};
ghost use Rattle.blocks.specs.Stretch as Stretch;

use crate::best::{BLOCK_BARS, BLOCK_WORDS, Best};
use crate::question::ask;
use words::limits::MOST_COUNT;
use words::refusal::Refusal;

// Whether both rooms hold so many bars, and these can be counted.
fn holds(held: usize, closes: &[u64], blocks: &[u64]) -> bool
    ensures { result ≡ Stretch.holds held closes.now blocks.now }
{
    held <= MOST_COUNT as usize
        && held <= closes.len()
        && BLOCK_WORDS * ((held + BLOCK_BARS - 1) / BLOCK_BARS) <= blocks.len()
}

// Whether the first bar is not after the last and both are held.
fn exists(held: usize, first: usize, last: usize) -> bool
    ensures { result ≡ Stretch.exists held first last }
{
    first <= last && first < held && last < held
}

// The high and the low of the bars from `first` to `last`: 13 where the rooms do not hold the bars, then 18 where these are none.
#[tactic(auto, unfolding(crate::specs::Stretch::stretched))]
pub fn stretch(
    held: usize,
    first: usize,
    last: usize,
    closes: &[u64],
    blocks: &[u64],
) -> Result<Best, Refusal>
    ensures { result ≡ Stretch.stretched held first last closes.now blocks.now }
{
    if !holds(held, closes, blocks) {
        return Err(Refusal::Records);
    }
    if !exists(held, first, last) {
        return Err(Refusal::Stretch);
    }
    Ok(ask(closes, blocks, first, last + 1 - first))
}
