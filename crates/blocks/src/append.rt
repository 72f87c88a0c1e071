// One bar more: its close, and the block that it falls into.
ghost use Rattle.std.specs.Prelude.{◌≡◌, ◌+◌, ◌*◌, ◌/◌, ◌<◌, ◌≤◌, length, set};
ghost use Rattle.blocks.specs.Blocks as Blocks;
ghost use Rattle.blocks.specs.Append.{appended};

use crate::best::{BLOCK_BARS, BLOCK_WORDS, Best, block, join, one};
use words::limits::MOST_COUNT;
use words::refusal::Refusal;

// The numbers of the two rooms.
const CLOSES_ROOM: u64 = 12;

const BLOCKS_ROOM: u64 = 13;

// The best of the block that a bar falls into, with it: begun by its first bar, whatever the room held, and kept up by each one after it.
#[tactic(auto, unfolding(crate::specs::Blocks::grown))]
fn grown(blocks: &[u64], bar: usize, close: u64) -> Best
    ensures { result ≡ Blocks.grown blocks.now bar close }
{
    if bar % BLOCK_BARS == 0 {
        return one(close, bar);
    }
    join(block(blocks, bar / BLOCK_BARS), one(close, bar))
}

// Writes the close and its block, where both rooms have a place.
fn put_bar(closes: &mut [u64], blocks: &mut [u64], held: usize, close: u64)
    requires { (held < length closes.old) × (4 * (held / 64) + 4 ≤ length blocks.old) }
    ensures { (closes.new ≡ set closes.old held close)
        × (blocks.new ≡ Blocks.put blocks.old (held / 64) (Blocks.grown blocks.old held close)) }
{
    let best = grown(blocks, held, close);
    let at = BLOCK_WORDS * (held / BLOCK_BARS);
    closes[held] = close;
    blocks[at] = best.high;
    blocks[at + 1] = best.high_bar;
    blocks[at + 2] = best.low;
    blocks[at + 3] = best.low_bar;
}

// Appends a close to the bars held: 10 where a room has no place for it, then 11 where it is not finite.
#[tactic(auto, unfolding(crate::specs::Append::appended))]
pub fn append(
    held: usize,
    close: u64,
    closes: &mut [u64],
    blocks: &mut [u64],
) -> Result<usize, Refusal>
    ensures { appended held close closes.old blocks.old
        ≡ record { answer = result; closes = closes.new; blocks = blocks.new } }
{
    if closes.len() <= held {
        return Err(Refusal::Room(CLOSES_ROOM));
    }
    if (MOST_COUNT as usize) <= held {
        return Err(Refusal::Room(CLOSES_ROOM));
    }
    if blocks.len() < BLOCK_WORDS * (held / BLOCK_BARS) + BLOCK_WORDS {
        return Err(Refusal::Room(BLOCKS_ROOM));
    }
    if !floats::word_is_finite(close) {
        return Err(Refusal::Bar(held as u64));
    }
    put_bar(closes, blocks, held, close);
    Ok(held + 1)
}
