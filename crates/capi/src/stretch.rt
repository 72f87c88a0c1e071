// The high and the low of a stretch of closes: one close more, and the question.
ghost use Rattle.std.specs.Prelude.{◌≡◌};
ghost use Rattle.capi.specs.Stretch.{append_call, stretch_call};

use blocks::append::append;
use blocks::stretch::stretch;
use replies::answer_word;

// Appends a close to the bars held.
#[unsafe(no_mangle)]
pub extern "C" fn ysh_append(
    held: &mut u64,
    close: u64,
    closes: &mut [u64],
    blocks: &mut [u64],
) -> u64
    ensures { append_call close (record { held = held.entry.now; closes = closes.old; blocks = blocks.old })
        ≡ record { answer = result; lent = record { held = held.exit.now; closes = closes.new; blocks = blocks.new } } }
{
    let added = append(*held as usize, close, closes, blocks);
    match added {
        Err(refusal) => answer_word(refusal),
        Ok(bars) => {
            *held = bars as u64;
            0
        }
    }
}

// The high and the low of the closes from bar `first` to bar `last`, each with the earliest bar that has it.
#[unsafe(no_mangle)]
pub extern "C" fn ysh_stretch(
    held: u64,
    first: u64,
    last: u64,
    closes: &[u64],
    blocks: &[u64],
    high: &mut u64,
    high_bar: &mut u64,
    low: &mut u64,
    low_bar: &mut u64,
) -> u64
    ensures { stretch_call held first last closes.now blocks.now
        (record { high = high.entry.now; high_bar = high_bar.old; low = low.old; low_bar = low_bar.old })
        ≡ record {
          answer = result;
          lent = record {
            high = high.exit.now;
            high_bar = high_bar.new;
            low = low.new;
            low_bar = low_bar.new;
          };
        } }
{
    let found = stretch(held as usize, first as usize, last as usize, closes, blocks);
    match found {
        Err(refusal) => answer_word(refusal),
        Ok(best) => {
            *high = best.high;
            *high_bar = best.high_bar;
            *low = best.low;
            *low_bar = best.low_bar;
            0
        }
    }
}
