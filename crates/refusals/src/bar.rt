// Refusal 11: the new bar. Reads past its end give 0, so that a bar of any length is judged.
ghost use Rattle.std.specs.Prelude.{◌≡◌};
ghost use Rattle.floats.specs.Floats.{finite};
ghost use Rattle.records.specs.Bar.{candle_of};
ghost use Rattle.records.specs.Fields.{float_at};
ghost use Rattle.refusals.specs.Lines.{judged};
ghost use Rattle.refusals.specs.Bar.{funding_fine, bit_fine, slots_fine, candle_fine, bar_lines};

use crate::verdict::Verdict;
use execution::costs::Funding;
use records::bar::funding_of;
use words::refusal::Refusal;

// Whether bit k, the lowest of what is left of the mask, is clear or that of a slot whose word is finite.
fn slot_fine(bar: &[u64], slots: usize, left: u64, k: usize) -> bool
    ensures { result ≡ bit_fine slots bar.now left k }
{
    if left % 2 == 1 {
        if k < slots {
            return floats::word_is_finite(words::word_from(bar, words::limits::ROW_FIXED, k));
        }
        return false;
    }
    true
}

// Whether all bits of the mask are so. The mask is halved until nothing is left of it.
fn slots_fine(bar: &[u64], slots: usize) -> bool
    ensures { result ≡ slots_fine slots bar.now }
{
    let mut left = words::word_from(bar, 0, words::places::BAR_MASK);
    for k in 0..words::limits::MOST_SLOTS {
        if left == 0 {
            return true;
        }
        if !slot_fine(bar, slots, left, k) {
            return false;
        }
        left = left / 2;
    }
    true
}

// Whether mark and rate are finite, where they are supplied.
fn funding_fine(funding: Option<Funding>) -> bool
    ensures { result ≡ funding_fine funding }
{
    match funding {
        None => true,
        Some(Funding { mark, rate }) => {
            if floats::is_finite(mark) {
                return floats::is_finite(rate);
            }
            false
        }
    }
}

// Whether word i of the bar is that of a finite float.
fn number_fine(bar: &[u64], i: usize) -> bool
    ensures { result ≡ finite (float_at bar.now i) }
{
    floats::word_is_finite(words::word(bar, i))
}

// Whether prices and volume are finite. The last is looked at first: a bar that has it has the others, and its length is asked once.
fn candle_fine(bar: &[u64]) -> bool
    ensures { result ≡ candle_fine (candle_of bar.now) }
{
    if !number_fine(bar, words::places::BAR_VOLUME) {
        return false;
    }
    if !number_fine(bar, words::places::BAR_CLOSE) {
        return false;
    }
    if !number_fine(bar, words::places::BAR_LOW) {
        return false;
    }
    if !number_fine(bar, words::places::BAR_HIGH) {
        return false;
    }
    number_fine(bar, words::places::BAR_OPEN)
}

// 11, all of the bar.
pub fn judge_bar(slots: usize, bar: &[u64], seen: u64) -> Verdict
    ensures { result ≡ judged (bar_lines slots bar.now seen) }
{
    if !candle_fine(bar) {
        return Err(Refusal::Bar(seen));
    }
    if !slots_fine(bar, slots) {
        return Err(Refusal::Bar(seen));
    }
    if !funding_fine(funding_of(bar, slots)) {
        return Err(Refusal::Bar(seen));
    }
    Ok(())
}
