// The rows of an image, judged word by word where they stand: none is copied before all are fine.
ghost use Rattle.std.specs.Prelude.{◌≡◌, cond, ◌&&◌, ◌+◌, ◌*◌, ◌/◌, ◌%◌, ◌^◌, ◌≤◌, eqb, length};
ghost use Rattle.words.specs.Limits.{row_words, most_slots};
ghost use Rattle.floats.specs.Floats.{finite, float_of};
ghost use Rattle.table.specs.Bytes.{u64};
ghost use Rattle.refusals.specs.Bar.{every};
ghost use Rattle.images.specs.Reading.{words_at};
ghost use Rattle.images.specs.Refused.{row_fine};
ghost use Rattle.images.specs.Laws.RowWords.{slot_plain};

use crate::reader::word_at;
use words::limits::MOST_SLOTS;

// Where the mask and the slots of a row stand, behind its first byte.
const MASK_AT: usize = 8 * words::places::BAR_MASK;

const SLOTS_AT: usize = MASK_AT + 8;

// Whether the float whose word is at a place is finite.
fn finite_at(image: &[u8], at: usize) -> bool
    requires { at + 8 ≤ length image.now }
    ensures { result ≡ finite (float_of (u64 image.now at)) }
{
    floats::word_is_finite(word_at(image, at))
}

// Whether prices and volume of the row at a place are.
fn candle_fine(image: &[u8], at: usize) -> bool
    requires { at + 48 ≤ length image.now }
    ensures { result ≡ (finite (float_of (u64 image.now (at + 8))) && finite (float_of (u64 image.now (at + 16)))
        && finite (float_of (u64 image.now (at + 24))) && finite (float_of (u64 image.now (at + 32)))
        && finite (float_of (u64 image.now (at + 40)))) }
{
    finite_at(image, at + 8)
        & finite_at(image, at + 16)
        & finite_at(image, at + 24)
        & finite_at(image, at + 32)
        & finite_at(image, at + 40)
}

// Whether no bit of a mask at or above K is set.
fn mask_fits(mask: u64, slots: usize) -> bool
    requires { slots ≤ most_slots }
    ensures { result ≡ eqb (mask / 2 ^ slots) 0 }
{
    if slots < MOST_SLOTS {
        return mask >> slots == 0;
    }
    true
}

// Whether a slot's word is as its bit says, the lowest of `bits`: finite where it is present, 0 where not.
fn slot_plain(bits: u64, w: u64) -> bool
    ensures { result ≡ cond (eqb (bits % 2) 1) (finite (float_of w)) (eqb w 0) }
{
    if bits % 2 == 1 {
        return floats::word_is_finite(w);
    }
    w == 0
}

// Whether all are. No slot ends the loop, so that several are judged at a time.
fn slots_plain(image: &[u8], at: usize, slots: usize, mask: u64) -> bool
    requires { (slots ≤ most_slots) × (at + 8 * slots ≤ length image.now) }
    ensures { result ≡ every slots (λ k. slot_plain mask k (u64 image.now (at + 8 * k))) }
{
    let mut fine = true;
    for k in 0..slots {
        fine = fine & slot_plain(mask >> k, word_at(image, at + 8 * k));
    }
    fine
}

// Whether a row is one that a bar that 11 lets pass would have left.
pub(crate) fn row_fine(image: &[u8], slots: usize, at: usize) -> bool
    requires { (slots ≤ most_slots) × (at + 8 * row_words slots ≤ length image.now) }
    ensures { result ≡ row_fine slots (words_at image.now at (row_words slots)) }
{
    let mask = word_at(image, at + MASK_AT);
    candle_fine(image, at) & mask_fits(mask, slots) & slots_plain(image, at + SLOTS_AT, slots, mask)
}
