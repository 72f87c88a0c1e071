// Whether an image can be restored: 10, 12, 19, 20.
ghost use Rattle.std.specs.Prelude.{◌≡◌, ◌+◌, ◌<◌, ◌≤◌, length};
ghost use Rattle.words.specs.Limits.{most_slots, most_rows};
ghost use Rattle.refusals.specs.Lines.{judged};
ghost use Rattle.images.specs.Reading.{slots_in, rows_in, row_place};
ghost use Rattle.images.specs.Refused.{used_or_zero, zero_at, each_fine, rows_fine, shape_fine, numbers_fine, unused_zero};
ghost use Rattle.images.specs.Refused.{image_lines, same_lines, restore_judged};

use crate::body::row_fine;
use crate::layout;
use crate::layout::HEAD_BYTES;
use records::settings::Settings;
use records::state_words::entered_of;
use refusals::rooms::{entry_below, judge_room};
use refusals::setting::judge_settings;
use refusals::verdict::{Verdict, line};
use table::bytes::{byte, read16, read32, read64};
use words::limits::{MOST_ROWS, MOST_SLOTS, ROW_FIXED};
use words::refusal::Refusal;

// Mark, version, D, K and the size. Every test is made, with no branch between them: a read past the end gives 0.
fn shape_fine(image: &[u8]) -> bool
    ensures { result ≡ shape_fine image.now }
{
    let size = image.len();
    let depth = read16(image, layout::DEPTH);
    let slots = byte(image, layout::SLOTS) as usize;
    (HEAD_BYTES <= size)
        & (byte(image, layout::MARK_W) == 87)
        & (byte(image, layout::MARK_D) == 68)
        & (byte(image, layout::MARK_P) == 80)
        & (read16(image, layout::VERSION) == 1)
        & (1 <= depth)
        & (depth <= MOST_ROWS)
        & (slots <= MOST_SLOTS)
        & (size == HEAD_BYTES + depth * (8 * (ROW_FIXED + slots)))
}

// Rows, kinds and the entry bar.
fn numbers_fine(image: &[u8]) -> bool
    ensures { result ≡ numbers_fine image.now }
{
    let rows = read32(image, layout::ROWS_HELD);
    let seen = read32(image, layout::BARS_SEEN);
    let entered = byte(image, layout::ENTERED);
    (rows <= read16(image, layout::DEPTH) as u64)
        & (rows <= seen)
        & (byte(image, layout::ORDER) <= 3)
        & (byte(image, layout::ORDER_KIND) <= 3)
        & (entered <= 1)
        & entry_below(
            entered_of(entered as u64, read32(image, layout::ENTRY_BAR)),
            seen,
        )
}

// A field that is not used is zero.
fn used_or_zero(used: bool, word: u64) -> bool
    ensures { result ≡ used_or_zero used word }
{
    used | (word == 0)
}

// The fields that their kind does not use.
fn unused_zero(image: &[u8]) -> bool
    ensures { result ≡ unused_zero image.now }
{
    let order = byte(image, layout::ORDER);
    let kind = byte(image, layout::ORDER_KIND);
    let entry = (order == 1) | (order == 2);
    used_or_zero(0 < order, read64(image, layout::ORDER_DELAY))
        & used_or_zero(entry, kind as u64)
        & used_or_zero(0 < kind, read64(image, layout::ORDER_LEVEL))
        & used_or_zero(kind == 3, read64(image, layout::ORDER_LIMIT))
        & used_or_zero(
            0 < byte(image, layout::ENTERED),
            read32(image, layout::ENTRY_BAR),
        )
}

// Whether the n bytes from `at` on are zero.
fn zero_at(image: &[u8], at: usize, n: usize) -> bool
    requires { at + n < 18446744073709551616 }
    ensures { result ≡ zero_at image.now at n }
{
    for i in 0..n {
        if byte(image, at + i) != 0 {
            return false;
        }
    }
    true
}

// Where a row begins.
fn row_place(slots: usize, i: usize) -> usize
    requires { (slots ≤ most_slots) × (i ≤ most_rows) }
    ensures { (result ≡ row_place slots i) × (result < 4294967296) }
{
    HEAD_BYTES + 8 * (i * (ROW_FIXED + slots))
}

// The first n rows.
fn each_fine(image: &[u8], slots: usize, n: usize) -> bool
    requires { (slots ≤ most_slots) × (n ≤ most_rows) × (row_place slots n ≤ length image.now) }
    ensures { result ≡ each_fine image.now slots n }
{
    for i in 0..n {
        if !row_fine(image, slots, row_place(slots, i)) {
            return false;
        }
    }
    true
}

// All rows, the zero rows too.
fn rows_fine(image: &[u8]) -> bool
    requires { (slots_in image.now ≤ most_slots) × (rows_in image.now ≤ most_rows)
        × (row_place (slots_in image.now) (rows_in image.now) ≤ length image.now) }
    ensures { result ≡ rows_fine image.now }
{
    let slots = byte(image, layout::SLOTS) as usize;
    let held = read32(image, layout::ROWS_HELD) as usize;
    if !each_fine(image, slots, held) {
        return false;
    }
    let end = row_place(slots, held);
    zero_at(image, end, image.len() - end)
}

// 19.
fn judge_image(image: &[u8]) -> Verdict
    ensures { result ≡ judged (image_lines image.now) }
{
    if !shape_fine(image) {
        return Err(Refusal::Image);
    }
    if !numbers_fine(image) {
        return Err(Refusal::Image);
    }
    if !unused_zero(image) {
        return Err(Refusal::Image);
    }
    if byte(image, layout::SPARE) != 0 {
        return Err(Refusal::Image);
    }
    if !zero_at(image, layout::SPARE_TAIL, layout::SPARE_TAIL_BYTES) {
        return Err(Refusal::Image);
    }
    if !rows_fine(image) {
        return Err(Refusal::Image);
    }
    Ok(())
}

// 20.
#[tactic(auto, unfolding(refusals::specs::Lines::judged, crate::specs::Refused::same_lines))]
fn judge_same(s: Settings, image: &[u8]) -> Verdict
    ensures { result ≡ judged (same_lines s image.now) }
{
    line(read16(image, layout::DEPTH) == s.depth, Refusal::Other)?;
    line(
        byte(image, layout::SLOTS) as usize == s.slots,
        Refusal::Other,
    )
}

// All of it.
pub(crate) fn judge_restore(s: Settings, image: &[u8], rows: &[u64]) -> Verdict
    ensures { result ≡ restore_judged s image.now rows.now }
{
    judge_room(s, rows)?;
    judge_settings(s)?;
    judge_image(image)?;
    judge_same(s, image)
}
