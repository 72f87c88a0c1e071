// An image read back.
ghost use Rattle.std.specs.Prelude.{◌≡◌, ◌++◌, ◌+◌, ◌*◌, ◌<◌, ◌≤◌, length, drop};
ghost use Rattle.words.specs.Limits.{row_words, most_slots};
ghost use Rattle.words.specs.Words.{overwrite};
ghost use Rattle.table.specs.Bytes.{u64};
ghost use Rattle.images.specs.Reading.{slots_in, rows_in, words_at, row_place, state_in, window_in};

use crate::layout;
use crate::layout::HEAD_BYTES;
use records::state::State;
use table::bytes::{byte, read32, read64};
use words::limits::ROW_FIXED;

// The word whose first byte is at `at`, with no test of its own: its eight bytes are loaded as one.
pub(crate) fn word_at(image: &[u8], at: usize) -> u64
    requires { at + 8 ≤ length image.now }
    ensures { (result ≡ u64 image.now at) × (result < 18446744073709551616) }
{
    u64::from_le_bytes([
        image[at],
        image[at + 1],
        image[at + 2],
        image[at + 3],
        image[at + 4],
        image[at + 5],
        image[at + 6],
        image[at + 7],
    ])
}

// Reads n words, the first at byte `at`, over the first words of a room.
fn read_words(image: &[u8], at: usize, room: &mut [u64], n: usize)
    requires { (n ≤ length room.old) × (at + 8 * n ≤ length image.now) }
    ensures { room.new ≡ words_at image.now at n ++ drop n room.old }
{
    for i in 0..n {
        room[i] = word_at(image, at + 8 * i);
    }
}

// The window's rows, over the first words of the row room.
pub(crate) fn read_window(image: &[u8], rows: &mut [u64])
    requires { (slots_in image.now ≤ most_slots) × (rows_in image.now * row_words (slots_in image.now) ≤ length rows.old)
        × (row_place (slots_in image.now) (rows_in image.now) ≤ length image.now) }
    ensures { rows.new ≡ overwrite rows.old 0 (window_in image.now) }
{
    let width = ROW_FIXED + byte(image, layout::SLOTS) as usize;
    let n = read32(image, layout::ROWS_HELD) as usize * width;
    read_words(image, HEAD_BYTES, rows, n);
}

// The state.
pub(crate) fn state_in(image: &[u8]) -> State
    ensures { result ≡ state_in image.now }
{
    let words = [
        read32(image, layout::BARS_SEEN),
        read32(image, layout::ROWS_HELD),
        0,
        0,
        byte(image, layout::ORDER) as u64,
        read64(image, layout::ORDER_DELAY),
        byte(image, layout::ENTERED) as u64,
        read32(image, layout::ENTRY_BAR),
        read64(image, layout::CASH),
        read64(image, layout::QTY),
        read64(image, layout::ENTRY_PRICE),
        read64(image, layout::ENTRY_TIME),
        read64(image, layout::ENTRY_FEE),
        read64(image, layout::FEES_PAID),
        read64(image, layout::EXTREME),
        read64(image, layout::LAST_TIME),
        read64(image, layout::LAST_CLOSE),
        byte(image, layout::ORDER_KIND) as u64,
        read64(image, layout::ORDER_LEVEL),
        read64(image, layout::ORDER_LIMIT),
        read64(image, layout::OPEN_FUNDING),
        read64(image, layout::OPEN_WORST),
    ];
    records::state_words::state_of(&words)
}
