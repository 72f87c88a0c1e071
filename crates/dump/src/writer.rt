// An image written into an area, in the one order of writing.
ghost use Rattle.std.specs.Prelude.{◌≡◌, ◌+◌, ◌-◌, ◌*◌, ◌≤◌, length};
ghost use Rattle.words.specs.Limits.{most_slots, most_rows};
ghost use Rattle.rows.specs.History.{last_rows};
ghost use Rattle.records.specs.Lent.{row_places};
ghost use Rattle.engine.specs.Record.{held_rows};
ghost use Rattle.images.specs.Layout.{body_bytes, size_for, image_of};
ghost use Rattle.dump.specs.Order.{written};
ghost use Rattle.dump.specs.Laws.InOrder.{clip, part_laid, in_order, whole_laid};
ghost use Rattle.dumpable.specs.Laws.Fine.{DumpFine};

use crate::bytes::{lay, lay_words};
use heads::packed::head_words;
use images::layout::HEAD_BYTES;
use records::settings::Settings;
use records::state::State;
use words::limits::{MOST_ROWS, MOST_SLOTS, ROW_FIXED};

const HEAD_WORDS: usize = HEAD_BYTES / 8;

// Of the bytes before the rows the mark's, and the rest.
pub const MARK_BYTES: usize = 3;

const REST_BYTES: usize = HEAD_BYTES - MARK_BYTES;

// How much of a part that begins at `start` lies before x, at most all of it.
pub(crate) fn clip(x: usize, start: usize, most: usize) -> usize
    ensures { result ≡ clip x start most }
{
    x.saturating_sub(start).min(most)
}

// What lies between `from` and `upto` of a part of the order: `most` bytes that begin at `start`, and are those of the words from `skip` on.
fn lay_part(
    area: &mut [u8],
    base: usize,
    list: &[u64],
    skip: usize,
    start: usize,
    most: usize,
    from: usize,
    upto: usize,
)
    requires { base + (skip + most) ≤ length area.old }
    ensures { area.new ≡ part_laid area.old base list.now skip start most from upto }
{
    lay(
        area,
        base,
        list,
        skip + clip(from, start, most),
        skip + clip(upto, start, most),
    );
}

// All of it, the word with the mark last.
fn write_whole(area: &mut [u8], head: &[u64], rows: &[u64], words: usize)
    requires { 256 + 8 * words ≤ length area.old }
    ensures { area.new ≡ whole_laid area.old head.now rows.now (8 * words) }
{
    lay_words(area, HEAD_BYTES, rows, 0, words);
    lay_words(area, 0, head, 1, HEAD_WORDS);
    lay_words(area, 0, head, 0, 1);
}

// Bytes `from` to `upto` of the order of writing: the rows, the header behind the mark, the mark.
fn write_parts(area: &mut [u8], head: &[u64], rows: &[u64], body: usize, from: usize, upto: usize)
    requires { 256 + body ≤ length area.old }
    ensures { area.new ≡ in_order area.old head.now rows.now body from upto }
{
    lay_part(area, HEAD_BYTES, rows, 0, 0, body, from, upto);
    lay_part(area, 0, head, MARK_BYTES, body, REST_BYTES, from, upto);
    lay_part(area, 0, head, 0, body + REST_BYTES, MARK_BYTES, from, upto);
}

// The same of rows that are so many words, zero rows included; a whole image word by word.
pub(crate) fn write_order(
    area: &mut [u8],
    head: &[u64],
    rows: &[u64],
    words: usize,
    from: usize,
    upto: usize,
)
    requires { 256 + 8 * words ≤ length area.old }
    ensures { area.new ≡ in_order area.old head.now rows.now (8 * words) from upto }
{
    if from == 0 {
        if HEAD_BYTES + 8 * words <= upto {
            write_whole(area, head, rows, words);
            return;
        }
    }
    write_parts(area, head, rows, 8 * words, from, upto);
}

// The words of D rows.
pub(crate) fn body_words(slots: usize, depth: usize) -> usize
    requires { (slots ≤ most_slots) × (depth ≤ most_rows) }
    ensures { 8 * result ≡ body_bytes slots depth }
{
    depth * (ROW_FIXED + slots)
}

// The size of an image, for a D and a K; 0 where no settings have them.
pub fn dump_bytes(slots: usize, depth: usize) -> usize
    ensures { result ≡ size_for slots depth }
{
    if MOST_SLOTS < slots {
        return 0;
    }
    if depth < 1 {
        return 0;
    }
    if MOST_ROWS < depth {
        return 0;
    }
    HEAD_BYTES + 8 * body_words(slots, depth)
}

// Of the rows that a room holds the last D, or all where there are fewer.
pub(crate) fn held_window(rows: &[u64], slots: usize, depth: usize, held: usize) -> &[u64]
    requires { (slots ≤ most_slots) × (held ≤ row_places slots rows.now) }
    ensures { result.now ≡ last_rows slots depth (held_rows slots held rows.now) }
{
    let end = held * (ROW_FIXED + slots);
    rows::window(&rows[..end], slots, depth)
}

// The image of a state and its window, of a dump that was judged.
pub(crate) fn write_dump(
    s: Settings,
    t: State,
    rows: &[u64],
    area: &mut [u8],
    from: usize,
    upto: usize,
)
    requires { DumpFine s t rows.now area.old }
    ensures { area.new ≡ written (image_of s t rows.now) area.old from upto }
{
    let counts = t.counts;
    let kept = held_window(rows, s.slots, s.depth, counts.rows_held);
    let head = head_words(s, t, rows::row_count(kept, s.slots));
    write_order(area, &head, kept, body_words(s.slots, s.depth), from, upto);
}
