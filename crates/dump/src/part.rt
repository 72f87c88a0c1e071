// A part of an image: its bytes from a place on, into a buffer of any length, so that a page is made in a page's memory.
ghost use Rattle.std.specs.Prelude.{◌≡◌, ◌+◌, ◌-◌, ◌<◌, ◌≤◌, min, length, drop};
ghost use Rattle.words.specs.Limits.{state_words, most_slots, most_rows};
ghost use Rattle.records.specs.Settings.{settings_of};
ghost use Rattle.records.specs.StateWords.{state_of};
ghost use Rattle.images.specs.Layout.{words_bytes, dump_bytes, image_of};
ghost use Rattle.dump.specs.Parts.{PartLaid, PartDumped};
ghost use Rattle.dump.specs.Laws.Laid.{laid};
ghost use Rattle.heads.specs.Laws.Packed.{head_words};
ghost use Rattle.heads.specs.Laws.Plain.{plain_words};
ghost use Rattle.dump.specs.Laws.Placed.{head_laid, rows_laid};
ghost use Rattle.dumpable.specs.Laws.Fine.{PartFine};
ghost use Rattle.dump.specs.Laws.WordsFit.{WordsFit, WordsParted};

use crate::bytes::{byte_at, lay};
use crate::writer::{body_words, clip, held_window};
use dumpable::judge::judge_held;
use dumpable::passing::words_pass;
use heads::packed::head_words;
use heads::plain::direct_head;
use images::layout::HEAD_BYTES;
use records::settings::Settings;
use records::state::State;
use words::limits::{MOST_ROWS, MOST_SLOTS, ROW_FIXED};
use words::places;
use words::refusal::Refusal;

// The size of the greatest image.
const MOST_BYTES: usize = HEAD_BYTES + 8 * (MOST_ROWS * (ROW_FIXED + MOST_SLOTS));

// The words from i on; none where there are no more.
fn words_from(list: &[u64], i: usize) -> &[u64]
    ensures { result.now ≡ drop i list.now }
{
    let end = list.len();
    if end <= i {
        return &list[end..];
    }
    &list[i..]
}

// The n bytes of the words from byte p on, one by one; the first at `to`.
fn copy_bytes(part: &mut [u8], to: usize, list: &[u64], p: usize, n: usize)
    requires { (to + n ≤ length part.old) × (p + n < 18446744073709551616) }
    ensures { part.new ≡ laid part.old to (drop p (words_bytes list.now)) 0 n }
{
    for k in 0..n {
        part[to + k] = byte_at(list, p + k);
    }
}

// The same, as many as can be by words: one by one up to the next whole word of the list, which a page seldom has before it. The library's
// `copy_from_slice` takes bytes from bytes, and these are in words.
fn copy(part: &mut [u8], to: usize, list: &[u64], p: usize, n: usize)
    requires { (to + n ≤ length part.old) × (p + n < 4294967296) }
    ensures { part.new ≡ laid part.old to (drop p (words_bytes list.now)) 0 n }
{
    let i = p / 8 + (p % 8 + 7) / 8;
    let over = 8 * i - p;
    if n <= over {
        copy_bytes(part, to, list, p, n);
        return;
    }
    copy_bytes(part, to, list, p, over);
    lay(part, to + over, words_from(list, i), 0, n - over);
}

// Of n bytes from `at` on those of the header.
fn lay_head(part: &mut [u8], head: &[u64], at: usize, n: usize)
    requires { (n ≤ length part.old) × (at + n < 4294967296) }
    ensures { part.new ≡ head_laid part.old head.now at n }
{
    copy(part, 0, head, at, clip(HEAD_BYTES, at, n));
}

// Where a place of the image lies among the rows: 0 for one before them.
fn among_rows(at: usize) -> usize
    ensures { result ≡ at - 256 }
{
    at.saturating_sub(HEAD_BYTES)
}

// And those of the rows, behind them.
fn lay_rows(part: &mut [u8], rows: &[u64], at: usize, n: usize)
    requires { (n ≤ length part.old) × (at + n < 4294967296) }
    ensures { part.new ≡ rows_laid part.old rows.now at n }
{
    let share = clip(HEAD_BYTES, at, n);
    copy(part, share, rows, among_rows(at), n - share);
}

// How many bytes of an image there are from `at` on for a buffer of so many.
fn used_of(slots: usize, depth: usize, at: usize, most: usize) -> usize
    requires { (slots ≤ most_slots) × (depth ≤ most_rows) }
    ensures { (result ≡ min most (dump_bytes slots depth - at)) × (0 < result → at + result < 4294967296) }
{
    clip(HEAD_BYTES + 8 * body_words(slots, depth), at, most)
}

// The part, of a state that was judged.
fn write_part(s: Settings, t: State, rows: &[u64], at: usize, part: &mut [u8]) -> usize
    requires { PartFine s t rows.now }
    ensures { PartLaid (image_of s t rows.now) at part.old result part.new }
{
    let used = used_of(s.slots, s.depth, at, part.len());
    if used == 0 {
        return 0;
    }
    let counts = t.counts;
    let kept = held_window(rows, s.slots, s.depth, counts.rows_held);
    let head = head_words(s, t, rows::row_count(kept, s.slots));
    lay_head(part, &head, at, used);
    lay_rows(part, kept, at, used);
    used
}

// Of n bytes from `at` on those of the header of a state's words: a part of rows alone asks for none.
fn lay_direct_head(
    part: &mut [u8],
    state: &[u64],
    slots: u64,
    depth: u64,
    held: u64,
    at: usize,
    n: usize,
)
    requires { (state_words ≤ length state.now) × (n ≤ length part.old) × (at + n < 4294967296) }
    ensures { part.new ≡ head_laid part.old (head_words slots depth held (plain_words state.now)) at n }
{
    if HEAD_BYTES <= at {
        return;
    }
    let head = direct_head(state, slots, depth, held);
    lay_head(part, &head, at, n);
}

// The part, of words of which nothing is refused.
fn write_words_part(
    settings: &[u64],
    state: &[u64],
    rows: &[u64],
    at: usize,
    part: &mut [u8],
) -> usize
    requires { WordsFit settings.now state.now rows.now }
    ensures { PartLaid (image_of (settings_of settings.now) (state_of state.now) rows.now) at
        part.old result part.new }
{
    let slots = settings[places::SLOTS] as usize;
    let depth = settings[places::DEPTH] as usize;
    let held = state[places::ROWS_HELD] as usize;
    let used = used_of(slots, depth, at, part.len());
    if used == 0 {
        return 0;
    }
    let kept = held_window(rows, slots, depth, held);
    let count = rows::row_count(kept, slots);
    lay_direct_head(
        part,
        state,
        slots as u64,
        depth as u64,
        count as u64,
        at,
        used,
    );
    lay_rows(part, kept, at, used);
    used
}

// Bytes `at` on of the image over the first of the part, and how many they are, where the words pass; else nothing, and no. It is asked whether
// they pass with an area for the greatest image, as a part needs none.
pub fn part_words(
    settings: &[u64],
    state: &[u64],
    rows: &[u64],
    at: usize,
    part: &mut [u8],
    used: &mut u64,
) -> bool
    ensures { WordsParted settings.now state.now rows.now at part.old used.old
        result part.new used.new }
{
    if words_pass(settings, state, rows.len(), MOST_BYTES) {
        *used = write_words_part(settings, state, rows, at, part) as u64;
        return true;
    }
    false
}

// The same of records, by the lines of the refusals.
pub fn part(
    s: Settings,
    t: State,
    rows: &[u64],
    at: usize,
    part: &mut [u8],
) -> Result<usize, Refusal>
    ensures { PartDumped s t rows.now at part.old result part.new }
{
    judge_held(s, t, rows)?;
    Ok(write_part(s, t, rows, at, part))
}
