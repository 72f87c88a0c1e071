// The row of a bar, and the rows that a room holds.
ghost use Rattle.std.specs.Prelude.{◌≡◌, ◌+◌, ◌*◌, ◌/◌, ◌<◌, ◌≤◌, length, take};
ghost use Rattle.words.specs.Limits.{row_words, most_slots};
ghost use Rattle.engine.specs.Record.{row_word, row_of, held_rows};
ghost use Rattle.rows.specs.Laws.Ring.{RingFine};
ghost use Rattle.refusals.specs.declared.day.Span.TheVariants.{One};
ghost use Rattle.engine.specs.InPlace.{PlaceFor, row_placed};

use refusals::day::Span;
use rows::ring::Ring;

// Where a row goes: the word of its room, the words of rows that move up for it first (0 where none do), and the rows that the room holds with it.
#[derive(Clone, Copy)]
pub struct Place {
    pub at: usize,
    pub moved: usize,
    pub ring: Ring,
}

// The first n records of a list, each of so many words; all where there are fewer.
pub fn first_records(list: &[u64], n: usize, words: usize) -> &[u64]
    ensures { result.now ≡ take (n * words) list.now }
{
    let none: usize = 0;
    if words == 0 {
        return &list[..none];
    }
    if list.len() / words < n {
        return list;
    }
    let end = n * words;
    &list[..end]
}

// The rows that a room holds.
pub(crate) fn held_rows(rows: &[u64], slots: usize, held: usize) -> &[u64]
    requires { slots ≤ most_slots }
    ensures { result.now ≡ held_rows slots held rows.now }
{
    first_records(rows, held, words::limits::ROW_FIXED + slots)
}

// Word j of the row of a bar.
fn row_word(bar: &[u64], j: usize) -> u64
    requires { (j < row_words most_slots) × (j < length bar.now) × (row_words 0 ≤ length bar.now) }
    ensures { result ≡ row_word bar.now j }
{
    let word = bar[j];
    if j < words::limits::ROW_FIXED {
        return word;
    }
    let mask = bar[words::places::BAR_MASK];
    let slot = j - words::limits::ROW_FIXED;
    if (mask >> slot) % 2 == 1 {
        return word;
    }
    0
}

// Writes the row of a bar.
fn fill_row(row: &mut [u64], bar: &[u64], slots: usize)
    requires { (slots ≤ most_slots) × (length row.old ≡ row_words slots) × (row_words slots ≤ length bar.now) }
    ensures { row.new ≡ row_of slots bar.now }
{
    let width = words::limits::ROW_FIXED + slots;
    for j in 0..width {
        row[j] = row_word(bar, j);
    }
}

// Where the next row goes in a room that holds the rows `before`: behind them while there is a place. Then, in a call of one bar, the rows move up
// for it; in a call of many it goes over the oldest. Nothing is written yet: the bar may still be turned away.
pub(crate) fn place_for(span: Span, rows: &[u64], before: Ring, slots: usize) -> Place
    requires { (slots ≤ most_slots) × RingFine (length rows.now / row_words slots) before × (span ≡ One → before.start ≡ 0) }
    ensures { PlaceFor span (row_words slots) rows.now before result }
{
    let width = words::limits::ROW_FIXED + slots;
    let held = before.held;
    let start = before.start;
    let end = held * width;
    if width <= rows.len() - end {
        return Place {
            at: end,
            moved: 0,
            ring: Ring {
                held: held + 1,
                start,
            },
        };
    }
    match span {
        Span::One => Place {
            at: end - width,
            moved: end,
            ring: Ring { held, start: 0 },
        },
        Span::Many => {
            let at = start * width;
            if start < held - 1 {
                return Place {
                    at,
                    moved: 0,
                    ring: Ring {
                        held,
                        start: start + 1,
                    },
                };
            }
            Place {
                at,
                moved: 0,
                ring: Ring { held, start: 0 },
            }
        }
    }
}

// Writes the bar's row at its place, where it stays.
pub(crate) fn record_bar(rows: &mut [u64], place: Place, bar: &[u64], slots: usize)
    requires { (slots ≤ most_slots) × (row_words slots ≤ length bar.now) × (place.at + row_words slots ≤ length rows.old) }
    ensures { rows.new ≡ row_placed rows.old place (row_of slots bar.now) }
{
    let width = words::limits::ROW_FIXED + slots;
    words::moving::shift(rows, width, place.moved);
    let at = place.at;
    let to = at + width;
    fill_row(&mut rows[at..to], bar, slots);
}
