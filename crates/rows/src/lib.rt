#![tactic(auto)]
// Rows: what is kept of each bar, in words that the caller lends. A row is 7 + K words: time, open, high, low, close,
// volume, the presence mask, K slots.
pub mod ring;

ghost use Rattle.std.specs.Prelude.{◌≡◌};
ghost use Rattle.rows.specs.History.{history_of, whole_rows, last_rows};

use words::limits::ROW_FIXED;

// How many whole rows there are. A row of more slots than there are words is none, so the width never wraps.
pub fn row_count(rows: &[u64], slots: usize) -> usize
    ensures { result ≡ (history_of slots rows.now).rows }
{
    let n = rows.len();
    if n < slots {
        return 0;
    }
    n / (ROW_FIXED + slots)
}

// Whether the words are whole rows, with no part of one at the end.
pub fn are_whole(rows: &[u64], slots: usize) -> bool
    ensures { result ≡ whole_rows slots rows.now }
{
    let n = rows.len();
    if n < slots {
        return n == 0;
    }
    n % (ROW_FIXED + slots) == 0
}

// The window: the end part of the rows, the last `depth` of them, or all where there are fewer.
pub fn window(rows: &[u64], slots: usize, depth: usize) -> &[u64]
    ensures { result.now ≡ last_rows slots depth rows.now }
{
    let held = row_count(rows, slots);
    if held <= depth {
        return rows;
    }
    let first = (held - depth) * (ROW_FIXED + slots);
    &rows[first..]
}
