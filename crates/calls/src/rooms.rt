// What a caller holds between calls: rooms of words and of bytes. A call is lent the first part of a room, as much as the room's
// line said.
ghost use Rattle.std.specs.Prelude.{◌≤◌};

// Rooms by their numbers (docs/INTERFACE.md); the table is no room there.
pub(crate) const ROWS: usize = 0;

pub(crate) const EQUITY: usize = 1;

pub(crate) const TRADES: usize = 2;

pub(crate) const FIRST_LIST: u64 = 3;

pub(crate) const SETTINGS: usize = 7;

pub(crate) const STATE: usize = 8;

pub(crate) const METRICS: usize = 9;

pub(crate) const TOTALS: usize = 11;

pub(crate) const CLOSES: usize = 12;

pub(crate) const BLOCKS: usize = 13;

pub(crate) const AREA: usize = 14;

pub(crate) const DIFFERENCES: usize = 15;

pub(crate) const TABLE: usize = 31;

// The bytes of the largest list of steps. The four lists stand one after another.
pub(crate) const LIST: usize = 16384;

// Word i of a list, 0 past its end.
pub(crate) fn word(words: &[u64], i: usize) -> u64 {
    words::word_from(words, 0, i)
}

// How many words or bytes of room i are lent.
pub(crate) fn size(sizes: &[u64], i: usize) -> usize {
    word(sizes, i) as usize
}

// Says how much of a room is lent from now on.
pub(crate) fn set_size(sizes: &mut [u64], i: u64, n: u64) {
    let at = i as usize;
    if at < sizes.len() {
        sizes[at] = n;
    }
}

// How much of a room of `most` is lent.
pub(crate) fn lent(sizes: &[u64], i: usize, most: usize) -> usize
    ensures { result ≤ most }
{
    size(sizes, i).min(most)
}

// The first part of room i.
pub(crate) fn words_of<'a>(sizes: &[u64], i: usize, room: &'a [u64]) -> &'a [u64] {
    text::rooms::part(room, 0, size(sizes, i))
}

// The room of a tree's list.
pub(crate) fn list_room(tree: u64) -> u64 {
    FIRST_LIST + tree % 4
}

// Where the list of a room begins.
pub(crate) fn list_at(room: u64) -> usize
    ensures { result ≤ 49152 }
{
    match room {
        3 => 0,
        4 => LIST,
        5 => 2 * LIST,
        _ => 3 * LIST,
    }
}

// The list of a tree, as it is lent.
pub(crate) fn list<'a>(sizes: &[u64], tree: u64, lists: &'a [u8]) -> &'a [u8] {
    let room = list_room(tree);
    let from = list_at(room);
    let n = lent(sizes, room as usize, LIST);
    text::rooms::part(lists, from, from + n)
}

// Fills the list of a room with the bytes of a line.
pub(crate) fn fill_list(lists: &mut [u8], line: &[u64]) {
    let from = list_at(word(line, 0));
    let to = from + LIST;
    if lists.len() < to {
        return;
    }
    text::rooms::fill_bytes(&mut lists[from..to], line);
}
