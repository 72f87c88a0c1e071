// Calls over a table: its check, the depth of its window, its silent tests, its trees as steps.
use crate::rooms;
use crate::rooms::word;
use std::io;
use std::io::Write;

// What stands for an answer where a line asks for a larger room than there is.
const NO_ROOM: u64 = u64::MAX;

// The table that is lent.
pub(crate) fn table<'a>(sizes: &[u64], room: &'a [u8]) -> &'a [u8] {
    text::rooms::part(room, 0, rooms::size(sizes, rooms::TABLE))
}

// The answer, the nodes and the rows.
pub(crate) fn check(output: &mut impl Write, sizes: &[u64], room: &[u8]) -> io::Result<()> {
    let mut nodes = 0u64;
    let mut rows = 0u64;
    let answer = capi::tables::ysh_check(table(sizes, room), &mut nodes, &mut rows);
    text::write_words(output, &[answer, nodes, rows], b'\n')
}

// Word 1 is the lookback. The answer, the rows and the bytes.
pub(crate) fn depth(
    output: &mut impl Write,
    line: &[u64],
    sizes: &[u64],
    room: &[u8],
) -> io::Result<()> {
    let mut rows = 0u64;
    let mut bytes = 0u64;
    let answer = capi::tables::ysh_depth(table(sizes, room), word(line, 1), &mut rows, &mut bytes);
    text::write_words(output, &[answer, rows, bytes], b'\n')
}

// Lists the tests that fall silent over so many rows. The answer, the words that were lent and the count.
fn list_silent(
    output: &mut impl Write,
    table: &[u8],
    rows: u64,
    list: &mut [u64],
) -> io::Result<()> {
    let mut count = 0u64;
    let answer = capi::tables::ysh_silent(table, rows, list, &mut count);
    text::write_words(output, &[answer], b' ')?;
    text::write_words(output, list, b' ')?;
    text::write_words(output, &[count], b'\n')
}

// Word 1 is the rows, word 2 how many words are lent, each with every bit set.
pub(crate) fn silent(
    output: &mut impl Write,
    line: &[u64],
    sizes: &[u64],
    room: &[u8],
) -> io::Result<()> {
    let mut list = [u64::MAX; words::limits::MOST_NODES];
    let size = word(line, 2) as usize;
    if list.len() < size {
        return text::write_words(output, &[NO_ROOM], b'\n');
    }
    list_silent(output, table(sizes, room), word(line, 1), &mut list[..size])
}

// Translates a tree into so many bytes of the room of its list.
fn translated(table: &[u8], tree: u64, lists: &mut [u8], size: u64, used: &mut u64) -> u64 {
    let from = rooms::list_at(rooms::list_room(tree));
    let n = size as usize;
    if rooms::LIST < n {
        return NO_ROOM;
    }
    let to = from + n;
    if lists.len() < to {
        return NO_ROOM;
    }
    capi::tables::ysh_translate(table, tree, &mut lists[from..to], used)
}

// Writes the bytes, a space before each eight of them, and a newline.
pub(crate) fn write_bytes(output: &mut impl Write, bytes: &[u8]) -> io::Result<()> {
    for (i, byte) in bytes.iter().enumerate() {
        if i % 8 == 0 {
            output.write_all(b" ")?;
        }
        write!(output, "{byte:02x}")?;
    }
    output.write_all(b"\n")
}

// Word 1 is the tree, word 2 how many bytes are lent. The answer, the bytes used and these bytes; the list is lent so from now on.
pub(crate) fn translate(
    output: &mut impl Write,
    line: &[u64],
    sizes: &mut [u64],
    room: &[u8],
    lists: &mut [u8],
) -> io::Result<()> {
    let tree = word(line, 1);
    let mut used = 0u64;
    let answer = translated(table(sizes, room), tree, lists, word(line, 2), &mut used);
    rooms::set_size(sizes, rooms::list_room(tree), used);
    text::write_words(output, &[answer], b' ')?;
    write!(output, "{used:016x}")?;
    write_bytes(output, rooms::list(sizes, tree, lists))
}
