// A call over two runs: what differs between them, as lines.
use crate::rooms;
use crate::rooms::word;
use std::io;
use std::io::Write;

// Word 1 is what the count holds before, the words after it are the other run's trades; its equity stands in the room of rows. The answer, the
// lines and the count, as they are then whatever the answer.
pub(crate) fn compare(
    output: &mut impl Write,
    line: &[u64],
    sizes: &[u64],
    other_equity: &[u64],
    equity: &[u64],
    trades: &[u64],
    lines: &mut [u64],
) -> io::Result<()> {
    let mut count = word(line, 1);
    let other_trades = text::rooms::part(line, 2, line.len());
    let lent = rooms::lent(sizes, rooms::DIFFERENCES, lines.len());
    let answer = capi::compare::ysh_compare(
        rooms::words_of(sizes, rooms::EQUITY, equity),
        rooms::words_of(sizes, rooms::TRADES, trades),
        rooms::words_of(sizes, rooms::ROWS, other_equity),
        other_trades,
        &mut lines[..lent],
        &mut count,
    );
    text::write_words(output, &[answer], b' ')?;
    text::write_words(
        output,
        rooms::words_of(sizes, rooms::DIFFERENCES, lines),
        b' ',
    )?;
    text::write_words(output, &[count], b'\n')
}
