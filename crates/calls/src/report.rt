// Calls of totals: a list of trades added to them, and other totals joined to them.
use crate::rooms;
use std::io;
use std::io::Write;

// Writes an answer and the totals, as they are then whatever the answer.
fn write_totals(
    output: &mut impl Write,
    answer: u64,
    sizes: &[u64],
    totals: &[u64],
) -> io::Result<()> {
    text::write_words(output, &[answer], b' ')?;
    text::write_words(output, rooms::words_of(sizes, rooms::TOTALS, totals), b'\n')
}

// The answer and the totals.
pub(crate) fn totals(
    output: &mut impl Write,
    sizes: &[u64],
    totals: &mut [u64],
    trades: &[u64],
) -> io::Result<()> {
    let lent = rooms::lent(sizes, rooms::TOTALS, totals.len());
    let answer = capi::report::ysh_totals(
        &mut totals[..lent],
        rooms::words_of(sizes, rooms::TRADES, trades),
    );
    write_totals(output, answer, sizes, totals)
}

// The words after the first are the other totals. The answer and the totals.
pub(crate) fn join(
    output: &mut impl Write,
    line: &[u64],
    sizes: &[u64],
    totals: &mut [u64],
) -> io::Result<()> {
    let other = text::rooms::part(line, 1, line.len());
    let lent = rooms::lent(sizes, rooms::TOTALS, totals.len());
    let answer = capi::report::ysh_totals_join(&mut totals[..lent], other);
    write_totals(output, answer, sizes, totals)
}
