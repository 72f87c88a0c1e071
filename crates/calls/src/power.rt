// Calls for a loss of power: the size of a dump, the dump into the area, a part of it over the area, the restore from it.
use crate::rooms;
use crate::rooms::word;
use crate::tables::write_bytes;
use std::io;
use std::io::Write;

// Words 1 and 2 are K and D. The size.
pub(crate) fn dump_bytes(output: &mut impl Write, line: &[u64]) -> io::Result<()> {
    text::write_words(
        output,
        &[capi::power::ysh_dump_bytes(word(line, 1), word(line, 2))],
        b'\n',
    )
}

// Words 1 and 2 are from and upto. The answer and the area, as it is then whatever the answer.
pub(crate) fn dump(
    output: &mut impl Write,
    line: &[u64],
    sizes: &[u64],
    settings: &[u64],
    state: &[u64],
    rows: &[u64],
    area: &mut [u8],
) -> io::Result<()> {
    let lent = rooms::lent(sizes, rooms::AREA, area.len());
    let answer = capi::power::ysh_dump(
        rooms::words_of(sizes, rooms::SETTINGS, settings),
        rooms::words_of(sizes, rooms::STATE, state),
        rooms::words_of(sizes, rooms::ROWS, rows),
        &mut area[..lent],
        word(line, 1),
        word(line, 2),
    );
    write!(output, "{answer:016x}")?;
    write_bytes(output, &area[..lent])
}

// Word 1 is the place of the first byte, word 2 what the count holds before. The answer, the count and the area, which is the part.
pub(crate) fn part(
    output: &mut impl Write,
    line: &[u64],
    sizes: &[u64],
    settings: &[u64],
    state: &[u64],
    rows: &[u64],
    area: &mut [u8],
) -> io::Result<()> {
    let mut used = word(line, 2);
    let lent = rooms::lent(sizes, rooms::AREA, area.len());
    let answer = capi::part::ysh_dump_part(
        rooms::words_of(sizes, rooms::SETTINGS, settings),
        rooms::words_of(sizes, rooms::STATE, state),
        rooms::words_of(sizes, rooms::ROWS, rows),
        word(line, 1),
        &mut area[..lent],
        &mut used,
    );
    text::write_words(output, &[answer], b' ')?;
    write!(output, "{used:016x}")?;
    write_bytes(output, &area[..lent])
}

// The answer, the state and the rows, as they are then whatever the answer.
pub(crate) fn restore(
    output: &mut impl Write,
    sizes: &[u64],
    settings: &[u64],
    state: &mut [u64],
    rows: &mut [u64],
    area: &[u8],
) -> io::Result<()> {
    let s = rooms::lent(sizes, rooms::STATE, state.len());
    let r = rooms::lent(sizes, rooms::ROWS, rows.len());
    let answer = capi::power::ysh_restore(
        rooms::words_of(sizes, rooms::SETTINGS, settings),
        &mut state[..s],
        &area[..rooms::lent(sizes, rooms::AREA, area.len())],
        &mut rows[..r],
    );
    text::write_words(output, &[answer], b' ')?;
    text::write_words(output, rooms::words_of(sizes, rooms::STATE, state), b' ')?;
    text::write_words(output, rooms::words_of(sizes, rooms::ROWS, rows), b'\n')
}
