// Calls over closes: one close more, and the high and the low of a stretch.
use crate::rooms;
use crate::rooms::word;
use std::io;
use std::io::Write;

// Word 1 is the bars held, word 2 the close. The answer, the bars held, the closes and the blocks, as they are then whatever the answer.
pub(crate) fn append(
    output: &mut impl Write,
    line: &[u64],
    sizes: &[u64],
    closes: &mut [u64],
    blocks: &mut [u64],
) -> io::Result<()> {
    let mut held = word(line, 1);
    let c = rooms::lent(sizes, rooms::CLOSES, closes.len());
    let b = rooms::lent(sizes, rooms::BLOCKS, blocks.len());
    let answer = capi::stretch::ysh_append(
        &mut held,
        word(line, 2),
        &mut closes[..c],
        &mut blocks[..b],
    );
    text::write_words(output, &[answer, held], b' ')?;
    text::write_words(output, rooms::words_of(sizes, rooms::CLOSES, closes), b' ')?;
    text::write_words(output, rooms::words_of(sizes, rooms::BLOCKS, blocks), b'\n')
}

// Words 1 to 3 are the bars held, the first bar and the last, word 4 what each of the four words holds before. The answer, the high with its
// bar and the low with its bar.
pub(crate) fn ask(
    output: &mut impl Write,
    line: &[u64],
    sizes: &[u64],
    closes: &[u64],
    blocks: &[u64],
) -> io::Result<()> {
    let before = word(line, 4);
    let mut high = before;
    let mut high_bar = before;
    let mut low = before;
    let mut low_bar = before;
    let answer = capi::stretch::ysh_stretch(
        word(line, 1),
        word(line, 2),
        word(line, 3),
        rooms::words_of(sizes, rooms::CLOSES, closes),
        rooms::words_of(sizes, rooms::BLOCKS, blocks),
        &mut high,
        &mut high_bar,
        &mut low,
        &mut low_bar,
    );
    text::write_words(output, &[answer, high, high_bar, low, low_bar], b'\n')
}
