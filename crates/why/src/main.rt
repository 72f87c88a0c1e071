#![tactic(auto)]
// Why a rule said yes or no, in words. Reads the text of stored cases, words of 16 hexadecimal digits: a line that begins 1f lends
// a table (how many bytes, then the bytes, eight to a word), one that begins 0 lends rows (how many words, then the words), and one that
// begins 30 asks: tree, quantity, whether there is an entry bar, the entry bar, bars seen.
mod lines;
mod names;
mod say;

use std::io;
use std::io::{BufReader, BufWriter, Read, Write};

// The words of the longest line, the bytes of the largest table and a bit more, and the words of the rows.
const LINE: usize = 8192;

const TABLE: usize = 8192;

const LINES: usize = 256;

// Where the sizes of what was lent stand: the table's bytes, the rows' words.
const TABLE_SIZE: usize = 0;

const ROWS_SIZE: usize = 1;

fn set_size(sizes: &mut [u64], at: usize, line: &[u64]) {
    if at < sizes.len() {
        sizes[at] = words::word(line, 1);
    }
}

// Asks why, and says the answer.
fn ask(output: &mut impl Write, table: &[u8], rows: &[u64], line: &[u64]) -> io::Result<()> {
    let mut list = [0u64; LINES];
    let mut count = 0u64;
    let tree = words::word(line, 1);
    let answer = capi::why::ysh_why(
        table,
        tree,
        rows,
        words::word(line, 2),
        words::word(line, 3),
        words::word(line, 4),
        words::word(line, 5),
        &mut list,
        &mut count,
    );
    if answer == 0 {
        lines::say_chain(output, table, tree, &list, count as usize)
    } else {
        lines::say_refused(output, answer)
    }
}

// Takes a line: lends, or asks.
fn take(
    output: &mut impl Write,
    line: &[u64],
    sizes: &mut [u64],
    table: &mut [u8],
    rows: &mut [u64],
) -> io::Result<()> {
    match words::word(line, 0) {
        0 => {
            set_size(sizes, ROWS_SIZE, line);
            text::rooms::fill(rows, line);
            Ok(())
        }
        0x1f => {
            set_size(sizes, TABLE_SIZE, line);
            text::rooms::fill_bytes(table, line);
            Ok(())
        }
        _ => ask(
            output,
            text::rooms::part(table, 0, words::word(sizes, TABLE_SIZE) as usize),
            text::rooms::part(rows, 0, words::word(sizes, ROWS_SIZE) as usize),
            line,
        ),
    }
}

// Takes the next line, and says whether there was one: at the end of the input there is no word, and rows of none are lent.
fn take_next(
    input: &mut impl Read,
    output: &mut impl Write,
    room: &mut [u64],
    sizes: &mut [u64],
    table: &mut [u8],
    rows: &mut [u64],
) -> io::Result<bool> {
    let n = text::read_line(input, room)?;
    let line = text::rooms::part(room, 0, n);
    take(output, line, sizes, table, rows)?;
    Ok(n > 0)
}

// A proved loop has to end, and nothing says that the input does, so the loop counts its turns up to a number that no run reaches.
fn main(rt: HostRuntime) -> io::Result<()> {
    let mut line = [0u64; LINE];
    let mut sizes = [0u64; 2];
    let mut table = [0u8; TABLE];
    let mut rows = [0u64; LINE];
    let mut input = BufReader::new(rt.alloc(), rt.reader())?;
    let mut output = BufWriter::new(rt.alloc(), io::writer(&rt))?;
    for _ in 0..u64::MAX {
        if !take_next(
            &mut input,
            &mut output,
            &mut line,
            &mut sizes,
            &mut table,
            &mut rows,
        )? {
            break;
        }
    }
    output.flush()
}
