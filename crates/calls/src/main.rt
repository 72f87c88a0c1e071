#![tactic(auto)]
// A line a call of the C interface (docs/INTERFACE.md): what it is handed, and what it answers. A line is words of 16 hexadecimal
// digits. Where the first is below 20 (hex) it is the number of a room, 1f that of the table, and the line says how many words or bytes
// of the room are lent and what stands there; bytes are eight to a word. Else it is a call over the rooms as they are, and it is
// answered with a line. compare/README.md has the list of calls; compare/vectors/make makes the stored lines.
mod compare;
mod four_rules;
mod power;
mod report;
mod rooms;
mod stretch;
mod tables;
mod whole_runs;

use rooms::word;
use std::io;
use std::io::{BufReader, BufWriter, Read, Write};

// The words of the longest line.
const LINE: usize = 8192;

// The table, the four lists and the dump's area in bytes; the other rooms in words.
const TABLE: usize = 8192;

const LISTS: usize = 4 * rooms::LIST;

const AREA: usize = 8192;

const ROWS: usize = 32768;

const RECORDS: usize = 8192;

const FEW: usize = 64;

// The room of the metrics, which holds the lines of a comparison too.
const LINES: usize = 256;

// Fills the room that the line names. Closes, blocks, totals and differences stand in the rooms of equity points, trades and metrics: no call is
// lent both of a pair.
fn lend(
    line: &[u64],
    sizes: &mut [u64],
    table: &mut [u8],
    lists: &mut [u8],
    area: &mut [u8],
    settings: &mut [u64],
    state: &mut [u64],
    rows: &mut [u64],
    equity: &mut [u64],
    trades: &mut [u64],
    metrics: &mut [u64],
) {
    rooms::set_size(sizes, word(line, 0), word(line, 1));
    match word(line, 0) {
        0 => text::rooms::fill(rows, line),
        1 => text::rooms::fill(equity, line),
        2 => text::rooms::fill(trades, line),
        7 => text::rooms::fill(settings, line),
        8 => text::rooms::fill(state, line),
        9 | 0xb | 0xf => text::rooms::fill(metrics, line),
        0xc => text::rooms::fill(equity, line),
        0xd => text::rooms::fill(trades, line),
        0xe => text::rooms::fill_bytes(area, line),
        0x1f => text::rooms::fill_bytes(table, line),
        _ => rooms::fill_list(lists, line),
    }
}

// Makes a call that a table or rows are lent to.
fn call_rules(
    output: &mut impl Write,
    line: &[u64],
    sizes: &mut [u64],
    table: &[u8],
    lists: &mut [u8],
    rows: &[u64],
) -> io::Result<()> {
    match word(line, 0) {
        0x20 => tables::check(output, sizes, table),
        0x21 => tables::depth(output, line, sizes, table),
        0x22 => tables::translate(output, line, sizes, table, lists),
        0x2a => tables::silent(output, line, sizes, table),
        0x23 => four_rules::rule(
            output,
            line,
            tables::table(sizes, table),
            rooms::words_of(sizes, rooms::ROWS, rows),
        ),
        _ => four_rules::run(
            output,
            line,
            sizes,
            rooms::words_of(sizes, rooms::ROWS, rows),
            lists,
        ),
    }
}

// Makes a call of totals, over closes or over two runs; what it is lent stands in the rooms that `lend` says.
fn call_report(
    output: &mut impl Write,
    line: &[u64],
    sizes: &[u64],
    rows: &[u64],
    equity: &mut [u64],
    trades: &mut [u64],
    metrics: &mut [u64],
) -> io::Result<()> {
    match word(line, 0) {
        0x30 => report::totals(output, sizes, metrics, trades),
        0x31 => report::join(output, line, sizes, metrics),
        0x32 => stretch::append(output, line, sizes, equity, trades),
        0x33 => stretch::ask(output, line, sizes, equity, trades),
        _ => compare::compare(output, line, sizes, rows, equity, trades, metrics),
    }
}

// Makes a call of a run, of the metrics or of the root.
fn call_run(
    output: &mut impl Write,
    line: &[u64],
    sizes: &[u64],
    lists: &[u8],
    settings: &[u64],
    state: &mut [u64],
    rows: &mut [u64],
    equity: &mut [u64],
    trades: &mut [u64],
    metrics: &mut [u64],
) -> io::Result<()> {
    match word(line, 0) {
        0x25 => whole_runs::fresh(output, sizes, settings, state),
        0x26 => whole_runs::step(
            output, line, sizes, settings, state, rows, equity, trades, lists,
        ),
        0x27 => whole_runs::finish(
            output, sizes, settings, state, rows, equity, trades, metrics,
        ),
        0x2b => whole_runs::steps(
            output, line, sizes, settings, state, rows, equity, trades, lists,
        ),
        0x28 => whole_runs::metrics(output, line, sizes, equity, trades, metrics),
        _ => text::write_words(output, &[capi::figures::ysh_root(word(line, 1))], b'\n'),
    }
}

// Makes a call for a loss of power.
fn call_power(
    output: &mut impl Write,
    line: &[u64],
    sizes: &[u64],
    settings: &[u64],
    state: &mut [u64],
    rows: &mut [u64],
    area: &mut [u8],
) -> io::Result<()> {
    match word(line, 0) {
        0x2c => power::dump_bytes(output, line),
        0x2d => power::dump(output, line, sizes, settings, state, rows, area),
        0x2f => power::part(output, line, sizes, settings, state, rows, area),
        _ => power::restore(output, sizes, settings, state, rows, area),
    }
}

// Takes a line: a room is lent, or a call made.
fn take(
    output: &mut impl Write,
    line: &[u64],
    sizes: &mut [u64],
    table: &mut [u8],
    lists: &mut [u8],
    area: &mut [u8],
    settings: &mut [u64],
    state: &mut [u64],
    rows: &mut [u64],
    equity: &mut [u64],
    trades: &mut [u64],
    metrics: &mut [u64],
) -> io::Result<()> {
    match word(line, 0) {
        0..=0x1f => {
            lend(
                line, sizes, table, lists, area, settings, state, rows, equity, trades, metrics,
            );
            Ok(())
        }
        0x20..=0x24 | 0x2a => call_rules(output, line, sizes, table, lists, rows),
        0x2c..=0x2f => call_power(output, line, sizes, settings, state, rows, area),
        0x30..=0x34 => call_report(output, line, sizes, rows, equity, trades, metrics),
        _ => call_run(
            output, line, sizes, lists, settings, state, rows, equity, trades, metrics,
        ),
    }
}

// Takes the next line, and says whether there was one: at the end of the input there is no word, and a room of none is lent.
fn take_next(
    input: &mut impl Read,
    output: &mut impl Write,
    room: &mut [u64],
    sizes: &mut [u64],
    table: &mut [u8],
    lists: &mut [u8],
    area: &mut [u8],
    settings: &mut [u64],
    state: &mut [u64],
    rows: &mut [u64],
    equity: &mut [u64],
    trades: &mut [u64],
    metrics: &mut [u64],
) -> io::Result<bool> {
    let n = text::read_line(input, room)?;
    let line = text::rooms::part(room, 0, n);
    take(
        output, line, sizes, table, lists, area, settings, state, rows, equity, trades, metrics,
    )?;
    Ok(n > 0)
}

// A proved loop has to end, and nothing says that the input does, so the loop counts its turns up to a number that
// no run reaches.
fn main(rt: HostRuntime) -> io::Result<()> {
    let mut line = [0u64; LINE];
    let mut sizes = [0u64; FEW];
    let mut table = [0u8; TABLE];
    let mut lists = [0u8; LISTS];
    let mut area = [0u8; AREA];
    let mut settings = [0u64; FEW];
    let mut state = [0u64; FEW];
    let mut rows = [0u64; ROWS];
    let mut equity = [0u64; RECORDS];
    let mut trades = [0u64; RECORDS];
    let mut metrics = [0u64; LINES];
    let mut input = BufReader::new(rt.alloc(), rt.reader())?;
    let mut output = BufWriter::new(rt.alloc(), io::writer(&rt))?;
    for _ in 0..u64::MAX {
        let more = take_next(
            &mut input,
            &mut output,
            &mut line,
            &mut sizes,
            &mut table,
            &mut lists,
            &mut area,
            &mut settings,
            &mut state,
            &mut rows,
            &mut equity,
            &mut trades,
            &mut metrics,
        )?;
        if !more {
            break;
        }
    }
    output.flush()
}
