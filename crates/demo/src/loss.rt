// The same day on a box that loses its supply: its state and window are dumped, the box is started again, restores them into cleared rooms
// and goes on with empty books. Its trades are those of the unbroken day.
use crate::bars::BAR_WORDS;
use crate::report;
use records::state::State;
use std::io;
use std::io::Write;

// How many minutes are seen when the supply is lost: a position is held, and the order to leave it works.
const LOST: usize = 719;

// The order of writing: 216 bytes of rows, the header behind the mark, the 3 bytes of the mark.
const ROWS_END: usize = 216;

const MARK_BEGIN: usize = 469;

const END: usize = 472;

// One stretch of the dump.
fn write_stretch(
    output: &mut impl Write,
    state: State,
    rows: &[u64],
    area: &mut [u8],
    from: usize,
    upto: usize,
) -> io::Result<()> {
    let _ = dump::dump(crate::settings(), state, rows, area, from, upto);
    report::say_count(output, " ", upto as u64, "")
}

// The dump, in stretches, as a driver would program pages; before the mark's last byte it is no image.
fn write_image(
    output: &mut impl Write,
    state: State,
    rows: &[u64],
    area: &mut [u8],
) -> io::Result<()> {
    report::say(output, "dump            bytes written:")?;
    write_stretch(output, state, rows, area, 0, ROWS_END)?;
    write_stretch(output, state, rows, area, ROWS_END, MARK_BEGIN)?;
    write_stretch(output, state, rows, area, MARK_BEGIN, END - 1)?;
    report::say(output, "\n")?;
    say_restored(output, area)?;
    report::say(output, "dump            bytes written:")?;
    write_stretch(output, state, rows, area, END - 1, END)?;
    report::say(output, "\n")?;
    say_restored(output, area)
}

// What a restore says to the area as it is.
fn say_restored(output: &mut impl Write, area: &[u8]) -> io::Result<()> {
    let mut rows = [0u64; 27];
    match images::restore(crate::settings(), area, &mut rows) {
        Err(refusal) => crate::say_refusal(output, refusal.number(), refusal.place()),
        Ok(state) => say_state(output, state),
    }
}

fn say_state(output: &mut impl Write, state: State) -> io::Result<()> {
    let counts = state.counts;
    let position = state.position;
    let portfolio = position.portfolio;
    report::say_count(
        output,
        "restored        ",
        counts.bars_seen,
        " minutes seen, ",
    )?;
    report::say_count(output, "", counts.rows_held as u64, " rows, ")?;
    report::say_float(output, "holding ", portfolio.qty, "\n")
}

// Whether n words of the whole day, from a place on, are the first n of a part of it.
fn same_words(whole: &[u64], base: usize, part: &[u64], n: usize) -> bool {
    (0..n).all(|i| words::word_from(whole, base, i) == words::word(part, i))
}

fn say_same(output: &mut impl Write, same: bool) -> io::Result<()> {
    if same {
        report::say(output, ", the same to the last bit\n")
    } else {
        report::say(output, ", and NOT THE SAME\n")
    }
}

// The words of so many trades.
fn trade_words(n: usize) -> usize {
    n % 1000 * words::limits::TRADE_WORDS
}

// The trades before the loss and after it, held against those of the unbroken day.
fn say_trades(
    output: &mut impl Write,
    whole: &[u64],
    count: usize,
    before: &[u64],
    m: usize,
    after: &[u64],
    n: usize,
) -> io::Result<()> {
    report::say_count(
        output,
        "trades          ",
        m as u64,
        " before the loss and ",
    )?;
    report::say_count(output, "", n as u64, " after it; the unbroken day has ")?;
    report::say_count(output, "", count as u64, "")?;
    let first = same_words(whole, 0, before, trade_words(m));
    let second = same_words(whole, trade_words(m), after, trade_words(n));
    let all = m % 1000 + n % 1000 == count;
    say_same(output, first & second & all)
}

// The end of the run: its trades.
fn finished(state: State, rows: &[u64], equity: &mut [u64], trades: &mut [u64]) -> usize {
    match ending::finish(crate::settings(), state, rows, equity, trades) {
        Err(_) => 0,
        Ok(ended) => ended.state.counts.trades,
    }
}

// The bars before the loss.
fn bars_before(bars: &[u64]) -> &[u64] {
    &bars[..bars.len().min(LOST * BAR_WORDS)]
}

// The bars from the loss on.
fn bars_after(bars: &[u64]) -> &[u64] {
    &bars[bars.len().min(LOST * BAR_WORDS)..]
}

// The rest of the day on a box that knows nothing but the image; how many trades it made.
fn rest_of_day<'a>(
    output: &mut impl Write,
    area: &[u8],
    bars: &[u64],
    entry: &[u8],
    exit: &'a [u8],
    none: &'a [u8],
    equity: &mut [u64],
    trades: &mut [u64],
) -> io::Result<usize> {
    let mut rows = [0u64; 27];
    match images::restore(crate::settings(), area, &mut rows) {
        Err(_) => Ok(0),
        Ok(state) => {
            let evening = crate::run_bars(
                output, state, bars, entry, exit, none, &mut rows, equity, trades,
            )?;
            Ok(finished(evening, &rows, equity, trades))
        }
    }
}

// The bars up to the loss, and the dump; how many trades were made.
fn until_loss<'a>(
    output: &mut impl Write,
    area: &mut [u8],
    bars: &[u64],
    entry: &[u8],
    exit: &'a [u8],
    none: &'a [u8],
    equity: &mut [u64],
    trades: &mut [u64],
) -> io::Result<usize> {
    let mut rows = [0u64; 27];
    let morning = records::state::fresh(crate::settings());
    let state = crate::run_bars(
        output, morning, bars, entry, exit, none, &mut rows, equity, trades,
    )?;
    report::say_count(output, "supply lost     after ", LOST as u64, " minutes\n")?;
    write_image(output, state, &rows, area)?;
    let counts = state.counts;
    Ok(counts.trades)
}

// The day in two, held against the unbroken one and its trades.
pub(crate) fn broken_day<'a>(
    output: &mut impl Write,
    bars: &[u64],
    entry: &[u8],
    exit: &'a [u8],
    none: &'a [u8],
    whole: &[u64],
    count: usize,
) -> io::Result<()> {
    let mut area = [0u8; 472];
    let mut equity = [0u64; 2880];
    let mut before = [0u64; 10000];
    let mut after = [0u64; 10000];
    let m = until_loss(
        output,
        &mut area,
        bars_before(bars),
        entry,
        exit,
        none,
        &mut equity,
        &mut before,
    )?;
    let n = rest_of_day(
        output,
        &area,
        bars_after(bars),
        entry,
        exit,
        none,
        &mut equity,
        &mut after,
    )?;
    say_trades(output, whole, count, &before, m, &after, n)
}
