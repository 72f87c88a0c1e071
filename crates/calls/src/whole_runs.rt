// The calls of a run: the state before the first bar, one bar, the end.
use crate::rooms;
use crate::rooms::word;
use std::io;
use std::io::Write;
use words::limits::{POINT_WORDS, TRADE_WORDS};

// The words of a state that count its equity points and its trades.
const POINTS: usize = 2;

const CLOSED: usize = 3;

// The most records of which the place is worked out.
const MOST: u64 = 4_294_967_296;

// Point n of a list.
fn point(equity: &[u64], n: u64) -> &[u64] {
    let from = (n % MOST) as usize * POINT_WORDS;
    text::rooms::part(equity, from, from + POINT_WORDS)
}

// Trade n of a list.
fn trade(trades: &[u64], n: u64) -> &[u64] {
    let from = (n % MOST) as usize * TRADE_WORDS;
    text::rooms::part(trades, from, from + TRADE_WORDS)
}

// Writes an answer, and what follows it where the call did its work.
fn write_done(output: &mut impl Write, answer: u64, words: &[u64]) -> io::Result<()> {
    if answer == 0 {
        text::write_words(output, &[answer], b' ')?;
        text::write_words(output, words, b'\n')
    } else {
        text::write_words(output, &[answer], b'\n')
    }
}

// The same, and then the trade where the call closed one.
fn write_closed(
    output: &mut impl Write,
    answer: u64,
    words: &[u64],
    before: u64,
    after: u64,
    trades: &[u64],
) -> io::Result<()> {
    if answer == 0 && before < after {
        text::write_words(output, &[answer], b' ')?;
        text::write_words(output, words, b' ')?;
        text::write_words(output, trade(trades, before), b'\n')
    } else {
        write_done(output, answer, words)
    }
}

// The answer and the state.
pub(crate) fn fresh(
    output: &mut impl Write,
    sizes: &[u64],
    settings: &[u64],
    state: &mut [u64],
) -> io::Result<()> {
    let lent = rooms::lent(sizes, rooms::STATE, state.len());
    let answer = capi::state::ysh_fresh(
        rooms::words_of(sizes, rooms::SETTINGS, settings),
        &mut state[..lent],
    );
    write_done(output, answer, rooms::words_of(sizes, rooms::STATE, state))
}

// The words after the first are the bar. The answer, the equity point, and the trade where the bar closed one.
pub(crate) fn step(
    output: &mut impl Write,
    line: &[u64],
    sizes: &[u64],
    settings: &[u64],
    state: &mut [u64],
    rows: &mut [u64],
    equity: &mut [u64],
    trades: &mut [u64],
    lists: &[u8],
) -> io::Result<()> {
    let points = word(state, POINTS);
    let closed = word(state, CLOSED);
    let bar = text::rooms::part(line, 1, line.len());
    let s = rooms::lent(sizes, rooms::STATE, state.len());
    let r = rooms::lent(sizes, rooms::ROWS, rows.len());
    let e = rooms::lent(sizes, rooms::EQUITY, equity.len());
    let t = rooms::lent(sizes, rooms::TRADES, trades.len());
    let answer = capi::bars::ysh_step(
        rooms::words_of(sizes, rooms::SETTINGS, settings),
        &mut state[..s],
        bar,
        &mut rows[..r],
        &mut equity[..e],
        &mut trades[..t],
        rooms::list(sizes, 0, lists),
        rooms::list(sizes, 1, lists),
        rooms::list(sizes, 2, lists),
        rooms::list(sizes, 3, lists),
    );
    write_closed(
        output,
        answer,
        point(equity, points),
        closed,
        word(state, CLOSED),
        trades,
    )
}

// The words after the first are bars. The answer, how many were done, the trades so far, and the newest equity point where there is one.
pub(crate) fn steps(
    output: &mut impl Write,
    line: &[u64],
    sizes: &[u64],
    settings: &[u64],
    state: &mut [u64],
    rows: &mut [u64],
    equity: &mut [u64],
    trades: &mut [u64],
    lists: &[u8],
) -> io::Result<()> {
    let mut done: u64 = 0;
    let bars = text::rooms::part(line, 1, line.len());
    let s = rooms::lent(sizes, rooms::STATE, state.len());
    let r = rooms::lent(sizes, rooms::ROWS, rows.len());
    let e = rooms::lent(sizes, rooms::EQUITY, equity.len());
    let t = rooms::lent(sizes, rooms::TRADES, trades.len());
    let answer = capi::many::ysh_steps(
        rooms::words_of(sizes, rooms::SETTINGS, settings),
        &mut state[..s],
        bars,
        &mut rows[..r],
        &mut equity[..e],
        &mut trades[..t],
        rooms::list(sizes, 0, lists),
        rooms::list(sizes, 1, lists),
        rooms::list(sizes, 2, lists),
        rooms::list(sizes, 3, lists),
        &mut done,
    );
    let points = word(state, POINTS);
    if 0 < points {
        text::write_words(output, &[answer, done, word(state, CLOSED)], b' ')?;
        text::write_words(output, point(equity, points - 1), b'\n')
    } else {
        text::write_words(output, &[answer, done, word(state, CLOSED)], b'\n')
    }
}

// The answer, the metrics, and the trade where the end closed one.
pub(crate) fn finish(
    output: &mut impl Write,
    sizes: &[u64],
    settings: &[u64],
    state: &mut [u64],
    rows: &[u64],
    equity: &mut [u64],
    trades: &mut [u64],
    metrics: &mut [u64],
) -> io::Result<()> {
    let closed = word(state, CLOSED);
    let s = rooms::lent(sizes, rooms::STATE, state.len());
    let e = rooms::lent(sizes, rooms::EQUITY, equity.len());
    let t = rooms::lent(sizes, rooms::TRADES, trades.len());
    let m = rooms::lent(sizes, rooms::METRICS, metrics.len());
    let answer = capi::bars::ysh_finish(
        rooms::words_of(sizes, rooms::SETTINGS, settings),
        &mut state[..s],
        rooms::words_of(sizes, rooms::ROWS, rows),
        &mut equity[..e],
        &mut trades[..t],
        &mut metrics[..m],
    );
    let figures = rooms::words_of(sizes, rooms::METRICS, metrics);
    write_closed(output, answer, figures, closed, word(state, CLOSED), trades)
}

// Word 1 is the capital. The answer and the metrics.
pub(crate) fn metrics(
    output: &mut impl Write,
    line: &[u64],
    sizes: &[u64],
    equity: &[u64],
    trades: &[u64],
    room: &mut [u64],
) -> io::Result<()> {
    let lent = rooms::lent(sizes, rooms::METRICS, room.len());
    let answer = capi::figures::ysh_metrics(
        word(line, 1),
        rooms::words_of(sizes, rooms::EQUITY, equity),
        rooms::words_of(sizes, rooms::TRADES, trades),
        &mut room[..lent],
    );
    write_done(output, answer, rooms::words_of(sizes, rooms::METRICS, room))
}
