#![tactic(auto)]
// Answers cases of the functions of an account that the C interface has no call for, a line a case (compare/README.md, "leaf"). A
// line is words of 16 hexadecimal digits, the first a tag; so is its answer. compare/vectors/make makes the stored lines.
mod answers;
mod cases;
mod fields;

ghost use Rattle.std.specs.Prelude.{◌≤◌};

use execution::volatility;
use portfolio::{Closed, Portfolio};
use std::io;
use std::io::{BufReader, BufWriter, Read, Write};
use text::write_words;

// The words of the longest line: a lookback of 4,095 has one close more.
const LINE: usize = 8192;

// As many rows, each of seven words: no slots.
const ROW_WORDS: usize = 7 * 4096;

// Where the number of closes stands, with the closes after it; 0 where a case has none.
fn closes_at(case: &[u64]) -> usize
    ensures { result ≤ 38 }
{
    match cases::word(case, 0, 0) {
        2 => 2,
        4 => 38,
        _ => 0,
    }
}

// How many closes a case has, and no more than there are rows for.
fn closes(case: &[u64], most: usize) -> usize
    ensures { result ≤ most }
{
    let at = closes_at(case);
    if at == 0 {
        return 0;
    }
    most.min(cases::word(case, at, 0) as usize)
}

// Puts each close of a case into its row, and says how many words the rows have.
fn fill_rows(case: &[u64], rows: &mut [u64]) -> usize {
    let first = closes_at(case) + 1;
    let n = closes(case, rows.len() / words::limits::ROW_FIXED);
    for i in 0..n {
        rows[words::limits::ROW_FIXED * i + words::places::BAR_CLOSE] = cases::word(case, first, i);
    }
    words::limits::ROW_FIXED * n
}

// The portfolio, the entry bar and the extreme after an entry.
fn write_entry(output: &mut impl Write, case: &[u64], rows: &[u64]) -> io::Result<()> {
    let entry = answers::entry_of(case, rows);
    let pf = fields::portfolio_words(fields::after_entry(entry, cases::portfolio(case, 28)));
    let marks = fields::entry_marks(entry, case);
    write_words(output, &pf, b' ')?;
    write_words(output, &marks, b'\n')
}

// The portfolio and the entry bar after an exit.
fn write_left(
    output: &mut impl Write,
    exit: Option<Closed>,
    case: &[u64],
    portfolio_at: usize,
    entry_bar_at: usize,
) -> io::Result<()> {
    let pf = cases::portfolio(case, portfolio_at);
    let words = fields::portfolio_words(fields::after_exit(exit, pf));
    let flag = cases::word(case, entry_bar_at, 0);
    let bar = cases::word(case, entry_bar_at, 1);
    let entry_bar = fields::entry_bar(exit, flag, bar);
    write_words(output, &words, b' ')?;
    write_words(output, &entry_bar, b' ')
}

// Whether an exit closed a trade, and the trade.
fn write_trade(output: &mut impl Write, exit: Option<Closed>) -> io::Result<()> {
    let flag = [fields::closed_flag(exit)];
    let trade = fields::closed_words(exit);
    write_words(output, &flag, b' ')?;
    write_words(output, &trade, b'\n')
}

fn write_exit(output: &mut impl Write, case: &[u64]) -> io::Result<()> {
    let exit = answers::exit_of(case);
    write_left(output, exit, case, 11, 17)?;
    write_trade(output, exit)
}

fn write_intrabar(output: &mut impl Write, case: &[u64]) -> io::Result<()> {
    let exit = answers::left_of(case);
    let extreme = [floats::word_of(answers::extreme_of(case))];
    write_left(output, exit, case, 19, 25)?;
    write_words(output, &extreme, b' ')?;
    write_trade(output, exit)
}

fn write_closed(output: &mut impl Write, closed: Closed) -> io::Result<()> {
    let pf = closed.portfolio;
    let trade = closed.trade;
    let words = fields::portfolio_words(pf);
    let trade_words = fields::trade_words(trade);
    write_words(output, &words, b' ')?;
    write_words(output, &trade_words, b'\n')
}

fn write_optional(output: &mut impl Write, value: Option<f64>) -> io::Result<()> {
    let words = fields::optional_words(value);
    write_words(output, &words, b'\n')
}

fn write_portfolio(output: &mut impl Write, pf: Portfolio) -> io::Result<()> {
    let words = fields::portfolio_words(pf);
    write_words(output, &words, b'\n')
}

// The answer's line.
fn write_answer(output: &mut impl Write, case: &[u64], rows: &[u64]) -> io::Result<()> {
    match cases::word(case, 0, 0) {
        1 => write_optional(output, answers::size_of(case)),
        2 => write_optional(
            output,
            volatility::realized_vol(rows, 0, cases::word(case, 0, 1)),
        ),
        3 => {
            let rate = [floats::word_of(answers::rate_of(case))];
            write_words(output, &rate, b'\n')
        }
        4 => write_entry(output, case, rows),
        5 => write_exit(output, case),
        6 => write_intrabar(output, case),
        7 => {
            let words = fields::trigger_words(answers::trigger_of(case));
            write_words(output, &words, b'\n')
        }
        8 => write_portfolio(output, answers::entered_of(case)),
        9 => write_closed(output, answers::exited_of(case)),
        10 => write_portfolio(output, answers::funded_of(case)),
        11 => {
            let words = fields::state_words(case);
            write_words(output, &words, b'\n')
        }
        12 => write_portfolio(output, answers::charged_of(case)),
        _ => Ok(()),
    }
}

// Answers the next case, and says whether there was one. At the end of the input the case has no word, and no tag is 0.
fn answer_next(
    input: &mut impl Read,
    output: &mut impl Write,
    line: &mut [u64],
    rows: &mut [u64],
) -> io::Result<bool> {
    let from: usize = 0;
    let n = text::read_line(input, line)?;
    let case = &line[..n];
    let held = fill_rows(case, rows);
    if rows.len() < held {
        return Ok(false);
    }
    write_answer(output, case, &rows[from..held])?;
    Ok(n > 0)
}

// A proved loop has to end, and nothing says that the input does, so the loop counts its turns up to a number that
// no run reaches.
fn main(rt: HostRuntime) -> io::Result<()> {
    let mut line = [0u64; LINE];
    let mut rows = [0u64; ROW_WORDS];
    let mut input = BufReader::new(rt.alloc(), rt.reader())?;
    let mut output = BufWriter::new(rt.alloc(), io::writer(&rt))?;
    for _ in 0..u64::MAX {
        if !answer_next(&mut input, &mut output, &mut line, &mut rows)? {
            break;
        }
    }
    output.flush()
}
