#![tactic(auto)]
// Reads a rule table from standard input and writes how much row room its rules need: the rows, the bytes of a row, and the bytes of
// the window and of a dump. The argument is the lookback of a volatility target, which needs one row more than it says where that is more; with
// none it is 0. The stored input is the worked example of document 01, with a lookback of 10.
use needed::depth::Needs;
use std::env::Env;
use std::io;

// As long an argument as is read, and the number from which on more digits change nothing: it is far above every lookback.
const ARGUMENT: usize = 64;

const LARGE: u64 = 1_000_000;

// The bytes of a dump before its window, and of the largest window: 4,096 rows of 64 slots.
const HEADER: u64 = 256;

const LARGEST_WINDOW: u64 = 4096 * 8 * 71;

// What a decimal digit stands for.
fn digit(byte: u8) -> Option<u8> {
    match byte {
        b'0'..=b'9' => Some(byte - b'0'),
        _ => None,
    }
}

// The number with one digit more.
fn with_digit(n: u64, digit: u8) -> u64 {
    if n < LARGE {
        10 * n + u64::from(digit)
    } else {
        n
    }
}

// The lookback that an argument names; nothing where a byte of it is no digit.
fn lookback_of(argument: &[u8]) -> Option<u64> {
    let mut n = 0u64;
    for byte in argument {
        n = with_digit(n, digit(*byte)?);
    }
    Some(n)
}

fn tell(rt: &impl Print, what: &str, n: u64) -> io::Result<()> {
    print!(rt; "{what}{n}")
}

// The bytes of a dump (request 11): a header, and then the window.
fn dump_bytes(window: u64) -> u64 {
    HEADER + window.min(LARGEST_WINDOW)
}

fn tell_depth(rt: &impl Print, table: &[u8], lookback: u64) -> io::Result<()> {
    let answer = needed::depth::depth(table, lookback);
    match answer {
        Ok(Needs { rows, row, window }) => {
            tell(rt, "rows ", rows)?;
            tell(rt, "\nbytes a row ", row)?;
            tell(rt, "\nbytes of the window ", window)?;
            tell(rt, "\nbytes of a dump ", dump_bytes(window))?;
        }
        Err(refusal) => {
            tell(rt, "refused ", refusal.number())?;
            tell(rt, " at ", refusal.place())?;
        }
    }
    rt.println("")
}

fn main(rt: HostRuntime) -> io::Result<()> {
    let mut argument = [0u8; ARGUMENT];
    let k = rt.arg(1, &mut argument).unwrap_or(0);
    let input = answers::read_table(rt.alloc(), rt.reader())?;
    match lookback_of(&argument[..k]) {
        Some(lookback) => tell_depth(&rt, &input, lookback),
        None => rt.println("usage: depth [LOOKBACK] < TABLE"),
    }
}
