// Words, lowest first, as one number of two's complement: a float added, another sum added or taken away.
ghost use Rattle.std.specs.Prelude.{◌≡◌, ◌+◌, ◌*◌, ◌/◌, ◌%◌, ◌^◌, ◌<◌, ◌≤◌, leb, length};
ghost use Rattle.floats.specs.Root.{units_of};
ghost use Rattle.totals.specs.Number.{Moves, number_of, words_of, place, shifted};
ghost use Rattle.totals.specs.Totals.{total_words, sum_words, sum_with};
ghost use Rattle.totals.specs.Trades.{trades_of, pnl_sum};
ghost use Rattle.totals.specs.Exact.{number_in};

use words::limits::TRADE_WORDS;
use words::places;

// A word, and what is carried to the next.
#[derive(Clone, Copy)]
struct Carried {
    word: u64,
    carry: u64,
}

// The words of a sum.
pub(crate) const SUM_WORDS: usize = 34;

// What goes over into the next word where a sum passes a word's end, and where a difference does.
const CARRY: u64 = 1;

const BORROW: u64 = 1;

// w + x
fn more(w: u64, x: u64) -> Carried
    ensures { (result.word + 2 ^ 64 * result.carry ≡ w + x) × (result.word < 2 ^ 64) × (result.carry ≤ 1) }
{
    if 0xffff_ffff_ffff_ffff - x < w {
        Carried {
            word: w - (0xffff_ffff_ffff_ffff - x) - 1,
            carry: CARRY,
        }
    } else {
        Carried {
            word: w + x,
            carry: 0,
        }
    }
}

// w - x
fn less(w: u64, x: u64) -> Carried
    ensures { (result.word + x ≡ w + 2 ^ 64 * result.carry) × (result.word < 2 ^ 64) × (result.carry ≤ 1) }
{
    if w < x {
        Carried {
            word: 0xffff_ffff_ffff_ffff - x + w + 1,
            carry: BORROW,
        }
    } else {
        Carried {
            word: w - x,
            carry: 0,
        }
    }
}

// w + x, or w - x where `down`.
fn digit(down: bool, w: u64, x: u64) -> Carried
    ensures { (Moves down result.word (2 ^ 64 * result.carry) w x) × (result.word < 2 ^ 64) × (result.carry ≤ 1) }
{
    if down { less(w, x) } else { more(w, x) }
}

// Adds low + high * 2^64, times the weight of word `at`, to the number that the words are, or takes it away where `down`. It stops as soon as
// nothing is left to be carried; what passes the last word is lost.
fn shift(sum: &mut [u64], down: bool, at: usize, low: u64, high: u64)
    requires { high < 2 ^ 63 }
    ensures { sum.new
        ≡ words_of (length sum.old)
        (shifted down (place (length sum.old)) (number_of sum.old) ((low + 2 ^ 64 * high) * place at)) }
{
    let mut lo = low;
    let mut hi = high;
    for i in at..sum.len() {
        if lo == 0 && hi == 0 {
            return;
        }
        let d = digit(down, sum[i], lo);
        sum[i] = d.word;
        lo = hi + d.carry;
        hi = 0;
    }
}

// Adds the number of a finite float's word, in units of 2^-1074. Its 53 digits lie in two words at the most.
fn add_float(sum: &mut [u64], w: u64)
    ensures { sum.new
        ≡ words_of (length sum.old)
        (shifted (leb (2 ^ 63) w) (place (length sum.old)) (number_of sum.old) (units_of (w % 2 ^ 63))) }
{
    let b = w % 0x8000_0000_0000_0000;
    let e = b / 0x10_0000_0000_0000;
    let t = b % 0x10_0000_0000_0000;
    let down = 0x8000_0000_0000_0000 <= w;
    if e == 0 {
        shift(sum, down, 0, t, 0);
    } else {
        let k = e - 1;
        let s = k % 64;
        let m = 0x10_0000_0000_0000 + t;
        shift(sum, down, (k / 64) as usize, m << s, m / 2 >> (63 - s));
    }
}

// Adds the number that other words are, or takes it away where `down`.
pub(crate) fn shift_all(sum: &mut [u64], down: bool, words: &[u64])
    ensures { sum.new
        ≡ words_of (length sum.old)
        (shifted down (place (length sum.old)) (number_of sum.old) (number_of words.now)) }
{
    for i in 0..words.len() {
        shift(sum, down, i, words[i], 0);
    }
}

// The 34 words of the sum in totals.
pub(crate) fn sum_of(totals: &[u64]) -> [u64; SUM_WORDS]
    requires { total_words ≤ length totals.now }
    ensures { result ≡ sum_words totals.now }
{
    let mut sum = [0u64; SUM_WORDS];
    words::put(&mut sum, 0, &totals[8..42]);
    sum
}

// Adds the pnl of every trade of a list.
pub(crate) fn add_trades(sum: &mut [u64; SUM_WORDS], trades: &[u64])
    ensures { sum.new ≡ sum_with sum.old (pnl_sum (trades_of trades.now)) }
{
    let n = trades.len() / TRADE_WORDS;
    for i in 0..n {
        add_float(sum, trades[TRADE_WORDS * i + places::TRADE_PNL]);
    }
}

// Adds the sum of other totals.
pub(crate) fn add_sum(sum: &mut [u64; SUM_WORDS], other: &[u64])
    requires { total_words ≤ length other.now }
    ensures { sum.new ≡ sum_with sum.old (number_in (sum_words other.now)) }
{
    shift_all(sum, false, &other[8..42]);
}
