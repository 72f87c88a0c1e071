// Words of two lists of trades that differ: how many, and a line for each. The room of lines and how many are written stay two parameters: in a
// struct with a `&mut` slice each contract would have to say that the room is still the same one.
ghost use Rattle.std.specs.Prelude.{◌≡◌, ◌+◌, ◌*◌, ◌<◌, ◌≤◌, length};
ghost use Rattle.words.specs.Limits.{trade_words};
ghost use Rattle.words.specs.Words.{overwrite};
ghost use Rattle.differences.specs.Lines.{word_line, word_lines, words_of};
ghost use Rattle.differences.specs.Laws.Counted.{trade_lines};

use crate::put::put_line;
use words::limits::TRADE_WORDS;

// 1 where word k differs, 0 where it does not.
#[tactic(auto, unfolding(crate::specs::Lines::word_line))]
fn differs(a: &[u64], b: &[u64], k: usize) -> usize
    requires { (k < length a.now) × (k < length b.now) }
    ensures { result ≡ length (word_line a.now b.now k) }
{
    if a[k] == b[k] { 0 } else { 1 }
}

// How many of the first n words differ.
pub(crate) fn count(a: &[u64], b: &[u64], n: usize) -> usize
    requires { (n ≤ length a.now) × (n ≤ length b.now) }
    ensures { result ≡ length (word_lines a.now b.now n) }
{
    let mut c: usize = 0;
    for k in 0..n {
        c += differs(a, b, k);
    }
    c
}

// The line of word w of trade x as line c of the room, where the word differs; the number of lines then.
fn put_word(a: &[u64], b: &[u64], x: usize, w: usize, lines: &mut [u64], c: usize) -> usize
    requires { (w < trade_words) × (trade_words * x + w < length a.now) × (trade_words * x + w < length b.now)
        × (5 * (c + length (word_line a.now b.now (trade_words * x + w))) ≤ length lines.old) }
    ensures { (result ≡ c + length (word_line a.now b.now (trade_words * x + w)))
        × (lines.new ≡ overwrite lines.old (5 * c) (words_of (word_line a.now b.now (trade_words * x + w)))) }
{
    let k = TRADE_WORDS * x + w;
    if a[k] == b[k] {
        return c;
    }
    put_line(lines, c, 2, x as u64, w as u64, a[k], b[k]);
    c + 1
}

// The lines of trade x from line c on; the number of lines then.
fn put_trade(a: &[u64], b: &[u64], x: usize, lines: &mut [u64], from: usize) -> usize
    requires { (trade_words * (x + 1) ≤ length a.now) × (trade_words * (x + 1) ≤ length b.now)
        × (5 * (from + length (trade_lines a.now b.now x trade_words)) ≤ length lines.old) }
    ensures { (result ≡ from + length (trade_lines a.now b.now x trade_words))
        × (lines.new ≡ overwrite lines.old (5 * from) (words_of (trade_lines a.now b.now x trade_words))) }
{
    let mut c: usize = from;
    for w in 0..TRADE_WORDS {
        c = put_word(a, b, x, w, lines, c);
    }
    c
}

// The lines of the first n trades from line c on; the number of lines then.
pub(crate) fn put_trades(a: &[u64], b: &[u64], n: usize, lines: &mut [u64], from: usize) -> usize
    requires { (trade_words * n ≤ length a.now) × (trade_words * n ≤ length b.now)
        × (5 * (from + length (word_lines a.now b.now (trade_words * n))) ≤ length lines.old) }
    ensures { (result ≡ from + length (word_lines a.now b.now (trade_words * n)))
        × (lines.new ≡ overwrite lines.old (5 * from) (words_of (word_lines a.now b.now (trade_words * n)))) }
{
    let mut c: usize = from;
    for x in 0..n {
        c = put_trade(a, b, x, lines, c);
    }
    c
}
