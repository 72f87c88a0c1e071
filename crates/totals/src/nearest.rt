// The float nearest to a sum, ties to even, as a pattern: read out of the sum's words, with no float operation.
ghost use Rattle.std.specs.Prelude.{◌≡◌, eqb, false, ◌/◌, ◌%◌, ◌^◌, ◌<◌, ◌≤◌, length};
ghost use Rattle.std.specs.Float.{binary64};
ghost use Rattle.std.specs.Float.Ieee.{round, size};
ghost use Rattle.std.specs.Float.Ieee.Nearest.{closest};
ghost use Rattle.floats.specs.Floats.{word_of};
ghost use Rattle.totals.specs.Number.{number_of, Top};
ghost use Rattle.totals.specs.Exact.{nearest_to, number_in};

use crate::sum::{SUM_WORDS, shift_all};

// Of the first n words those up to the highest that is not 0.
fn top(words: &[u64], n: usize) -> usize
    ensures { Top words.now n result }
{
    for i in 0..n {
        let t = n - i;
        if words::word(words, t - 1) != 0 {
            return t;
        }
    }
    0
}

// How many binary digits the words' number has.
fn digits(words: &[u64]) -> u64
    requires { length words.now ≤ 34 }
    ensures { result ≡ size (number_of words.now) }
{
    let t = top(words, words.len());
    if t == 0 {
        return 0;
    }
    64 * (t as u64) - u64::leading_zeros(words::word(words, t - 1)) as u64
}

// The digits from place k on, where they are few.
fn kept(words: &[u64], k: u64) -> u64
    requires { number_of words.now / 2 ^ k < 2 ^ 53 }
    ensures { result ≡ number_of words.now / 2 ^ k }
{
    let i = (k / 64) as usize;
    let r = k % 64;
    let low = words::word(words, i) >> r;
    if r == 0 {
        return low;
    }
    low + (words::word(words, i + 1) << (64 - r))
}

// Whether all digits below place j are 0.
fn clear_below(words: &[u64], j: u64) -> bool
    ensures { result ≡ eqb (number_of words.now % 2 ^ j) 0 }
{
    let i = (j / 64) as usize;
    let w = words::word(words, i);
    if (w >> (j % 64)) << (j % 64) == w {
        return top(words, i) == 0;
    }
    false
}

// The digits q that are kept where k are dropped, to nearest, ties to even.
fn rounded(words: &[u64], k: u64, q: u64) -> u64
    requires { (0 < k) × (q ≡ number_of words.now / 2 ^ k) × (q < 2 ^ 53) }
    ensures { result ≡ closest (number_of words.now) (2 ^ k) }
{
    let j = k - 1;
    if (words::word(words, (j / 64) as usize) >> (j % 64)) % 2 == 0 {
        return q;
    }
    if clear_below(words, j) {
        return q + q % 2;
    }
    q + 1
}

// The pattern of the float nearest to the words' number, in units of 2^-1074.
fn nearest(words: &[u64]) -> u64
    requires { length words.now ≤ 34 }
    ensures { result ≡ word_of (round binary64 false (number_of words.now) (2 ^ 1074)) }
{
    let n = digits(words);
    if n <= 53 {
        return words::word(words, 0);
    }
    let k = n - 53;
    let b = k * 0x10_0000_0000_0000 + rounded(words, k, kept(words, k));
    if b < 0x7ff0_0000_0000_0000 {
        b
    } else {
        0x7ff0_0000_0000_0000
    }
}

// The pattern of the float nearest to a sum in two's complement, of 34 words.
pub(crate) fn nearest_to(sum: &[u64; SUM_WORDS]) -> u64
    ensures { result ≡ word_of (nearest_to (number_in sum.now)) }
{
    if words::word(sum, 33) < 0x8000_0000_0000_0000 {
        return nearest(sum);
    }
    let mut size = [0u64; SUM_WORDS];
    shift_all(&mut size, true, sum);
    0x8000_0000_0000_0000 + nearest(&size)
}
