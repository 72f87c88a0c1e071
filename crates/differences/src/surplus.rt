// What one run has more: a line where two counts differ.
ghost use Rattle.std.specs.Prelude.{◌≡◌, ◌+◌, ◌*◌, ◌≤◌, length};
ghost use Rattle.words.specs.Words.{overwrite};
ghost use Rattle.differences.specs.Lines.{surplus, words_of};

use crate::put::put_line;

// How many lines tell that m and n differ: 1, or none where they do not.
#[tactic(auto, unfolding(crate::specs::Lines::surplus))]
pub(crate) fn apart(m: usize, n: usize) -> usize
    ensures { (result ≡ length (surplus 0 m n)) × (result ≤ 1) }
{
    if m == n { 0 } else { 1 }
}

// The line of two counts that differ, as line c; the number of lines then.
pub(crate) fn put_surplus(sort: u64, m: usize, n: usize, lines: &mut [u64], c: usize) -> usize
    requires { 5 * (c + length (surplus sort m n)) ≤ length lines.old }
    ensures { (result ≡ c + length (surplus sort m n)) × (lines.new ≡ overwrite lines.old (5 * c) (words_of (surplus sort m n))) }
{
    if m == n {
        return c;
    }
    put_line(lines, c, sort, m.min(n) as u64, 0, m as u64, n as u64);
    c + 1
}
