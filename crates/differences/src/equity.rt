// The first point whose equity differs.
ghost use Rattle.std.specs.Prelude.{◌≡◌, ◌*◌, ◌≤◌, length};
ghost use Rattle.words.specs.Limits.{point_words};
ghost use Rattle.differences.specs.Lines.{first_point};

use words::limits::POINT_WORDS;

// The first of n points whose equity differs, or n where none does. Times are not compared.
pub(crate) fn first_point(a: &[u64], b: &[u64], n: usize) -> usize
    requires { (point_words * n ≤ length a.now) × (point_words * n ≤ length b.now) }
    ensures { result ≡ first_point a.now b.now 0 n }
{
    for k in 0..n {
        if a[POINT_WORDS * k + 1] != b[POINT_WORDS * k + 1] {
            return k;
        }
    }
    n
}
