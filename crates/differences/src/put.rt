// A line into the room.
ghost use Rattle.std.specs.Prelude.{◌≡◌, [], ◌∷◌, ◌+◌, ◌*◌, ◌≤◌, length};
ghost use Rattle.words.specs.Words.{overwrite};
ghost use Rattle.differences.specs.Lines.{line, words_of};

// The words of a line: its sort, a number, a word, the first run's, the second run's.
pub(crate) const LINE_WORDS: usize = 5;

// Writes line c.
#[tactic(auto, unfolding(crate::specs::Lines::words_of))]
pub(crate) fn put_line(
    lines: &mut [u64],
    c: usize,
    sort: u64,
    number: u64,
    word: u64,
    first: u64,
    second: u64,
)
    requires { 5 * (c + 1) ≤ length lines.old }
    ensures { lines.new ≡ overwrite lines.old (5 * c) (words_of (line sort number word first second ∷ [])) }
{
    let words = [sort, number, word, first, second];
    words::put(lines, LINE_WORDS * c, &words);
}
