// A word and a float of a list of words.
ghost use Rattle.std.specs.Prelude.{◌≡◌, ◌<◌, length, replicate};
ghost use Rattle.words.specs.Words.{word, overwrite};
ghost use Rattle.records.specs.Fields.{float_at};

// The float that word i holds; that of 0 past the end.
pub(crate) fn float_at(list: &[u64], i: usize) -> f64
    ensures { result ≡ float_at list.now i }
{
    floats::float_of(words::word(list, i))
}

// The words of a list that is shorter than N, and zeros behind them.
pub(crate) fn padded<const N: usize>(list: &[u64]) -> [u64; N]
    ensures { result ≡ overwrite (replicate N 0) 0 list.now }
{
    let mut room = [0u64; N];
    words::put(&mut room, 0, list);
    room
}

// A word of a list that has it: a reader of a whole record asks once for its length, and not at each word.
pub(crate) fn word_in(list: &[u64], i: usize) -> u64
    requires { i < length list.now }
    ensures { result ≡ word list.now i }
{
    list[i]
}

// The float of such a word.
pub(crate) fn float_in(list: &[u64], i: usize) -> f64
    requires { i < length list.now }
    ensures { result ≡ float_at list.now i }
{
    floats::float_of(word_in(list, i))
}
