// Words as bytes, laid into an area.
ghost use Rattle.std.specs.Prelude.{◌≡◌, ◌+◌, ◌-◌, ◌*◌, ◌%◌, ◌≤◌, length, get_or};
ghost use Rattle.steps.specs.Bytes.{eight};
ghost use Rattle.images.specs.Layout.{words_bytes};
ghost use Rattle.dump.specs.Laws.Laid.{laid};

// The eight bytes of a word.
fn bytes_of(w: u64) -> [u8; 8]
    ensures { result ≡ eight w }
{
    w.to_le_bytes()
}

// Byte k of the words; 0 past their end.
pub(crate) fn byte_at(list: &[u64], k: usize) -> u8
    ensures { result ≡ get_or (words_bytes list.now) k 0 }
{
    let bytes = bytes_of(words::word(list, k / 8));
    bytes[k % 8]
}

// A word's bytes, the first at p.
fn put_word(area: &mut [u8], p: usize, w: u64)
    requires { p + 8 ≤ length area.old }
    ensures { area.new ≡ laid area.old p (eight w) 0 8 }
{
    let bytes = bytes_of(w);
    area[p..p + 8].copy_from_slice(&bytes);
}

// Bytes p to q of the words, one by one.
fn lay_bytes(area: &mut [u8], base: usize, list: &[u64], p: usize, q: usize)
    requires { base + q ≤ length area.old }
    ensures { area.new ≡ laid area.old base (words_bytes list.now) p (q - p) }
{
    for k in p..q {
        area[base + k] = byte_at(list, k);
    }
}

// The bytes of four words, of which k is the first. All are read before one is written, so that they are copied at once.
fn lay_four(area: &mut [u8], base: usize, list: &[u64], k: usize)
    requires { (k + 4 ≤ length list.now) × (base + 8 * (k + 4) ≤ length area.old) }
    ensures { area.new ≡ laid area.old base (words_bytes list.now) (8 * k) 32 }
{
    let a = list[k];
    let b = list[k + 1];
    let c = list[k + 2];
    let d = list[k + 3];
    let at = base + 8 * k;
    put_word(area, at, a);
    put_word(area, at + 8, b);
    put_word(area, at + 16, c);
    put_word(area, at + 24, d);
}

// The bytes of words i on, eight words at a time, while there are so many before j; and how far that goes.
// A `while`, as a range of blocks would have to work out from their number how far they went.
fn lay_eights(area: &mut [u8], base: usize, list: &[u64], i: usize, j: usize) -> usize
    requires { (i ≤ j) × (j ≤ length list.now) × (base + 8 * j ≤ length area.old) }
    ensures { (i ≤ result) × (result ≤ j) × (area.new ≡ laid area.old base (words_bytes list.now) (8 * i) (8 * (result - i))) }
{
    let mut k = i;
    while 8 <= j - k {
        lay_four(area, base, list, k);
        lay_four(area, base, list, k + 4);
        k += 8;
    }
    k
}

// The bytes of words i to j: what eights leave over, a word at a time.
fn lay_known(area: &mut [u8], base: usize, list: &[u64], i: usize, j: usize)
    requires { (i ≤ j) × (j ≤ length list.now) × (base + 8 * j ≤ length area.old) }
    ensures { area.new ≡ laid area.old base (words_bytes list.now) (8 * i) (8 * (j - i)) }
{
    let first = lay_eights(area, base, list, i, j);
    for k in first..j {
        put_word(area, base + 8 * k, list[k]);
    }
}

// Zero bytes p to q: those of words past the end. A loop and not `fill`, which writes its last byte by itself: what clears the others would
// then be handed an odd number of them, and go byte by byte where there are whole words.
fn lay_zeros(area: &mut [u8], base: usize, list: &[u64], p: usize, q: usize)
    requires { (8 * length list.now ≤ p) × (base + q ≤ length area.old) }
    ensures { area.new ≡ laid area.old base (words_bytes list.now) p (q - p) }
{
    for k in p..q {
        area[base + k] = 0;
    }
}

// The bytes of words i to j, those past the end zero.
pub(crate) fn lay_words(area: &mut [u8], base: usize, list: &[u64], i: usize, j: usize)
    requires { (i ≤ j) × (base + 8 * j ≤ length area.old) }
    ensures { area.new ≡ laid area.old base (words_bytes list.now) (8 * i) (8 * j - 8 * i) }
{
    let n = list.len();
    if j <= n {
        lay_known(area, base, list, i, j);
        return;
    }
    if n <= i {
        lay_zeros(area, base, list, 8 * i, 8 * j);
        return;
    }
    lay_known(area, base, list, i, n);
    lay_zeros(area, base, list, 8 * n, 8 * j);
}

// Bytes p to q of the words, those past the end zero: whole words as such, and what is over at either end byte by byte.
pub(crate) fn lay(area: &mut [u8], base: usize, list: &[u64], p: usize, q: usize)
    requires { base + q ≤ length area.old }
    ensures { area.new ≡ laid area.old base (words_bytes list.now) p (q - p) }
{
    let i = p / 8 + (p % 8 + 7) / 8;
    let j = q / 8;
    if j <= i {
        lay_bytes(area, base, list, p, q);
        return;
    }
    lay_bytes(area, base, list, p, 8 * i);
    lay_words(area, base, list, i, j);
    lay_bytes(area, base, list, 8 * j, q);
}
