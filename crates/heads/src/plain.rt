// Of a state's words those that the header has, as the state that they mean has them.
ghost use Rattle.std.specs.Prelude.{◌≡◌, cond, ◌≤◌, length, eqb};
ghost use Rattle.words.specs.Limits.{state_words};
ghost use Rattle.floats.specs.Floats.{word_of, float_of};
ghost use Rattle.heads.specs.Laws.Packed.{head_words};
ghost use Rattle.heads.specs.Laws.Plain.{order_in, kind_in, unless_zero, plain_words};

use crate::packed::pack;
use words::limits::STATE_WORDS;
use words::places;

// The word of the float that a word holds: of a NaN there is one pattern.
pub fn plain_word(w: u64) -> u64
    ensures { result ≡ word_of (float_of w) }
{
    if 0x7ff0_0000_0000_0000 < w % 0x8000_0000_0000_0000 {
        return 0x7ff8_0000_0000_0000;
    }
    w
}

// An order, or an order kind, that there is; 0 for any other.
pub fn order_in(order: u64) -> u64
    ensures { result ≡ order_in order }
{
    if order <= 3 {
        return order;
    }
    0
}

// The order kind of an entry; 0 where the order is none.
pub fn kind_in(order: u64, kind: u64) -> u64
    ensures { result ≡ kind_in order kind }
{
    if order == 0 {
        return 0;
    }
    if order <= 2 {
        return order_in(kind);
    }
    0
}

// A word that is used unless n is 0.
pub fn unless_zero(n: u64, w: u64) -> u64
    ensures { result ≡ unless_zero n w }
{
    if n == 0 {
        return 0;
    }
    w
}

// The limit of a stop-limit.
pub fn limit_in(kind: u64, w: u64) -> u64
    ensures { result ≡ cond (eqb kind 3) (word_of (float_of w)) 0 }
{
    if kind == 3 {
        return plain_word(w);
    }
    0
}

// The words of a state, as the state that they mean has them.
fn plain_words(w: &[u64]) -> [u64; STATE_WORDS]
    requires { state_words ≤ length w.now }
    ensures { result ≡ plain_words w.now }
{
    let order = order_in(w[places::ORDER]);
    let kind = kind_in(order, w[places::ORDER_KIND]);
    [
        w[places::BARS_SEEN],
        w[places::ROWS_HELD],
        w[places::EQUITY_POINTS],
        w[places::TRADES],
        order,
        unless_zero(order, w[places::ORDER_DELAY]),
        unless_zero(w[places::ENTERED], 1),
        unless_zero(w[places::ENTERED], w[places::ENTRY_BAR]),
        plain_word(w[places::CASH]),
        plain_word(w[places::QTY]),
        plain_word(w[places::ENTRY_PRICE]),
        w[places::ENTRY_TIME],
        plain_word(w[places::ENTRY_FEE]),
        plain_word(w[places::FEES_PAID]),
        plain_word(w[places::EXTREME]),
        w[places::LAST_TIME],
        plain_word(w[places::LAST_CLOSE]),
        kind,
        unless_zero(kind, plain_word(w[places::ORDER_LEVEL])),
        limit_in(kind, w[places::ORDER_LIMIT]),
        plain_word(w[places::OPEN_FUNDING]),
        plain_word(w[places::OPEN_WORST]),
    ]
}

// The header's words, of a state's words where there are all of them.
pub fn direct_head(w: &[u64], slots: u64, depth: u64, held: u64) -> [u64; 17]
    ensures { state_words ≤ length w.now → result ≡ head_words slots depth held (plain_words w.now) }
{
    if w.len() < STATE_WORDS {
        return [0u64; 17];
    }
    pack(&plain_words(w), slots, depth, held)
}
