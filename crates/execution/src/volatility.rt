// `realized_vol`: the standard deviation of the close-to-close returns of the last rows. The returns are formed anew in
// each of the two passes, so that no room is needed for them.
ghost use Rattle.std.specs.Prelude.{◌≡◌, suc, ◌-◌, ◌<◌, ◌≤◌};
ghost use Rattle.floats.specs.Floats.{zero};
ghost use Rattle.rows.specs.History.{history_of};
ghost use Rattle.rows.specs.Ring.{ring_of};
ghost use Rattle.execution.specs.Volatility.{close_at, closes, simple_return, returns, if_positive, realized_vol};
ghost use Rattle.execution.specs.Tally.{term_of, tally_from};

use rows::ring;

// What a pass adds up: the returns, or how far each is from a mean, squared. No closure: a case of it can be named in a contract, and the
// loop over the returns stands once.
#[derive(Clone, Copy)]
enum Term {
    Itself,
    Squared(f64),
}

// How many returns there are, and the sum over them.
#[derive(Clone, Copy)]
struct Tally {
    count: u64,
    total: f64,
}

// The close of row i of the `held` rows that begin at row `start`.
fn close_at(rows: &[u64], slots: usize, held: usize, start: usize, i: usize) -> f64
    requires { (held ≡ (history_of slots rows.now).rows) × (start ≤ held) × (i < held) }
    ensures { result ≡ close_at (ring_of slots start rows.now) i }
{
    let base = ring::place(held, start, i) * (words::limits::ROW_FIXED + slots);
    floats::float_of(words::word_from(rows, base, words::places::BAR_CLOSE))
}

// The return from one close to the next; absent where the first is next to nothing.
#[tactic(auto, unfolding(crate::specs::Volatility::simple_return))]
fn simple_return(before: f64, now: f64) -> Option<f64>
    ensures { result ≡ simple_return before «now» }
{
    if floats::abs(before) > floats::EPS {
        return Some((now - before) / before);
    }
    None
}

#[tactic(auto, unfolding(crate::specs::Volatility::square_from, crate::specs::Tally::term_of))]
fn term_of(term: Term, r: f64) -> f64
    ensures { result ≡ term_of term r }
{
    match term {
        Term::Itself => r,
        Term::Squared(mean) => floats::sums::square(r - mean),
    }
}

// One pass over the returns between row `first` and row `last`.
fn tally_of(
    rows: &[u64],
    slots: usize,
    held: usize,
    start: usize,
    first: usize,
    last: usize,
    term: Term,
) -> Tally
    requires { (held ≡ (history_of slots rows.now).rows) × (start ≤ held) × (first ≤ last) × (last < held) }
    ensures { result ≡ tally_from term 0 zero (returns (closes (ring_of slots start rows.now) first (suc (last - first)))) }
{
    let mut count: u64 = 0;
    let mut total = 0.0;
    let mut before = close_at(rows, slots, held, start, first);
    for i in first..last {
        let now = close_at(rows, slots, held, start, i + 1);
        let change = simple_return(before, now);
        if let Some(r) = change {
            count += 1;
            total += term_of(term, r);
        }
        before = now;
    }
    Tally { count, total }
}

#[tactic(auto, unfolding(crate::specs::Volatility::if_positive))]
fn if_positive(sd: f64) -> Option<f64>
    ensures { result ≡ if_positive sd }
{
    if sd > 0.0 {
        return Some(sd);
    }
    None
}

// The volatility of the last `lookback` rows; absent where there are too few, or where the series is flat.
pub fn realized_vol(rows: &[u64], slots: usize, lookback: u64) -> Option<f64>
    ensures { result ≡ realized_vol (history_of slots rows.now) lookback }
{
    realized_vol_ring(rows, slots, 0, lookback)
}

// The same of rows that begin at row `start`, go on to the last and then from the first.
pub fn realized_vol_ring(rows: &[u64], slots: usize, start: usize, lookback: u64) -> Option<f64>
    ensures { result ≡ realized_vol (ring_of slots start rows.now) lookback }
{
    if lookback < 2 {
        return None;
    }
    let held = rows::row_count(rows, slots);
    let back = lookback as usize;
    if held < back {
        return None;
    }
    let oldest = ring::first_of(held, start);
    let first = held - back;
    let last = held - 1;
    let sum = tally_of(rows, slots, held, oldest, first, last, Term::Itself);
    if sum.count == 0 {
        return None;
    }
    let n = floats::sums::counted(sum.count);
    let mean = sum.total / n;
    let squares = tally_of(rows, slots, held, oldest, first, last, Term::Squared(mean));
    if_positive(floats::root::sqrt(squares.total / n))
}
