// A day of minute bars, made up: a price that wanders and turns every three hours, in whole cents, and two averages of
// it, one quick and one slow, as the caller of the engine would supply them.
ghost use Rattle.std.specs.Prelude.{◌≡◌, ◌≤◌, min, max};

// A day of minutes.
const MINUTES: usize = 1440;

// The words of a bar with two slots.
pub(crate) const BAR_WORDS: usize = words::limits::BAR_FIXED + 2;

// A price between two bars, in cents, and what is carried along.
#[derive(Drop)]
struct Market {
    pub cents: u64,
    pub dice: u64,
    pub quick: f64,
    pub slow: f64,
}

// One bar's words, and the market after it.
#[derive(Drop)]
struct Minute {
    pub bar: [u64; 12],
    pub after: Market,
}

// The first bar's open.
fn opening() -> Market {
    Market {
        cents: 10_000,
        dice: 20_261_115,
        quick: 100.0,
        slow: 100.0,
    }
}

// The next throw of the dice, below 2^31.
fn thrown(dice: u64) -> u64 {
    (dice % 2_147_483_648 * 1_103_515_245 + 12_345) % 2_147_483_648
}

// The cents that it goes up on the whole: in one three hours, and not in the next.
fn drift(minute: u64) -> u64
    ensures { result ≤ 3 }
{
    if minute / 180 % 2 == 0 { 3 } else { 0 }
}

// The close after an open: up or down by at most 22 cents, and never below 50.00.
fn moved(cents: u64, minute: u64, dice: u64) -> u64 {
    let up = cents % 1_000_000 + dice / 65_536 % 41 + drift(minute);
    up.max(5_022) - 22
}

// Cents as a price.
fn price(cents: u64) -> f64 {
    std::num::nearest_u64_to_f64(cents) / 100.0
}

// Word of the mask: the averages are there from the 26th minute on.
fn present(minute: u64) -> u64 {
    if minute < 26 { 0 } else { 3 }
}

// The bar of a minute: it opens where the one before it closed.
fn minute_bar(m: Market, minute: u64) -> Minute {
    let dice = thrown(m.dice);
    let wide = thrown(dice);
    let open = m.cents % 1_000_000 + 100;
    let close = moved(m.cents, minute, dice) % 1_000_000 + 100;
    let high = open.max(close) + wide / 65_536 % 15;
    let low = open.min(close) - wide / 1_024 % 15;
    let last = price(close);
    let quick = m.quick + (last - m.quick) * 0.15;
    let slow = m.slow + (last - m.slow) * 0.05;
    Minute {
        bar: [
            minute,
            floats::word_of(price(open)),
            floats::word_of(price(high)),
            floats::word_of(price(low)),
            floats::word_of(last),
            floats::word_of(std::num::nearest_u64_to_f64(1_000 + wide % 1_000)),
            present(minute),
            floats::word_of(quick),
            floats::word_of(slow),
            0,
            0,
            0,
        ],
        after: Market {
            cents: close - 100,
            dice: wide,
            quick,
            slow,
        },
    }
}

// The day's bars, one behind the other.
pub(crate) fn write_day(room: &mut [u64]) {
    let mut market = opening();
    for minute in 0..MINUTES {
        let next = minute_bar(market, minute as u64);
        let bar = next.bar;
        words::put(room, minute * BAR_WORDS, &bar);
        let after = next.after;
        market = after;
    }
}
