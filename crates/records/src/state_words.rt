// The state's words: what they mean, and those of a state.
ghost use Rattle.std.specs.Prelude.{◌≡◌, ◌≤◌, length};
ghost use Rattle.words.specs.Limits.{state_words};
ghost use Rattle.words.specs.Words.{overwrite};
ghost use Rattle.records.specs.StateWords.{order_of, entry_kind_of, entered_of, counts_of, portfolio_of, position_of, state_of};
ghost use Rattle.records.specs.StateWords.{order_kind, order_delay, waits_for, kind_word, level_word, limit_word};
ghost use Rattle.records.specs.StateWords.{entered_kind, entry_bar, words_of};

use crate::fields::{float_in, padded, word_in};
use crate::state::{Counts, Last, Order, Position, State};
use execution::level::OrderKind;
use portfolio::Portfolio;
use words::limits::STATE_WORDS;
use words::places;

fn order_of(order: u64, delay: u64, kind: OrderKind) -> Order
    ensures { result ≡ order_of order delay kind }
{
    match order {
        1 => Order::EnterLong(delay, kind),
        2 => Order::EnterShort(delay, kind),
        3 => Order::Exit(delay),
        _ => Order::Idle,
    }
}

fn entry_kind_of(kind: u64, level: f64, limit: f64) -> OrderKind
    ensures { result ≡ entry_kind_of kind level limit }
{
    match kind {
        1 => OrderKind::Limit(level),
        2 => OrderKind::Stop(level),
        3 => OrderKind::StopLimit(level, limit),
        _ => OrderKind::Market,
    }
}

pub fn entered_of(kind: u64, bar: u64) -> Option<u64>
    ensures { result ≡ entered_of kind bar }
{
    if kind == 0 {
        return None;
    }
    Some(bar)
}

fn counts_of(words: &[u64]) -> Counts
    requires { state_words ≤ length words.now }
    ensures { result ≡ counts_of words.now }
{
    Counts {
        bars_seen: word_in(words, places::BARS_SEEN),
        rows_held: word_in(words, places::ROWS_HELD) as usize,
        equity_points: word_in(words, places::EQUITY_POINTS) as usize,
        trades: word_in(words, places::TRADES) as usize,
    }
}

fn portfolio_of(words: &[u64]) -> Portfolio
    requires { state_words ≤ length words.now }
    ensures { result ≡ portfolio_of words.now }
{
    Portfolio {
        cash: float_in(words, places::CASH),
        qty: float_in(words, places::QTY),
        entry_price: float_in(words, places::ENTRY_PRICE),
        entry_time: word_in(words, places::ENTRY_TIME),
        entry_fee: float_in(words, places::ENTRY_FEE),
        fees_paid: float_in(words, places::FEES_PAID),
        funding: float_in(words, places::OPEN_FUNDING),
        worst: float_in(words, places::OPEN_WORST),
    }
}

fn position_of(words: &[u64]) -> Position
    requires { state_words ≤ length words.now }
    ensures { result ≡ position_of words.now }
{
    Position {
        portfolio: portfolio_of(words),
        entered: entered_of(
            word_in(words, places::ENTERED),
            word_in(words, places::ENTRY_BAR),
        ),
        extreme: float_in(words, places::EXTREME),
    }
}

// The state of a list that has all its words.
fn whole_state(words: &[u64]) -> State
    requires { state_words ≤ length words.now }
    ensures { result ≡ state_of words.now }
{
    State {
        counts: counts_of(words),
        order: order_of(
            word_in(words, places::ORDER),
            word_in(words, places::ORDER_DELAY),
            entry_kind_of(
                word_in(words, places::ORDER_KIND),
                float_in(words, places::ORDER_LEVEL),
                float_in(words, places::ORDER_LIMIT),
            ),
        ),
        position: position_of(words),
        last: Last {
            time: word_in(words, places::LAST_TIME),
            close: float_in(words, places::LAST_CLOSE),
        },
    }
}

// The state of a list of words; a word past the end is 0.
pub fn state_of(words: &[u64]) -> State
    ensures { result ≡ state_of words.now }
{
    if words.len() < STATE_WORDS {
        return whole_state(&padded::<STATE_WORDS>(words));
    }
    whole_state(words)
}

// No twin of `order_delay`: this tells the case, that what the case holds.
fn order_kind(order: Order) -> u64
    ensures { result ≡ order_kind order }
{
    match order {
        Order::Idle => 0,
        Order::EnterLong(_, _) => 1,
        Order::EnterShort(_, _) => 2,
        Order::Exit(_) => 3,
    }
}

fn order_delay(order: Order) -> u64
    ensures { result ≡ order_delay order }
{
    match order {
        Order::Idle => 0,
        Order::EnterLong(delay, _) => delay,
        Order::EnterShort(delay, _) => delay,
        Order::Exit(delay) => delay,
    }
}

// What an order waits for.
fn waits_for(order: Order) -> OrderKind
    ensures { result ≡ waits_for order }
{
    match order {
        Order::Idle => OrderKind::Market,
        Order::EnterLong(_, kind) => kind,
        Order::EnterShort(_, kind) => kind,
        Order::Exit(_) => OrderKind::Market,
    }
}

fn kind_word(kind: OrderKind) -> u64
    ensures { result ≡ kind_word kind }
{
    match kind {
        OrderKind::Market => 0,
        OrderKind::Limit(_) => 1,
        OrderKind::Stop(_) => 2,
        OrderKind::StopLimit(_, _) => 3,
    }
}

fn level_word(kind: OrderKind) -> u64
    ensures { result ≡ level_word kind }
{
    match kind {
        OrderKind::Market => 0,
        OrderKind::Limit(level) => floats::word_of(level),
        OrderKind::Stop(level) => floats::word_of(level),
        OrderKind::StopLimit(stop, _) => floats::word_of(stop),
    }
}

fn limit_word(kind: OrderKind) -> u64
    ensures { result ≡ limit_word kind }
{
    match kind {
        OrderKind::Market => 0,
        OrderKind::Limit(_) => 0,
        OrderKind::Stop(_) => 0,
        OrderKind::StopLimit(_, limit) => floats::word_of(limit),
    }
}

fn entered_kind(entered: Option<u64>) -> u64
    ensures { result ≡ entered_kind entered }
{
    match entered {
        None => 0,
        Some(_) => 1,
    }
}

fn entry_bar(entered: Option<u64>) -> u64
    ensures { result ≡ entry_bar entered }
{
    match entered {
        None => 0,
        Some(bar) => bar,
    }
}

// Writes a state over the first words of a room; nothing where it is shorter.
pub fn put_state(room: &mut [u64], s: State)
    ensures { room.new ≡ overwrite room.old 0 (words_of s) }
{
    let counts = s.counts;
    let order = s.order;
    let waiting = waits_for(order);
    let position = s.position;
    let entered = position.entered;
    let account = position.portfolio;
    let last = s.last;
    let words = [
        counts.bars_seen,
        counts.rows_held as u64,
        counts.equity_points as u64,
        counts.trades as u64,
        order_kind(order),
        order_delay(order),
        entered_kind(entered),
        entry_bar(entered),
        floats::word_of(account.cash),
        floats::word_of(account.qty),
        floats::word_of(account.entry_price),
        account.entry_time,
        floats::word_of(account.entry_fee),
        floats::word_of(account.fees_paid),
        floats::word_of(position.extreme),
        last.time,
        floats::word_of(last.close),
        kind_word(waiting),
        level_word(waiting),
        limit_word(waiting),
        floats::word_of(account.funding),
        floats::word_of(account.worst),
    ];
    words::put(room, 0, &words);
}
