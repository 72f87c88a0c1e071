// What is decided at a bar's close.
ghost use Rattle.std.specs.Prelude.{◌≡◌, ◌*◌, ◌<◌, ◌≤◌, length};
ghost use Rattle.words.specs.Limits.{most_slots, most_count, row_words};
ghost use Rattle.rows.specs.Ring.{ring_of};
ghost use Rattle.refusals.specs.Lists.{lists_of};
ghost use Rattle.engine.specs.Decide.{list_says, answers_of, ordered};
ghost use Rattle.engine.specs.InPlace.{read_from, decided_from};
ghost use Rattle.engine.specs.Record.{held_rows};

use execution::level;
use execution::level::OrderKind;
use portfolio::Portfolio;
use records::settings::Settings;
use records::state::{Order, Position};
use refusals::lists::Lists;
use rows::ring::Ring;
use rules::position::PositionState;
use steps::{choice, machine};

// What a rule's list of steps answers over rows that begin at row `start`. An empty list answers no, and is not run.
fn list_says(window: &[u64], slots: usize, start: usize, state: PositionState, list: &[u8]) -> bool
    ensures { result ≡ list_says (ring_of slots start window.now) state list.now }
{
    if list.is_empty() {
        return false;
    }
    let ran = machine::run_ring(list, window, slots, start, state);
    ran.answer
}

// The rows that the rules read: the last D of those held, where these begin at their first; else all of them, of which no rule reads more
// than the last D.
fn read_from(rows: &[u64], slots: usize, depth: usize, held: usize, start: usize) -> &[u64]
    requires { (slots ≤ most_slots) × (held * row_words slots ≤ length rows.now) }
    ensures { result.now ≡ read_from slots depth start (held_rows slots held rows.now) }
{
    let width = words::limits::ROW_FIXED + slots;
    let end = held * width;
    let all = &rows[..end];
    if start == 0 {
        if depth < held {
            let first = (held - depth) * width;
            return &all[first..];
        }
    }
    all
}

// The order of a bar on which none works.
fn order_of<'a>(
    delay: u64,
    kind: OrderKind,
    account: Portfolio,
    window: &[u64],
    slots: usize,
    start: usize,
    state: PositionState,
    trees: Lists<'a>,
) -> Order
    ensures { result ≡ ordered delay kind account (answers_of (ring_of slots start window.now) state
        (lists_of trees.entry)) }
{
    if account.in_position() {
        let list = choice::exit_list(account.qty, trees.exit, trees.short_exit);
        if list_says(window, slots, start, state, list) {
            return Order::Exit(delay);
        }
        return Order::Idle;
    }
    if list_says(window, slots, start, state, trees.entry) {
        return Order::EnterLong(delay, kind);
    }
    if list_says(window, slots, start, state, trees.short_entry) {
        return Order::EnterShort(delay, kind);
    }
    Order::Idle
}

// The order after this bar, whose row is the last of those held `after` it: nothing is decided below warmup, nor while an order works.
pub(crate) fn decide_next_action<'a>(
    s: Settings,
    order: Order,
    p: Position,
    number: u64,
    close: f64,
    rows: &[u64],
    after: Ring,
    trees: Lists<'a>,
) -> Order
    requires { (s.slots ≤ most_slots) × (number < most_count) × (after.held * row_words s.slots ≤ length rows.now) }
    ensures { result ≡ decided_from s order p number close after.start (held_rows s.slots after.held rows.now)
        (lists_of trees.entry) }
{
    match order {
        Order::EnterLong(n, kind) => Order::EnterLong(n, kind),
        Order::EnterShort(n, kind) => Order::EnterShort(n, kind),
        Order::Exit(n) => Order::Exit(n),
        Order::Idle => {
            if number < s.warmup {
                return Order::Idle;
            }
            let slots = s.slots;
            let account = p.portfolio;
            let entered = p.entered;
            let entries = s.entries;
            let kind = level::entry_trigger(entries, close);
            let state = PositionState {
                qty: account.qty,
                entered,
                bars_seen: number + 1,
            };
            let window = read_from(rows, slots, s.depth, after.held, after.start);
            order_of(
                s.delay,
                kind,
                account,
                window,
                slots,
                after.start,
                state,
                trees,
            )
        }
    }
}
