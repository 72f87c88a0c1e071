// What one bar does to the account: the fill of the working order, the exits inside the bar, funding, and the rooms of
// trades and equity points.
ghost use Rattle.std.specs.Prelude.{◌≡◌, ◌≤◌};
ghost use Rattle.words.specs.Limits.{most_slots};
ghost use Rattle.rows.specs.Ring.{ring_of};
ghost use Rattle.execution.specs.Intrabar.{apply_intrabar_exits};
ghost use Rattle.execution.specs.Level.{level_fill};
ghost use Rattle.records.specs.Settings.{settings_of};
ghost use Rattle.engine.specs.Record.{held_rows};
ghost use Rattle.engine.specs.Account as Account;
ghost use Rattle.engine.specs.Account.{leaving, facing, entering, due_if_reached, due_of, charged};
ghost use Rattle.engine.specs.Books.{booked, marked};

use crate::{record, terms};
use execution::fills::Entry;
use execution::level::{OrderKind, Side};
use execution::{costs, fills, intrabar, level};
use portfolio::{Candle, Closed, Portfolio, SIGNAL};
use records::settings::Settings;
use records::state::{Counts, Order, Position};
use rows::ring::Ring;

// The fill's order and position, the trade where it closed one, and whether its quantity is too large: the step is then refused.
#[derive(Clone, Copy)]
pub struct Filled {
    pub order: Order,
    pub position: Position,
    pub exit: Option<Closed>,
    pub turned_away: bool,
}

// What is due at a bar for the working order: it only waits, a position is entered at a raw price, or it is left.
// No Option or Result: there are three cases, and each is a plain one.
#[derive(Clone, Copy)]
pub enum Due {
    Waits(Order),
    Enters(Side, OrderKind, f64),
    Leaves,
}

// A position after the exits inside the bar, and the trade where they closed one.
#[derive(Clone, Copy)]
pub struct Left {
    pub position: Position,
    pub exit: Option<Closed>,
}

// A position that was left has no entry bar.
pub fn leaving(p: Position, exit: Option<Closed>) -> Position
    ensures { result ≡ leaving p «exit» }
{
    match exit {
        None => p,
        Some(c) => {
            let account = c.portfolio;
            Position {
                portfolio: account,
                entered: None,
                extreme: p.extreme,
            }
        }
    }
}

// An open position takes this bar into its least favourable price.
fn facing(p: Position, candle: Candle) -> Position
    ensures { result ≡ facing p candle }
{
    let account = p.portfolio;
    let entered = p.entered;
    Position {
        portfolio: account.worsen(candle),
        entered,
        extreme: p.extreme,
    }
}

// A position that was opened has this bar as its entry bar and the fill as its first extreme.
fn entering(p: Position, entry: Entry, number: u64) -> Position
    ensures { result ≡ entering p entry number }
{
    match entry {
        Entry::NoEntry => p,
        Entry::TooLarge => p,
        Entry::Entered(account, fill) => Position {
            portfolio: account,
            entered: Some(number),
            extreme: fill,
        },
    }
}

// An entry at the raw price that its kind gives. The room holds the rows `before` this bar.
fn enter(
    side: Side,
    kind: OrderKind,
    price: f64,
    s: Settings,
    p: Position,
    candle: Candle,
    rows: &[u64],
    before: Ring,
    number: u64,
) -> Filled
    requires { s.slots ≤ most_slots }
    ensures { result ≡ Account.entry_filled side kind price s p candle
        (ring_of s.slots before.start (held_rows s.slots before.held rows.now)) number }
{
    let account = p.portfolio;
    let slots = s.slots;
    let given = s.terms;
    let terms = terms::anew(given);
    let held = record::held_rows(rows, slots, before.held);
    let entries = s.entries;
    let fee_bps = level::fee_bps(kind, entries.maker_bps, terms.taker_bps);
    let entry = fills::execute_entry_ring(
        side,
        price,
        fee_bps,
        terms,
        candle,
        account,
        held,
        slots,
        before.start,
    );
    let position = entering(p, entry, number);
    Filled {
        order: Order::Idle,
        position,
        exit: None,
        turned_away: entry.is_turned_away(),
    }
}

// An exit at the open.
fn leave(s: Settings, p: Position, candle: Candle) -> Filled
    ensures { result ≡ Account.exit_filled s p candle }
{
    let terms = s.terms;
    let open = facing(p, candle);
    let account = open.portfolio;
    let exit = fills::execute_exit(SIGNAL, candle.open, terms, candle, account);
    let position = leaving(open, exit);
    Filled {
        order: Order::Idle,
        position,
        exit,
        turned_away: false,
    }
}

// An order that only waits.
fn wait(order: Order, p: Position) -> Filled
    ensures { result ≡ Account.waiting order p }
{
    Filled {
        order,
        position: p,
        exit: None,
        turned_away: false,
    }
}

// An entry is due where the bar reaches it; the order works on where it does not.
fn due_if_reached(side: Side, kind: OrderKind, order: Order, candle: Candle) -> Due
    ensures { result ≡ due_if_reached side kind order (level_fill side kind candle) }
{
    let price = level::level_fill(side, kind, candle);
    match price {
        None => Due::Waits(order),
        Some(px) => Due::Enters(side, kind, px),
    }
}

// What is due for an order: a delay above 0 counts down by 1, and no level is looked at meanwhile.
fn due_of(order: Order, candle: Candle) -> Due
    ensures { result ≡ due_of order candle }
{
    match order {
        Order::Idle => Due::Waits(Order::Idle),
        Order::EnterLong(n, kind) => {
            if 0 < n {
                return Due::Waits(Order::EnterLong(n - 1, kind));
            }
            due_if_reached(Side::Long, kind, order, candle)
        }
        Order::EnterShort(n, kind) => {
            if 0 < n {
                return Due::Waits(Order::EnterShort(n - 1, kind));
            }
            due_if_reached(Side::Short, kind, order, candle)
        }
        Order::Exit(n) => {
            if 0 < n {
                return Due::Waits(Order::Exit(n - 1));
            }
            Due::Leaves
        }
    }
}

// The working order against the new bar, before its row is recorded: the room holds the rows `before` this bar. `enter` has this one caller for
// both sides, so that it is compiled into a step and a bar with nothing due copies nothing.
pub(crate) fn fill_working_order(
    s: Settings,
    order: Order,
    p: Position,
    candle: Candle,
    rows: &[u64],
    before: Ring,
    number: u64,
) -> Filled
    requires { s.slots ≤ most_slots }
    ensures { result ≡ Account.filled s order p candle
        (ring_of s.slots before.start (held_rows s.slots before.held rows.now)) number }
{
    let due = due_of(order, candle);
    match due {
        Due::Waits(waiting) => wait(waiting, p),
        Due::Enters(side, kind, price) => enter(
            side, kind, price, s, p, candle, rows, before, number,
        ),
        Due::Leaves => leave(s, p, candle),
    }
}

// The exits inside the bar. Their levels are read from the settings' words, and only in a position: carried along as values they would be divided by a
// hundred before every bar, and a level that is not given holds whatever stood in its place, which a processor may be slow to divide.
fn exits_of(
    s: Settings,
    settings: &[u64],
    candle: Candle,
    account: Portfolio,
    extreme: f64,
) -> Option<Closed>
    requires { s ≡ settings_of settings.now }
    ensures { result ≡ apply_intrabar_exits candle s.terms account extreme }
{
    if account.in_position() {
        let terms = terms::with_levels(s.terms, records::settings::risk_in(settings));
        return intrabar::apply_intrabar_exits(candle, terms, account, extreme);
    }
    None
}

// The open position against the bar's range.
pub(crate) fn apply_intrabar_exits(
    s: Settings,
    settings: &[u64],
    p: Position,
    candle: Candle,
) -> Left
    requires { s ≡ settings_of settings.now }
    ensures { result ≡ Account.intrabar s p candle }
{
    let open = facing(p, candle);
    let account = open.portfolio;
    let entered = open.entered;
    let extreme = intrabar::extreme_with(candle, account, open.extreme);
    let exit = exits_of(s, settings, candle, account, extreme);
    let followed = Position {
        portfolio: account,
        entered,
        extreme,
    };
    let position = leaving(followed, exit);
    Left { position, exit }
}

// Funding for this bar.
pub(crate) fn charge_funding(s: Settings, p: Position, bar: &[u64]) -> Position
    ensures { result ≡ charged s p bar.now }
{
    let account = p.portfolio;
    let entered = p.entered;
    let funding = records::bar::funding_of(bar, s.slots);
    Position {
        portfolio: costs::charge_funding(s.funding, funding, account),
        entered,
        extreme: p.extreme,
    }
}

// Adds the trade, where there is one, to a room that holds n; the result is how many it holds then.
pub fn book(trades: &mut [u64], n: usize, exit: Option<Closed>) -> usize
    ensures { (result ≡ (booked trades.old n «exit»).count) × (trades.new ≡ (booked trades.old n «exit»).room) }
{
    match exit {
        None => n,
        Some(c) => {
            if n < trades.len() / words::limits::TRADE_WORDS {
                let trade = c.trade;
                let words = trade.words();
                words::put(trades, n * words::limits::TRADE_WORDS, &words);
                return n + 1;
            }
            n
        }
    }
}

// Adds the equity at the close to a room that holds so many points; the result is how many it holds then.
pub(crate) fn mark_equity(equity: &mut [u64], n: Counts, candle: Candle, p: Position) -> usize
    ensures { (result ≡ (marked equity.old n.equity_points candle p).count)
        × (equity.new ≡ (marked equity.old n.equity_points candle p).room) }
{
    let points = n.equity_points;
    let places = equity.len() / words::limits::POINT_WORDS;
    if points < places {
        let account = p.portfolio;
        let words = [candle.time, floats::word_of(account.equity(candle.close))];
        words::put(equity, points * words::limits::POINT_WORDS, &words);
        return points + 1;
    }
    points
}
