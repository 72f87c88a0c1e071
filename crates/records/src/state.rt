// The state of a run, and the one before the first bar.
ghost use Rattle.std.specs.Prelude.{◌≡◌};
ghost use Rattle.records.specs.State.{fresh_state};

use crate::settings::Settings;
use execution::level::OrderKind;
use portfolio::Portfolio;

// How many of each thing there are.
#[derive(Clone, Copy)]
pub struct Counts {
    pub bars_seen: u64,
    pub rows_held: usize,
    pub equity_points: usize,
    pub trades: usize,
}

// The working order, with the bars that it still waits; an entry's with what it waits for then.
#[derive(Clone, Copy)]
pub enum Order {
    Idle,
    EnterLong(u64, OrderKind),
    EnterShort(u64, OrderKind),
    Exit(u64),
}

// The account and what is known of its open position.
#[derive(Clone, Copy)]
pub struct Position {
    pub portfolio: Portfolio,
    pub entered: Option<u64>,
    // the most favourable price since the entry
    pub extreme: f64,
}

// The last bar's time and close.
#[derive(Clone, Copy)]
pub struct Last {
    pub time: u64,
    pub close: f64,
}

#[derive(Clone, Copy)]
pub struct State {
    pub counts: Counts,
    pub order: Order,
    pub position: Position,
    pub last: Last,
}

// The state before the first bar.
pub fn fresh(s: Settings) -> State
    ensures { result ≡ fresh_state s }
{
    State {
        counts: Counts {
            bars_seen: 0,
            rows_held: 0,
            equity_points: 0,
            trades: 0,
        },
        order: Order::Idle,
        position: Position {
            portfolio: Portfolio::new(s.capital),
            entered: None,
            extreme: 0.0,
        },
        last: Last {
            time: 0,
            close: 0.0,
        },
    }
}
