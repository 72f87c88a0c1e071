#![tactic(auto)]
// Cash and at most one signed position, long where qty is above 0 and short where it is below: the Rust's portfolio.rs.
// A portfolio goes in and comes out by value, and a closed trade is handed to the caller, who keeps it.
ghost use Rattle.std.specs.Prelude.{◌≡◌};
ghost use Rattle.portfolio.specs.Portfolio.{fresh, in_position, is_long, equity, funded, worse, worsened, entered, exited};
ghost use Rattle.portfolio.specs.Trade.{words_of_trade};

// One bar's prices and volume.
#[derive(Clone, Copy)]
pub struct Candle {
    pub time: u64,
    pub open: f64,
    pub high: f64,
    pub low: f64,
    pub close: f64,
    pub volume: f64,
}

// Free cash, and the open position: qty is 0 when flat. The entry's fee is kept so that the exit can net it.
#[derive(Clone, Copy)]
pub struct Portfolio {
    pub cash: f64,
    pub qty: f64,
    pub entry_price: f64,
    pub entry_time: u64,
    pub entry_fee: f64,
    pub fees_paid: f64,
    // what the open trade has paid in funding, and its least favourable price
    pub funding: f64,
    pub worst: f64,
}

// A completed round trip.
#[derive(Clone, Copy)]
pub struct Trade {
    pub entry_time: u64,
    pub exit_time: u64,
    pub entry_price: f64,
    pub exit_price: f64,
    pub qty: f64,
    pub pnl: f64,
    pub return_pct: f64,
    pub reason: u64,
    pub funding: f64,
    pub worst: f64,
}

// A portfolio whose position was closed, and the trade that this made.
#[derive(Clone, Copy)]
pub struct Closed {
    pub portfolio: Portfolio,
    pub trade: Trade,
}

// Why a position was closed.
// Numbers, no enum: the reason is a word of a trade's record, which the C interface lays down.
pub const SIGNAL: u64 = 1;

pub const STOP_LOSS: u64 = 2;

pub const TRAILING_STOP: u64 = 3;

pub const TAKE_PROFIT: u64 = 4;

pub const LIQUIDATION: u64 = 5;

pub const END: u64 = 6;

// The less favourable of a price and a bar's: its low for a long, its high for a short.
#[tactic(auto, unfolding(crate::specs::Portfolio::worse))]
fn worse(candle: Candle, price: f64, long: bool) -> f64
    ensures { result ≡ worse candle price long }
{
    if long {
        return floats::min(price, candle.low);
    }
    floats::max(price, candle.high)
}

impl Portfolio {
    // A portfolio with cash of starting capital.
    #[tactic(auto, unfolding(crate::specs::Portfolio::fresh))]
    pub fn new(cash: f64) -> Portfolio
        ensures { result ≡ fresh cash }
    {
        Portfolio {
            cash,
            qty: 0.0,
            entry_price: 0.0,
            entry_time: 0,
            entry_fee: 0.0,
            fees_paid: 0.0,
            funding: 0.0,
            worst: 0.0,
        }
    }

    // Whether a position is open.
    #[tactic(auto, unfolding(crate::specs::Portfolio::in_position))]
    pub fn in_position(self) -> bool
        ensures { result ≡ in_position self }
    {
        floats::abs(self.qty) > floats::EPS
    }

    // Whether the position is long.
    #[tactic(auto, unfolding(crate::specs::Portfolio::is_long))]
    pub fn is_long(self) -> bool
        ensures { result ≡ is_long self }
    {
        self.qty > 0.0
    }

    // What the portfolio is worth at the price mark.
    #[tactic(auto, unfolding(crate::specs::Portfolio::equity))]
    pub fn equity(self, mark: f64) -> f64
        ensures { result ≡ equity self mark }
    {
        self.cash + self.qty * mark
    }

    // A funding payment leaves cash, and counts among the fees and in the open trade's funding; below 0 it is received.
    #[tactic(auto, unfolding(crate::specs::Portfolio::funded))]
    pub fn apply_funding(mut self, payment: f64) -> Portfolio
        ensures { result ≡ funded self payment }
    {
        self.cash -= payment;
        self.fees_paid += payment;
        self.funding += payment;
        self
    }

    // The open position's least favourable price takes a bar: its low for a long, its high for a short.
    #[tactic(auto, unfolding(crate::specs::Portfolio::worsened))]
    pub fn worsen(self, candle: Candle) -> Portfolio
        ensures { result ≡ worsened self candle }
    {
        if self.in_position() {
            return Portfolio {
                worst: worse(candle, self.worst, self.is_long()),
                ..self
            };
        }
        self
    }

    // A position of qty opened at price, paying fee.
    #[tactic(auto, unfolding(crate::specs::Portfolio::entered))]
    pub fn enter(self, qty: f64, price: f64, time: u64, fee: f64) -> Portfolio
        ensures { result ≡ entered self qty price time fee }
    {
        Portfolio {
            cash: self.cash - (qty * price + fee),
            qty,
            entry_price: price,
            entry_time: time,
            entry_fee: fee,
            fees_paid: self.fees_paid + fee,
            funding: 0.0,
            worst: price,
        }
    }

    // The open position closed at price, paying fee, with the trade.
    pub fn exit(self, price: f64, time: u64, fee: f64, reason: u64) -> Closed
        ensures { result ≡ exited self price time fee reason }
    {
        let notional = floats::abs(self.qty) * self.entry_price;
        let pnl = self.qty * (price - self.entry_price) - self.entry_fee - fee;
        let return_pct = floats::sums::return_pct(pnl, notional);
        Closed {
            portfolio: Portfolio {
                cash: self.cash + (self.qty * price - fee),
                qty: 0.0,
                entry_fee: 0.0,
                fees_paid: self.fees_paid + fee,
                ..self
            },
            trade: Trade {
                entry_time: self.entry_time,
                exit_time: time,
                entry_price: self.entry_price,
                exit_price: price,
                qty: self.qty,
                pnl,
                return_pct,
                reason,
                funding: self.funding,
                worst: self.worst,
            },
        }
    }
}

impl Trade {
    // The trade as its words: in the Rust record's order, then the two that the Rust has not.
    #[tactic(auto, unfolding(crate::specs::Trade::words_of_trade))]
    pub fn words(self) -> [u64; words::limits::TRADE_WORDS]
        ensures { result ≡ words_of_trade self }
    {
        [
            self.entry_time,
            self.exit_time,
            floats::word_of(self.entry_price),
            floats::word_of(self.exit_price),
            floats::word_of(self.qty),
            floats::word_of(self.pnl),
            floats::word_of(self.return_pct),
            self.reason,
            floats::word_of(self.funding),
            floats::word_of(self.worst),
        ]
    }
}
