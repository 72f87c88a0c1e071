// What fills and exits go by.

// How large an entry is. VolTarget has the target and the lookback. Unknown stands for a kind that the papers do not
// name: it never gives an order.
#[derive(Clone, Copy)]
pub enum Sizing {
    FixedFraction(f64),
    FixedQty(f64),
    FixedCash(f64),
    VolTarget(f64, u64),
    RiskPerTrade(f64),
    Unknown,
}

// How far a fill slips. Unknown stands for a kind that the papers do not name: no slippage.
#[derive(Clone, Copy)]
pub enum Slippage {
    FixedBps(f64),
    VolumeImpact(f64),
    Unknown,
}

// Levels in percent, caps, and whether a bankrupt position is liquidated.
#[derive(Clone, Copy)]
pub struct Risk {
    pub stop_loss_pct: Option<f64>,
    pub trailing_stop_pct: Option<f64>,
    pub take_profit_pct: Option<f64>,
    pub max_leverage: Option<f64>,
    pub max_position_pct: Option<f64>,
    pub liquidation: bool,
}

// The settings that fills and exits go by.
#[derive(Clone, Copy)]
pub struct Terms {
    pub sizing: Sizing,
    pub risk: Risk,
    pub taker_bps: f64,
    pub slippage: Slippage,
    pub partial_fills: bool,
    pub max_participation: f64,
    // a quantity is a whole number of these; 0: any quantity
    pub lot: f64,
}
