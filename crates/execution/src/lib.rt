#![tactic(auto)]
// Execution: what the Rust's engine.rs does with the account on one bar. Sizes, slippage, entries and exits, levels
// inside the bar, liquidation and funding. All by value; the rows before the bar are read where the sizing asks for them.
pub mod costs;
pub mod fills;
pub mod intrabar;
pub mod level;
pub mod lots;
pub mod size;
pub mod terms;
pub mod volatility;
