#![tactic(auto)]
// One bar: the Rust's engine.rs. A step fills the working order, records the row, looks for exits
// inside the bar, charges funding, marks the equity and decides, in that order.
pub mod account;
pub mod answer;
pub mod day;
mod decide;
mod phases;
pub mod record;
mod terms;
