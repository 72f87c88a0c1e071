#![tactic(auto)]
// Bars in a call over words.
pub mod day;
