#![tactic(auto)]
// The high and the low of a stretch of closes, quickly: the best of every 64 bars is kept beside the closes, and a question reads whole
// blocks where it can and single bars at the ends (request 10).
pub mod append;
pub mod best;
mod question;
pub mod stretch;
