#![tactic(auto)]
// What moved between two runs: the first bar whose equity differs, every word of a trade that differs, and what one run has more, as lines (request 12).
// Lines are counted first and then written, so that a room that is too small is not touched.
pub mod compare;
mod equity;
mod put;
mod put_all;
mod surplus;
mod words_apart;
