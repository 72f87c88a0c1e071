#![tactic(auto)]
// Many questions of one table: why a tree said yes or no at each of the newest rows, with one check of the table.
mod each;
pub mod over;
pub mod position;
