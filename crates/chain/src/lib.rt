#![tactic(auto)]
// Why a rule said yes or no: the chain of nodes from the root to what decided, a line of words for each.
pub mod explain;
pub mod lines;
mod missing;
mod shown;
mod walk;
