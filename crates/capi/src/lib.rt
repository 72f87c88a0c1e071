#![tactic(auto)]
// The C interface: words in, words out. include/yshturpa.h declares its calls, docs/INTERFACE.md describes them.
pub mod bars;
mod calls;
pub mod compare;
pub mod figures;
pub mod four;
pub mod many;
pub mod part;
pub mod power;
pub mod report;
pub mod run;
pub mod state;
pub mod stretch;
pub mod tables;
pub mod version;
pub mod why;
pub mod why_over;
