#![tactic(auto)]
// Four accounts on one stream, over words.
pub mod four;
