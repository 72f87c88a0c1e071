#![tactic(auto)]
// The header of an image as words: of a state, and of a state's words.
pub mod packed;
pub mod plain;
