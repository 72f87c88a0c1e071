#![tactic(auto)]
// What a run is made of: its settings, its state and a bar, and the words that each of them is in a lent list.
pub mod bar;
mod fields;
pub mod settings;
pub mod state;
pub mod state_words;
