#![tactic(auto)]
// Whether a dump is made: what it refuses, and words of which it refuses nothing.
pub mod judge;
pub mod passing;
