#![tactic(auto)]
// Four accounts on one stream of bars (request 14): the bars that the stream takes, the profile that an account has to fit, its status, and the
// bar that it is handed. What a bar does to an account is the engine's.
pub mod own;
pub mod profile;
pub mod status;
pub mod stream;
