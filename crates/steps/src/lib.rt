#![tactic(auto)]
// The list of steps: a rule's tree as a flat list of 16-byte steps, how such a list is run over rows, and which lists are well formed.
pub mod choice;
pub mod decode;
mod doing;
mod leaves;
mod looking;
pub mod machine;
mod phrases;
mod quick;
pub mod running;
mod stack;
pub mod step;
pub mod wellformed;
