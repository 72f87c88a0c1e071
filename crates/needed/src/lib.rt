#![tactic(auto)]
// What a table needs of its window: how many rows, and which tests fall silent over fewer. It stands on the round trip, by which the
// checker's nodes are the rule's trees.
pub mod depth;
pub mod silent;
