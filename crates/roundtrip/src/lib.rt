#![tactic(auto)]
// Tables and rules are the same thing: definitions of `table`, laws and theorems in specs/, no code. The checker's own proofs do not rest on
// them, so they stand above it and are not proved again where an edit of the checker is tried.
