#![tactic(auto)]
// What is proved of the steps that a run visits, one after the other: definitions and theorems in specs/, no code. No function's proof rests on them.
