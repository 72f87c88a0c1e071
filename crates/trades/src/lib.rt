#![tactic(auto)]
// What is proved of a position and of the trades that it becomes: theorems in specs/, no code. No function's proof rests on them.
