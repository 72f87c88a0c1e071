#![tactic(auto)]
// What is proved of entries: where a level fills them, how many lots they are, and which are turned away. Definitions and theorems in specs/, no code.
// No function's proof rests on them.
