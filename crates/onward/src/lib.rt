#![tactic(auto)]
// What is proved of accounts on one stream over a loss of supply: definitions and theorems in specs/, no code. No function's proof rests on them.
