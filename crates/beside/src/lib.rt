#![tactic(auto)]
// What is proved of accounts beside one another on one stream: definitions and theorems in specs/, no code. No function's proof rests on them.
