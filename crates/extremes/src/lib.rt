#![tactic(auto)]
// What is proved of Highest and Lowest (request 8): definitions and theorems in specs/, no code. No function's proof rests on them.
