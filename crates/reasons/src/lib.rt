#![tactic(auto)]
// What is proved of the lines that say why a rule said so (request 4): definitions and theorems in specs/, no code. No function's proof rests on them.
