#![tactic(auto)]
// What is proved of refusal 16: given exactly when. Definitions and theorems in specs/, no code. No function's proof rests on them.
