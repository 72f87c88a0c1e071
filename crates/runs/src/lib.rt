#![tactic(auto)]
// What is proved of whole runs: definitions and theorems in specs/, no code. No function's proof rests on them, so they stand above the
// engine and are not proved again where an edit of the engine is tried.
