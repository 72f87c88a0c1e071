#![tactic(auto)]
// What is proved of an image: of one that is cut, of one that is read back, and of the box that goes on from it. Definitions and theorems in
// specs/, no code. No function's proof rests on them, so they stand above the dump and are not proved again where an edit of the dump is tried.
