#![tactic(auto)]
// What is proved of a box that loses its supply, in the words of the C calls: definitions and theorems in specs/, no code. They stand above the C interface
// and the theorems of images, so that neither is proved again where an edit of the other is tried.
