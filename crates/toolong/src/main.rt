#![tactic(auto)]
// The program `tablecheck` on an input that is one byte too long: the longest table, of 256 nodes, and one byte more. A program that read 4,112
// bytes would accept it.
use std::io;

fn main(rt: HostRuntime) -> io::Result<()> {
    answers::answer_input(&rt)
}
