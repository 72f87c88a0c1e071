#![tactic(auto)]
// Reads a rule table from standard input and writes the answer to it in a line: `accepted nodes 7 rows 3`, or `refused 6 at 2`.
// The stored input is the worked example of document 01.
use std::io;

fn main(rt: HostRuntime) -> io::Result<()> {
    answers::answer_input(&rt)
}
