// The answer to a table.
use words::refusal::Refusal;

// What an accepted table has and needs.
#[derive(Clone, Copy)]
pub struct Accepted {
    pub nodes: usize,
    pub rows: u64,
}

// The answer to a table, and the subtree ends of an accepted one.
#[derive(Clone, Copy)]
pub struct Checked {
    pub answer: Result<Accepted, Refusal>,
    pub ends: [usize; 256],
}
