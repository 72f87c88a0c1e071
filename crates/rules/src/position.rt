// What a rule reads of the position.

// What a rule reads of the position: the quantity held, the entry bar, and how many bars were seen, this one counted.
#[derive(Clone, Copy)]
pub struct PositionState {
    pub qty: f64,
    pub entered: Option<u64>,
    pub bars_seen: u64,
}
