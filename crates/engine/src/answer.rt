// What a step and the end of a run give.
use metrics::Metrics;
use records::state::State;
use words::refusal::Refusal;

// The state and the figures of a run that has ended.
#[derive(Clone, Copy)]
pub struct Ended {
    pub state: State,
    pub metrics: Metrics,
}

// What a bar comes to, and the row of the room at which the rows held begin then.
#[derive(Clone, Copy)]
pub struct Advanced {
    pub answer: Result<State, (Refusal, State)>,
    pub start: usize,
}
