// The position of a question, in words: the quantity, whether there is an entry bar, that bar, the bars seen.
ghost use Rattle.std.specs.Prelude.{◌≡◌, ◌*◌, ◌≤◌, length};
ghost use Rattle.questions.specs.Position.{position_words, position_state, position_at, all_right};

use records::state_words::entered_of;
use rules::answers::state_right;
use rules::position::PositionState;

// The words of a position.
pub const POSITION_WORDS: usize = 4;

pub fn position_state(qty: u64, entered: u64, entry_bar: u64, bars_seen: u64) -> PositionState
    ensures { result ≡ position_state qty entered entry_bar bars_seen }
{
    PositionState {
        qty: floats::float_of(qty),
        entered: entered_of(entered, entry_bar),
        bars_seen,
    }
}

// Position i of a list of them.
pub(crate) fn position_at(positions: &[u64], i: usize) -> PositionState
    requires { position_words * i ≤ length positions.now }
    ensures { result ≡ position_at positions.now i }
{
    let base = POSITION_WORDS * i;
    let qty = words::word_from(positions, base, 0);
    let entered = words::word_from(positions, base, 1);
    let entry_bar = words::word_from(positions, base, 2);
    let bars_seen = words::word_from(positions, base, 3);
    position_state(qty, entered, entry_bar, bars_seen)
}

// Whether the counts of the first n positions are in order.
pub(crate) fn all_right(positions: &[u64], n: usize) -> bool
    requires { position_words * n ≤ length positions.now }
    ensures { result ≡ all_right positions.now n }
{
    for i in 0..n {
        if !state_right(position_at(positions, i)) {
            return false;
        }
    }
    true
}
