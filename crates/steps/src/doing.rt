// What a step does that neither takes nor gives a value: it sets, turns or reads the answer, or jumps.
ghost use Rattle.std.specs.Prelude.{◌≡◌, false, cond, not, ◌&&◌, ◌+◌, ◌<◌, ◌≤◌, min, ltb, leb, Float, Option};
ghost use Rattle.rows.specs.History.{History};
ghost use Rattle.rules.specs.Values as Values;
ghost use Rattle.steps.specs.Bytes.{op_of, is_operation, is_test_step};
ghost use Rattle.steps.specs.Machine.{saying, effect};

use crate::step::Step;
use rules::position::PositionState;
use rules::values;
use table::kinds;

// Whether a kind is one from `low` on and below `high`.
pub(crate) fn is_among(kind: u8, low: u8, high: u8) -> bool
    ensures { result ≡ (leb low kind && ltb kind high) }
{
    (low..high).contains(&kind)
}

// Whether there is a position, or none, as wanted.
fn position(wanted: bool, qty: f64) -> bool
    ensures { result ≡ cond wanted (Values.held qty) (not (Values.held qty)) }
{
    if wanted {
        return values::in_position(qty);
    }
    !values::in_position(qty)
}

// What the answer is after a step that neither takes nor gives a value, nor jumps. One of no known kind leaves it as it was.
pub(crate) fn said(x: Step, s: PositionState, answer: bool) -> bool
    requires { (1 ≤ x.kind → 4 ≤ x.kind) × (is_operation x.kind ≡ false) × (9 ≤ x.kind → 13 ≤ x.kind)
        × (is_test_step x.kind ≡ false) × (32 ≤ x.kind → 34 ≤ x.kind) }
    ensures { (h : History) (a b c d : Option Float) → effect h s (op_of x) a b c d answer ≡ saying 0 result }
{
    if x.kind < kinds::ALL {
        return answer;
    }
    if x.kind < kinds::NOT {
        return x.kind == kinds::ALL;
    }
    if x.kind == kinds::NOT {
        return !answer;
    }
    if x.kind == kinds::IN_POSITION {
        return position(x.selector == 1, s.qty);
    }
    if x.kind == kinds::BARS_SINCE_ENTRY {
        return values::since_entry(x.selector, x.n, s);
    }
    answer
}

// The next place after p, of n places, where so many are passed over.
pub(crate) fn landing(p: usize, skip: u64, n: usize) -> usize
    requires { p < n }
    ensures { result ≡ min n (p + 1 + skip) }
{
    let after = n - p - 1;
    if skip < after as u64 {
        return p + 1 + skip as usize;
    }
    n
}
