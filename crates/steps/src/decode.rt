// A step's 16 bytes, read and taken for what they say.
ghost use Rattle.std.specs.Prelude.{◌≡◌, ◌+◌, ◌-◌, ◌*◌, ◌<◌, ◌≤◌, length};
ghost use Rattle.table.specs.Bytes.{u16, u32, u64};
ghost use Rattle.steps.specs.Bytes.{read_step, step_at, steps_in, op_of, extreme_op, operand_op, test_op, answer_op};
ghost use Rattle.steps.specs.Bytes.{is_operation, is_comparison, is_test_step};

use crate::step::{Op, Step};
use table::kinds;
use table::series::Series;

// A step has the number of the kind that it stands for. Jumps stand for no kind and have numbers of their own.
pub const JUMP_AT_NO: u8 = 32;

pub const JUMP_AT_YES: u8 = 33;

// No step has this number or a larger one.
pub(crate) const PAST_JUMPS: u8 = 34;

// Highest and Lowest over a price have the kind's number; over a slot they have numbers of their own.
pub const HIGHEST_SLOT: u8 = 11;

pub const LOWEST_SLOT: u8 = 12;

// The number just past those of Highest and Lowest.
pub(crate) const PAST_LOOKS: u8 = 13;

// The steps of operands come first, then those that test values.
const FIRST_TEST: u8 = kinds::GT;

// Whether a step is an operation on two values.
#[tactic(auto, unfolding(crate::specs::Bytes::is_operation))]
pub(crate) fn is_operation(step: u8) -> bool
    ensures { result ≡ is_operation step }
{
    (kinds::ADD..kinds::HIGHEST).contains(&step)
}

// Whether a step compares two values.
#[tactic(auto, unfolding(crate::specs::Bytes::is_comparison))]
pub(crate) fn is_comparison(step: u8) -> bool
    ensures { result ≡ is_comparison step }
{
    (FIRST_TEST..kinds::CROSS_ABOVE).contains(&step)
}

// Whether a step tests values: a comparison, a cross or Between. It takes 64 bits, since it is asked of a step's first eight bytes as one
// number too, of which the kind is the lowest: a yes says that the others are zero.
#[tactic(auto, unfolding(crate::specs::Bytes::is_test_step))]
pub(crate) fn is_test(step: u64) -> bool
    ensures { result ≡ is_test_step step }
{
    (FIRST_TEST as u64..kinds::RISING as u64).contains(&step)
}

// Little-endian numbers of 16, 32 and 64 bits, with no test of their own: a run decodes every step that it visits.
fn two_at(list: &[u8], at: usize) -> u64
    requires { at + 2 ≤ length list.now }
    ensures { (result ≡ u16 list.now at) × (result < 65536) }
{
    u64::from(list[at]) + 256 * u64::from(list[at + 1])
}

fn four_at(list: &[u8], at: usize) -> u64
    requires { at + 4 ≤ length list.now }
    ensures { (result ≡ u32 list.now at) × (result < 4294967296) }
{
    two_at(list, at) + 65536 * two_at(list, at + 2)
}

pub(crate) fn eight_at(list: &[u8], at: usize) -> u64
    requires { at + 8 ≤ length list.now }
    ensures { result ≡ u64 list.now at }
{
    four_at(list, at) + 4294967296 * four_at(list, at + 4)
}

// The step at place p, where its first eight bytes are a number below 65,536: kind and selector, and no skip and no look-back.
pub(crate) fn near_step(list: &[u8], p: usize, head: u64) -> Step
    requires { (p < steps_in list.now) × (head ≡ u64 list.now (16 * p)) × (head < 65536) }
    ensures { result ≡ step_at list.now p }
{
    Step {
        kind: (head % 256) as u8,
        selector: (head / 256) as u8,
        skip: 0,
        n: 0,
        bits: eight_at(list, 16 * p + 8),
    }
}

// The fields of the step whose bytes begin at `at`.
pub(crate) fn read_step(list: &[u8], at: usize) -> Step
    requires { at + 16 ≤ length list.now }
    ensures { (result ≡ read_step list.now at) × (result.skip < 65536) }
{
    Step {
        kind: list[at],
        selector: list[at + 1],
        skip: two_at(list, at + 2),
        n: four_at(list, at + 4),
        bits: eight_at(list, at + 8),
    }
}

// The fields of the step at place p, which the list has.
pub(crate) fn step_at(list: &[u8], p: usize) -> Step
    requires { p < steps_in list.now }
    ensures { (result ≡ step_at list.now p) × (result.skip < 65536) }
{
    read_step(list, 16 * p)
}

// The look-back to the newest of n rows, from that to the oldest; 0 where there are not so many.
pub(crate) fn newest_back(oldest: u64, n: u64) -> u64
    ensures { result ≡ oldest - (n - 1) }
{
    oldest.saturating_sub(n.saturating_sub(1))
}

// What a step of Highest or Lowest says: kinds 9 to 12.
fn extreme_op(x: Step) -> Op
    requires { (9 ≤ x.kind) × (x.kind < 13) }
    ensures { result ≡ extreme_op x }
{
    let back = newest_back(x.n, x.skip);
    if x.kind < HIGHEST_SLOT {
        return Op::Extreme(x.kind, Series::Price(x.selector), x.skip, back);
    }
    Op::Extreme(x.kind - 2, Series::Slot(x.selector as u64), x.skip, back)
}

// What a step of an operand says.
fn operand_op(x: Step) -> Op
    ensures { result ≡ operand_op x }
{
    if x.kind == kinds::CONST {
        return Op::Const(x.bits, x.n);
    }
    if x.kind == kinds::REF {
        return Op::Ref(x.selector, x.n);
    }
    if x.kind == kinds::PRICE {
        return Op::Price(x.selector, x.n);
    }
    if x.kind < kinds::ADD {
        return Op::Unknown;
    }
    if is_operation(x.kind) {
        return Op::Arith(x.kind);
    }
    if x.kind <= LOWEST_SLOT {
        return extreme_op(x);
    }
    Op::Unknown
}

// What a step that tests values says.
fn test_op(x: Step) -> Op
    ensures { result ≡ test_op x }
{
    if is_comparison(x.kind) {
        return Op::Compare(x.kind);
    }
    if x.kind < kinds::BETWEEN {
        return Op::Cross(x.kind);
    }
    if x.kind == kinds::BETWEEN {
        return Op::Between;
    }
    Op::Unknown
}

// What a step that sets, turns or reads the answer says.
fn answer_op(x: Step) -> Op
    ensures { result ≡ answer_op x }
{
    if x.kind < kinds::NOT {
        return Op::Answer(x.kind == kinds::ALL);
    }
    if x.kind == kinds::NOT {
        return Op::Turn;
    }
    if x.kind == kinds::IN_POSITION {
        return Op::InPosition(x.selector == 1);
    }
    if x.kind == kinds::BARS_SINCE_ENTRY {
        return Op::BarsSinceEntry(x.selector, x.n);
    }
    if x.kind < PAST_JUMPS {
        return Op::JumpIf(x.kind == JUMP_AT_YES, x.skip);
    }
    Op::Unknown
}

// What a step says.
pub fn op_of(x: Step) -> Op
    ensures { result ≡ op_of x }
{
    if x.kind < FIRST_TEST {
        return operand_op(x);
    }
    if x.kind < kinds::ALL {
        return test_op(x);
    }
    answer_op(x)
}
