// Steps written into a lent room: a step's bytes, the steps of an operand, and those of the tests on operands.
ghost use Rattle.std.specs.Prelude.{◌≡◌, [], ◌∷◌, ◌++◌, ℕ, ◌+◌, ◌-◌, ◌*◌, ◌%◌, ◌≤◌, length};
ghost use Rattle.table.specs.Trees.{Operand, reach, reach_of, cross, between};
ghost use Rattle.rules.specs.Flat.{flat_operand_at};
ghost use Rattle.steps.specs.Bytes.{four, fields, slot_kind, step_bytes, write_at, Fits, Wrote};
ghost use Rattle.steps.specs.declared.step.Op.TheVariants as Op;
ghost use Rattle.steps.specs.Translation.{code, trend_test, code_of};

use rules::shapes;
use rules::shapes::OperandShape;
use steps::decode;
use table::kinds;
use table::series::{Series, series_in};

// Four bytes, the first at p. A store for each, so that an edit can put one of them into another step and leave the others.
fn put_four(room: &mut [u8], p: usize, a: u8, b: u8, c: u8, d: u8)
    requires { p + 4 ≤ length room.old }
    ensures { room.new ≡ write_at room.old p (a ∷ b ∷ c ∷ d ∷ []) }
{
    room[p] = a;
    room[p + 1] = b;
    room[p + 2] = c;
    room[p + 3] = d;
}

// The lowest byte of a number: one call of the library, with a name since seven bytes are written by it.
fn low(n: u64) -> u8
    ensures { result ≡ n % 256 }
{
    n.to_le_bytes()[0]
}

// A number of 32 bits, the first byte at p.
fn put_number(room: &mut [u8], p: usize, n: u64)
    requires { p + 4 ≤ length room.old }
    ensures { room.new ≡ write_at room.old p (four n) }
{
    put_four(
        room,
        p,
        low(n),
        low(n / 256),
        low(n / 65536),
        low(n / 16777216),
    );
}

// The step at place `at`, by its fields. The next place is returned.
pub(crate) fn put_step(
    room: &mut [u8],
    at: usize,
    kind: u8,
    selector: u64,
    skip: u64,
    n: u64,
    bits: u64,
) -> usize
    requires { 16 * (at + 1) ≤ length room.old }
    ensures value { result ≡ at + 1 }
    ensures room_after { room.new ≡ write_at room.old (16 * at) (step_bytes (fields kind selector skip n bits)) }
{
    let p = 16 * at;
    put_four(room, p, kind, low(selector), low(skip), low(skip / 256));
    put_number(room, p + 4, n);
    put_number(room, p + 8, bits % 4294967296);
    put_number(room, p + 12, bits / 4294967296);
    at + 1
}

// The kind of a step of Highest or Lowest over a slot.
fn slot_kind(kind: u8) -> u8
    ensures { result ≡ slot_kind kind }
{
    if kind == kinds::HIGHEST {
        return decode::HIGHEST_SLOT;
    }
    decode::LOWEST_SLOT
}

// The step of Highest or Lowest over n rows, the newest of them `back` rows back.
fn put_extreme(room: &mut [u8], at: usize, kind: u8, over: Series, n: u64, back: u64) -> usize
    requires { (back + (n - 1) ≤ 8192) × Fits room.old at (Op.Extreme kind over n back ∷ []) }
    ensures { Wrote room.old at (Op.Extreme kind over n back ∷ []) room.new result }
{
    let oldest = back + n.saturating_sub(1);
    match over {
        Series::Price(selector) => put_step(room, at, kind, selector as u64, n, oldest, 0),
        Series::Slot(slot) => put_step(room, at, slot_kind(kind), slot, n, oldest, 0),
    }
}

// The steps of the operand at node i, `back` rows back, from place `at` on. The next free place is returned. `left` levels of nesting
// are left, the node's own counted.
pub(crate) fn emit_operand(
    t: &[u8],
    ends: &[usize; 256],
    i: usize,
    back: u64,
    left: usize,
    room: &mut [u8],
    at: usize,
) -> usize
    requires i_bound { back + reach (flat_operand_at left t.now ends.now i) ≤ 8192 }
    requires fits { Fits room.old at (code (flat_operand_at left t.now ends.now i) back) }
    ensures { Wrote room.old at (code (flat_operand_at left t.now ends.now i) back) room.new result }
{
    if left == 0 {
        return put_step(room, at, kinds::CONST, 0, 0, back, 0);
    }
    match shapes::operand_shape(t, ends, i) {
        OperandShape::Const(bits) => put_step(room, at, kinds::CONST, 0, 0, back, bits),
        OperandShape::Ref(slot) => put_step(room, at, kinds::REF, slot, 0, back, 0),
        OperandShape::Price(selector) => put_step(
            room,
            at,
            kinds::PRICE,
            selector as u64,
            0,
            back,
            0,
        ),
        OperandShape::Prev(a, n) => emit_operand(t, ends, a, back + n, left - 1, room, at),
        OperandShape::Arith(kind, a, b) => {
            let p = emit_operand(t, ends, a, back, left - 1, room, at);
            let q = emit_operand(t, ends, b, back, left - 1, room, p);
            put_step(room, q, kind, 0, 0, 0, 0)
        }
        OperandShape::Extreme(kind, a, n) => {
            let over = series_in(t, a);
            put_extreme(room, at, kind, over, n, back)
        }
        OperandShape::NoOperand => put_step(room, at, kinds::CONST, 0, 0, back, 0),
    }
}

// The steps of the operands at nodes a and b, the first m rows back and the second n.
fn emit_two(
    t: &[u8],
    ends: &[usize; 256],
    a: usize,
    m: u64,
    b: usize,
    n: u64,
    left: usize,
    room: &mut [u8],
    at: usize,
) -> usize
    requires operand { (let o : ℕ → Operand = flat_operand_at left t.now ends.now in (m + reach (o a) ≤ 8192) × (n + reach (o b) ≤ 8192)) }
    requires operand_2 { (let o : ℕ → Operand = flat_operand_at left t.now ends.now in Fits room.old at (code (o a) m ++ code (o b) n)) }
    ensures { (let o : ℕ → Operand = flat_operand_at left t.now ends.now in
        Wrote room.old at (code (o a) m ++ code (o b) n) room.new result) }
{
    let p = emit_operand(t, ends, a, m, left, room, at);
    emit_operand(t, ends, b, n, left, room, p)
}

// The steps of a comparison: the operand at node a now, the one at node b n rows back.
pub(crate) fn emit_compare(
    t: &[u8],
    ends: &[usize; 256],
    kind: u8,
    a: usize,
    b: usize,
    n: u64,
    left: usize,
    room: &mut [u8],
    at: usize,
) -> usize
    requires operand { (let o : ℕ → Operand = flat_operand_at left t.now ends.now in (0 + reach (o a) ≤ 8192) × (n + reach (o b) ≤ 8192)) }
    requires operand_2 { (let o : ℕ → Operand = flat_operand_at left t.now ends.now in
        Fits room.old at ((code (o a) 0 ++ code (o b) n) ++ Op.Compare kind ∷ [])) }
    ensures { (let o : ℕ → Operand = flat_operand_at left t.now ends.now in
        Wrote room.old at ((code (o a) 0 ++ code (o b) n) ++ Op.Compare kind ∷ []) room.new result) }
{
    let p = emit_two(t, ends, a, 0, b, n, left, room, at);
    put_step(room, p, kind, 0, 0, 0, 0)
}

// The kind that Rising or Falling compares by.
pub(crate) fn trend_test(kind: u8) -> u8
    ensures { result ≡ trend_test kind }
{
    if kind == kinds::RISING {
        kinds::GT
    } else {
        kinds::LT
    }
}

// The steps of a cross: both operands now, both one row back.
pub(crate) fn emit_cross(
    t: &[u8],
    ends: &[usize; 256],
    kind: u8,
    a: usize,
    b: usize,
    left: usize,
    room: &mut [u8],
    at: usize,
) -> usize
    requires b_bound { reach_of (cross kind (flat_operand_at left t.now ends.now a) (flat_operand_at left t.now ends.now b)) ≤ 4096 }
    requires fits { Fits room.old at (code_of (cross kind (flat_operand_at left t.now ends.now a) (flat_operand_at left t.now ends.now b))) }
    ensures { (let o : ℕ → Operand = flat_operand_at left t.now ends.now in
        Wrote room.old at (code_of (cross kind (o a) (o b))) room.new result) }
{
    let p = emit_two(t, ends, a, 0, b, 0, left, room, at);
    let q = emit_two(t, ends, a, 1, b, 1, left, room, p);
    put_step(room, q, kind, 0, 0, 0, 0)
}

// The steps of Between: the value, the low end, the high end.
pub(crate) fn emit_between(
    t: &[u8],
    ends: &[usize; 256],
    x: usize,
    low: usize,
    high: usize,
    left: usize,
    room: &mut [u8],
    at: usize,
) -> usize
    requires high_bound { (let o : ℕ → Operand = flat_operand_at left t.now ends.now in reach_of (between (o x) (o low) (o high)) ≤ 4096) }
    requires operand { (let o : ℕ → Operand = flat_operand_at left t.now ends.now in Fits room.old at (code_of (between (o x) (o low) (o high)))) }
    ensures { (let o : ℕ → Operand = flat_operand_at left t.now ends.now in
        Wrote room.old at (code_of (between (o x) (o low) (o high))) room.new result) }
{
    let p = emit_operand(t, ends, x, 0, left, room, at);
    let q = emit_two(t, ends, low, 0, high, 0, left, room, p);
    put_step(room, q, kinds::BETWEEN, 0, 0, 0, 0)
}
