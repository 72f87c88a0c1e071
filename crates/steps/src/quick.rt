// A quick yes to the steps that are most common. Every bar looks through its lists, so this is where a single bar's time goes. A step is
// two words: its constant, and the rest of it as one number, its head: kind + 256 selector + 65,536 skip + 2^32 n. A no says nothing.
ghost use Rattle.std.specs.Prelude.{◌≡◌, true, ℕ, ◌+◌, ◌<◌, ◌≤◌, length};
ghost use Rattle.steps.specs.Bytes.{of_words, read_step};
ghost use Rattle.steps.specs.WellFormed.{good_step};

use crate::decode;
use table::kinds;

// A head below this has a kind and a selector alone: no skip and no look-back.
const NO_SKIP: u64 = 65536;

// What a head's look-back is counted in.
const LOOK_BACK: u64 = 4294967296;

// The kinds, as a head has them.
const CONST: u64 = kinds::CONST as u64;

const REF: u64 = kinds::REF as u64;

const PRICE: u64 = kinds::PRICE as u64;

const JUMP_AT_NO: u64 = decode::JUMP_AT_NO as u64;

const PAST_JUMPS: u64 = decode::PAST_JUMPS as u64;

// A constant, a price, or a slot that the rows have: the look-back within the window, and what its kind does not use zero.
pub(crate) fn leaf_yes(head: u64, bits: u64, slots: u64, depth: u64) -> bool
    ensures { result ≡ true → (after : ℕ) → good_step slots depth after (of_words head bits) ≡ true }
{
    if depth <= head / LOOK_BACK {
        return false;
    }
    let low = head % LOOK_BACK;
    if low == CONST {
        return true;
    }
    if bits != 0 {
        return false;
    }
    if NO_SKIP <= low {
        return false;
    }
    if low % 256 == PRICE {
        return true;
    }
    if low % 256 == REF {
        return low / 256 < slots;
    }
    false
}

// A comparison, a cross or Between: every other field is zero.
pub(crate) fn test_yes(head: u64, bits: u64) -> bool
    ensures { result ≡ true → (slots depth after : ℕ) → good_step slots depth after (of_words head bits) ≡ true }
{
    if decode::is_test(head) {
        return bits == 0;
    }
    false
}

// A jump: selector zero. The rest of its head is skip + 65,536 n: at most `after`, so n is zero.
pub(crate) fn jump_yes(head: u64, bits: u64, after: u64) -> bool
    requires { after < 65536 }
    ensures { result ≡ true → (slots depth : ℕ) → good_step slots depth after (of_words head bits) ≡ true }
{
    if bits != 0 {
        return false;
    }
    if head % NO_SKIP < JUMP_AT_NO {
        return false;
    }
    if PAST_JUMPS <= head % NO_SKIP {
        return false;
    }
    head / NO_SKIP <= after
}

// A leaf whose bytes begin at `at`.
fn leaf_there(list: &[u8], at: usize, slots: u64, depth: u64) -> bool
    requires { at + 16 ≤ length list.now }
    ensures { result ≡ true → (after : ℕ) → good_step slots depth after (read_step list.now at) ≡ true }
{
    let head = decode::eight_at(list, at);
    let bits = decode::eight_at(list, at + 8);
    leaf_yes(head, bits, slots, depth)
}

// A test whose bytes begin at `at`.
fn test_there(list: &[u8], at: usize) -> bool
    requires { at + 16 ≤ length list.now }
    ensures { result ≡ true → (slots depth after : ℕ) → good_step slots depth after (read_step list.now at) ≡ true }
{
    let head = decode::eight_at(list, at);
    let bits = decode::eight_at(list, at + 8);
    test_yes(head, bits)
}

// A jump whose bytes begin at `at`, with so many steps after it.
fn jump_there(list: &[u8], at: usize, after: u64) -> bool
    requires { (at + 16 ≤ length list.now) × (after < 65536) }
    ensures { result ≡ true → (slots depth : ℕ) → good_step slots depth after (read_step list.now at) ≡ true }
{
    let head = decode::eight_at(list, at);
    let bits = decode::eight_at(list, at + 8);
    jump_yes(head, bits, after)
}

// Two leaves, a test and a jump: what All and Any make of a comparison. The test is asked for first: of the four it is the one that tells them
// from four other steps.
pub(crate) fn phrase_yes(list: &[u8], at: usize, slots: u64, depth: u64, after: u64) -> bool
    requires { (at + 64 ≤ length list.now) × (after < 65536) }
    ensures { result ≡ true →
        ((after : ℕ) → good_step slots depth after (read_step list.now at) ≡ true)
        × ((after : ℕ) → good_step slots depth after (read_step list.now (at + 16)) ≡ true)
        × ((after : ℕ) → good_step slots depth after (read_step list.now (at + 32)) ≡ true)
        × (good_step slots depth after (read_step list.now (at + 48)) ≡ true) }
{
    if test_there(list, at + 32) {
        if jump_there(list, at + 48, after) {
            if leaf_there(list, at, slots, depth) {
                return leaf_there(list, at + 16, slots, depth);
            }
        }
    }
    false
}
