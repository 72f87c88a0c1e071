// Which tests of a table fall silent over so few rows: a test that reaches back as many bars as there are rows, or more, answers no.
// Here they are nodes; that those are the tests of the table's trees is `silent_tests` of `needed`.
ghost use Rattle.std.specs.Prelude.{◌≡◌, ◌&&◌, ◌+◌, ◌≤◌, ◌<◌, leb, length, set};
ghost use Rattle.table.specs.Kinds.{is_test_kind};
ghost use Rattle.table.specs.Nodes.{node_at};
ghost use Rattle.table.specs.Checked.{checked};
ghost use Rattle.table.specs.Header.{root};
ghost use Rattle.table.specs.Forest.{forest_of};
ghost use Rattle.table.specs.Laws.Accepted.{WholeTree};
ghost use Rattle.table.specs.Silent.{WholeTrees, silent_answer, list_after_answer, silent_nodes, four_silent, put_all};

use crate::kinds::{CONDITION, OPERAND, kind_of};
use crate::nodes::node_at;
use crate::weighing::{Weight, weigh_tree};
use crate::{check, header};
use words::refusal::Refusal;

// The number of the list, as a room.
pub const ROOM_SILENT: u64 = 18;

// Whether the node is a test and reaches back `d` bars or more, where its subtree weighs `far`.
#[tactic(auto, unfolding(crate::specs::Kinds::is_test_kind))]
fn is_silent(t: &[u8], i: usize, far: u64, d: u64) -> bool
    ensures { result ≡ (is_test_kind (node_at t.now i).kind && leb d far) }
{
    let n = node_at(t, i);
    let row = kind_of(n.kind);
    row.sort == CONDITION && row.below == OPERAND && d <= far
}

// A number into a list, where the list has that place. `get_mut` does not say that a list without the place stays as it is.
fn put(list: &mut [u64], at: usize, x: u64)
    ensures { list.new ≡ set list.old at x }
{
    if at < list.len() {
        list[at] = x;
    }
}

// The silent tests of tree x, from place `at` of the list on, where there is a place. The next place is returned.
fn list_tree(t: &[u8], ends: &[usize; 256], d: u64, x: u8, list: &mut [u64], at: usize) -> usize
    requires x_bound { x < 4 }
    requires whole_tree { WholeTree t.now ends.now (root t.now x) (root t.now (x + 1)) }
    requires at_bound { at ≤ root t.now x }
    ensures value { (result ≡ at + length (silent_nodes d (forest_of t.now x))) × (result ≤ root t.now (x + 1)) }
    ensures list_after { list.new ≡ put_all list.old at (silent_nodes d (forest_of t.now x)) }
{
    let b = header::root(t, x);
    let e = header::root(t, x + 1);
    let far = weigh_tree(t, ends, Weight::Bars, b, e);
    let mut next = at;
    for i in b..e {
        if is_silent(t, i, far[i], d) {
            put(list, next, i as u64);
            next += 1;
        }
    }
    next
}

// Those of the four trees. How many there are is returned, whatever the list's length.
fn list_all(t: &[u8], ends: &[usize; 256], d: u64, list: &mut [u64]) -> usize
    requires { WholeTrees t.now ends.now }
    ensures value { result ≡ length (four_silent t.now d) }
    ensures list_after { list.new ≡ put_all list.old 0 (four_silent t.now d) }
{
    let p = list_tree(t, ends, d, 0, list, 0);
    let q = list_tree(t, ends, d, 1, list, p);
    let r = list_tree(t, ends, d, 2, list, q);
    list_tree(t, ends, d, 3, list, r)
}

// The node numbers of the tests that fall silent over `d` rows, in table order, into the list, which may be longer.
pub fn silent_nodes(t: &[u8], d: u64, list: &mut [u64]) -> Result<usize, Refusal>
    ensures value { result ≡ silent_answer (checked t.now) (four_silent t.now d) (length list.old) }
    ensures list_after { list.new ≡ list_after_answer result (four_silent t.now d) list.old }
{
    let checked = check(t);
    let answer = checked.answer;
    let ends = checked.ends;
    match answer {
        Err(refusal) => Err(refusal),
        Ok(_) => {
            let mut first = [0u64; 1];
            let count = list_all(t, &ends, d, &mut first);
            if list.len() < count {
                return Err(Refusal::Room(ROOM_SILENT));
            }
            Ok(list_all(t, &ends, d, list))
        }
    }
}
