// Nodes, what the table of kinds says of them, and rule 6: their own bytes.
ghost use Rattle.std.specs.Prelude.{◌≡◌};
ghost use Rattle.table.specs.Kinds.{kind_of};
ghost use Rattle.table.specs.Nodes.{node_at, kind_right, children_right, n_right, constant_right, fields_right, own_right, wrong_node};
ghost use Rattle.table.specs.Nodes.{sort_at, child_count, child_count_at, child_fits};

use crate::bytes::{byte, read16, read32, read64};
use crate::header::{Form, form_of};
use crate::kinds::{Children, Kind, NumberUse, SECOND, kind_of, since_of};
use words::limits::MOST_REACH;

// A node: its number in the table, and its fields.
#[derive(Clone, Copy)]
pub struct Node {
    pub number: usize,
    pub kind: u8,
    pub selector: u8,
    pub children: usize,
    pub n: u64,
    pub constant: u64,
}

// Node i; past the end of the table every field but the number is 0.
pub fn node_at(t: &[u8], i: usize) -> Node
    ensures { result ≡ node_at t.now i }
{
    if i < t.len() / 16 {
        let at = 16 * i;
        let kind = byte(t, 16 + at);
        let selector = byte(t, 17 + at);
        let children = read16(t, 18 + at);
        let n = read32(t, 20 + at);
        let constant = read64(t, 24 + at);
        Node {
            number: i,
            kind,
            selector,
            children,
            n,
            constant,
        }
    } else {
        Node {
            number: i,
            kind: 0,
            selector: 0,
            children: 0,
            n: 0,
            constant: 0,
        }
    }
}

#[tactic(auto, unfolding(crate::specs::Nodes::kind_right))]
fn kind_right(version: usize, kind: u8) -> bool
    ensures { result ≡ kind_right version kind }
{
    since_of(kind) != SECOND || SECOND as usize <= version
}

#[tactic(auto, unfolding(crate::specs::Nodes::children_right))]
fn children_right(children: usize, takes: Children) -> bool
    ensures { result ≡ children_right children takes }
{
    match takes {
        Children::AsWritten => true,
        Children::Exactly(_) => children == 0,
    }
}

#[tactic(auto, unfolding(crate::specs::Nodes::n_right))]
fn n_right(k: u8, n: u64, used: NumberUse) -> bool
    ensures { result ≡ n_right k n used }
{
    match used {
        NumberUse::Unused => n == 0,
        NumberUse::Slot => n < k as u64,
        NumberUse::AnyNumber => true,
        NumberUse::BarCount => 1 <= n && n <= MOST_REACH,
    }
}

#[tactic(auto, unfolding(crate::specs::Nodes::constant_right))]
fn constant_right(bits: u64, used: bool) -> bool
    ensures { result ≡ constant_right bits used }
{
    if used {
        floats::word_is_finite(bits)
    } else {
        bits == 0
    }
}

#[tactic(auto, unfolding(crate::specs::Nodes::fields_right))]
fn fields_right(k: u8, n: Node, w: Kind) -> bool
    ensures { result ≡ fields_right k n w }
{
    n.selector < w.selectors
        && children_right(n.children, w.children)
        && n_right(k, n.n, w.n)
        && constant_right(n.constant, w.constant)
}

#[tactic(auto, unfolding(crate::specs::Nodes::own_right))]
fn own_right(form: Form, n: Node, w: Kind) -> bool
    ensures { result ≡ own_right form n w }
{
    w.sort != 0 && kind_right(form.version, n.kind) && fields_right(form.slots, n, w)
}

// Whether node i's own bytes are right, in a table of the form given.
fn node_right(t: &[u8], form: Form, i: usize) -> bool
    ensures { result ≡ own_right form (node_at t.now i) (kind_of (node_at t.now i).kind) }
{
    let n = node_at(t, i);
    let w = kind_of(n.kind);
    own_right(form, n, w)
}

// Rule 6: the lowest wrong node of the first `total`.
pub fn wrong_node(t: &[u8], total: usize) -> Option<usize>
    ensures { result ≡ wrong_node t.now total 0 }
{
    let form = form_of(t);
    for i in 0..total {
        if !node_right(t, form, i) {
            return Some(i);
        }
    }
    None
}

// Node i's sort.
#[tactic(auto, unfolding(crate::specs::Nodes::sort_at))]
pub fn sort_at(t: &[u8], i: usize) -> u8
    ensures { result ≡ sort_at t.now i }
{
    let n = node_at(t, i);
    let w = kind_of(n.kind);
    w.sort
}

// How many children a node takes, by its kind's row.
#[tactic(auto, unfolding(crate::specs::Nodes::child_count))]
pub fn child_count(n: Node, w: Kind) -> usize
    ensures { result ≡ child_count n w }
{
    match w.children {
        Children::AsWritten => n.children,
        Children::Exactly(count) => count as usize,
    }
}

// How many children node i takes.
#[tactic(auto, unfolding(crate::specs::Nodes::child_count_at))]
pub fn child_count_at(t: &[u8], i: usize) -> usize
    ensures { result ≡ child_count_at t.now i }
{
    let n = node_at(t, i);
    let w = kind_of(n.kind);
    child_count(n, w)
}

// Whether node `next` may be a child of a node with this row, its sort apart: Highest and Lowest take a Price or a Ref alone.
#[tactic(auto, unfolding(crate::specs::Nodes::child_fits))]
pub fn child_fits(t: &[u8], w: Kind, next: usize) -> bool
    ensures { result ≡ child_fits w (kind_of (node_at t.now next).kind) }
{
    if w.series.takes_series() {
        let n = node_at(t, next);
        let child = kind_of(n.kind);
        child.series.is_series()
    } else {
        true
    }
}
