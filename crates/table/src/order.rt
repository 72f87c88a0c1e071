// Rule 7: each tree in prefix order. The array of subtree ends is filled on the way, from a tree's last node to its first. It is handed on
// beside the table: in a struct of two references each contract would say `whole.t.now` and `whole.ends.now`, and be longer.
ghost use Rattle.std.specs.Prelude.{◌≡◌, ◌+◌, ◌-◌, ◌≤◌, ◌<◌, true};
ghost use Rattle.words.specs.Limits.{most_nodes};
ghost use Rattle.table.specs.Nodes.{child_count_at, child_sort_at, child_fits_at};
ghost use Rattle.table.specs.Order.{misfit, misfits};
ghost use Rattle.table.specs.Passes.{Ended, EndedFrom, Ordered, AreRoots, EndedAll};

use crate::kinds::{CONDITION, kind_of};
use crate::nodes::{child_count, child_fits, node_at, sort_at};
use crate::places::first_place;
use crate::trees::Roots;

// From here on a word is no end, but the place where a subtree stops fitting and as much more. The two share a word, since the array of
// ends has one word a node and is handed on as it is once every word is an end.
const MISFIT_FROM: usize = 512;

// The end of the subtree that begins at node i, whose first child is one that it takes, or MISFIT_FROM more than the place where it stops
// fitting: past its `many` children of the sort `below`.
fn end_below(t: &[u8], ends: &[usize; 256], i: usize, e: usize, below: u8, many: usize) -> usize
    requires i_lt_e { (i < e) × (e ≤ most_nodes) }
    requires ended_from { EndedFrom t.now ends.now (i + 1) e }
    requires i_value { (child_fits_at t.now i ≡ true) × (many ≡ child_count_at t.now i) × (below ≡ child_sort_at t.now i) }
    ensures { Ended t.now e i result }
{
    let mut j = i + 1;
    for _ in 0..many {
        if e <= j {
            return MISFIT_FROM + j;
        }
        if sort_at(t, j) != below {
            return MISFIT_FROM + j;
        }
        let v = ends[j];
        if MISFIT_FROM <= v {
            return v;
        }
        j = v;
    }
    j
}

// The end of the subtree that begins at node i, or MISFIT_FROM more than the place where it stops fitting.
fn end_of(t: &[u8], ends: &[usize; 256], i: usize, e: usize) -> usize
    requires i_lt_e { (i < e) × (e ≤ most_nodes) }
    requires ended_from { EndedFrom t.now ends.now (i + 1) e }
    ensures { Ended t.now e i result }
{
    let node = node_at(t, i);
    let row = kind_of(node.kind);
    if child_fits(t, row, i + 1) {
        end_below(t, ends, i, e, row.below, child_count(node, row))
    } else {
        MISFIT_FROM + (i + 1)
    }
}

// The ends of one tree, of the nodes from b up to e.
fn order_tree(t: &[u8], given: [usize; 256], b: usize, e: usize) -> [usize; 256]
    requires { (b ≤ e) × (e ≤ most_nodes) }
    ensures { Ordered t.now b e given result }
{
    let mut ends = given;
    for i in (b..e).rev() {
        let v = end_of(t, &ends, i, e);
        ends[i] = v;
    }
    ends
}

fn misfit_of(t: &[u8], ends: &[usize; 256], b: usize, e: usize) -> Option<usize>
    requires b_le_e { (b ≤ e) × (e ≤ most_nodes) }
    requires ended_from { EndedFrom t.now ends.now b e }
    ensures { result ≡ misfit t.now (e - b) b }
{
    if e <= b {
        return None;
    }
    if sort_at(t, b) != CONDITION {
        return Some(b);
    }
    let v = ends[b];
    if MISFIT_FROM <= v {
        return Some(v - MISFIT_FROM);
    }
    if v < e {
        return Some(v);
    }
    None
}

// The ends of the four trees.
pub(crate) fn order_all(t: &[u8], roots: Roots) -> [usize; 256]
    requires { AreRoots t.now roots }
    ensures { EndedAll t.now result roots }
{
    let none = [0usize; 256];
    let one = order_tree(t, none, 0, roots.exit);
    let two = order_tree(t, one, roots.exit, roots.short_entry);
    let three = order_tree(t, two, roots.short_entry, roots.short_exit);
    order_tree(t, three, roots.short_exit, roots.end)
}

// The first place where one of the four trees stops fitting.
pub(crate) fn misfits_of(t: &[u8], ends: &[usize; 256], roots: Roots) -> Option<usize>
    requires roots { AreRoots t.now roots }
    requires ended_all { EndedAll t.now ends.now roots }
    ensures { result ≡ misfits t.now }
{
    let p = misfit_of(t, ends, 0, roots.exit);
    let q = misfit_of(t, ends, roots.exit, roots.short_entry);
    let r = misfit_of(t, ends, roots.short_entry, roots.short_exit);
    let s = misfit_of(t, ends, roots.short_exit, roots.end);
    first_place(p, q, r, s)
}
