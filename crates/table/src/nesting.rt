// Rule 8: nesting above 32.
ghost use Rattle.std.specs.Prelude.{◌≡◌, ◌-◌, ◌≤◌};
ghost use Rattle.words.specs.Limits.{most_nesting, most_nodes};
ghost use Rattle.table.specs.Forest.{trees};
ghost use Rattle.table.specs.Nesting.{deeper, too_deep};
ghost use Rattle.table.specs.Ends.{Linked};
ghost use Rattle.table.specs.Passes.{AreRoots, LinkedAll};

use crate::places::first_place;
use crate::trees::Roots;
use crate::weighing::{Weight, weigh_tree};
use words::limits::MOST_NESTING;

// The first node of one tree below more than 32 levels: down where a subtree is too tall, past it where it is not.
fn deep_of(t: &[u8], ends: &[usize; 256], b: usize, e: usize) -> Option<usize>
    requires b_le_e { (b ≤ e) × (e ≤ most_nodes) }
    requires linked { Linked t.now ends.now b e }
    ensures { result ≡ deeper most_nesting (trees t.now (e - b) b) }
{
    let tall = weigh_tree(t, ends, Weight::Levels, b, e);
    let mut left: u64 = MOST_NESTING as u64;
    let mut j = b;
    // what comes after node j is the next node or its subtree's end, so no range gives it
    while j < e {
        if left == 0 {
            return Some(j);
        }
        if left < tall[j] {
            left -= 1;
            j += 1;
        } else {
            j = ends[j];
        }
    }
    None
}

// The first node of the four trees below more than 32 levels.
pub(crate) fn too_deep(t: &[u8], ends: &[usize; 256], roots: Roots) -> Option<usize>
    requires roots { AreRoots t.now roots }
    requires linked_all { LinkedAll t.now ends.now roots }
    ensures { result ≡ too_deep t.now }
{
    let p = deep_of(t, ends, 0, roots.exit);
    let q = deep_of(t, ends, roots.exit, roots.short_entry);
    let r = deep_of(t, ends, roots.short_entry, roots.short_exit);
    let s = deep_of(t, ends, roots.short_exit, roots.end);
    first_place(p, q, r, s)
}
