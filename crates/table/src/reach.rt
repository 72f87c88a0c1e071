// Rule 9: a reach above 4,095; and the rows that the table needs.
ghost use Rattle.std.specs.Prelude.{◌≡◌, ◌+◌, ◌-◌, ◌≤◌, ◌<◌, min, max, get_or};
ghost use Rattle.words.specs.Limits.{most_nodes, most_rows};
ghost use Rattle.table.specs.Order.{first_place};
ghost use Rattle.table.specs.Forest.{trees};
ghost use Rattle.table.specs.Reach.{forest_reach, far_at};
ghost use Rattle.table.specs.Ends.{Linked};
ghost use Rattle.table.specs.Checked.{from9};
ghost use Rattle.table.specs.Passes.{AreRoots, LinkedAll};

use crate::answer::Accepted;
use crate::places::first_place;
use crate::trees::Roots;
use crate::weighing::{Weight, capped, weigh_tree};
use words::limits::MOST_REACH;
use words::refusal::Refusal;

// How far back one tree reads, capped at 4,096.
fn reach_of(t: &[u8], ends: &[usize; 256], b: usize, e: usize) -> u64
    requires b_le_e { (b ≤ e) × (e ≤ most_nodes) }
    requires linked { Linked t.now ends.now b e }
    requires b_value { b < e → get_or ends.now b 0 ≡ e }
    ensures { result ≡ min (forest_reach (trees t.now (e - b) b)) most_rows }
{
    if e <= b {
        return 0;
    }
    let far = weigh_tree(t, ends, Weight::Bars, b, e);
    far[b]
}

fn far_at(reach: u64, b: usize) -> Option<usize>
    ensures { result ≡ far_at reach b }
{
    if MOST_REACH < reach { Some(b) } else { None }
}

fn too_far(w: u64, x: u64, y: u64, z: u64, roots: Roots) -> Option<usize>
    ensures { result ≡ first_place (far_at w 0) (far_at x roots.exit) (far_at y roots.short_entry) (far_at z roots.short_exit) }
{
    let p = far_at(w, 0);
    let q = far_at(x, roots.exit);
    let r = far_at(y, roots.short_entry);
    let s = far_at(z, roots.short_exit);
    first_place(p, q, r, s)
}

fn rows_needed(w: u64, x: u64, y: u64, z: u64) -> u64
    ensures { result ≡ min (max (max w x) (max y z)) most_rows + 1 }
{
    let most = w.max(x).max(y.max(z));
    capped(most) + 1
}

// Rule 9, and the answer where no rule is broken.
pub(crate) fn far_or_accepted(
    t: &[u8],
    ends: &[usize; 256],
    roots: Roots,
) -> Result<Accepted, Refusal>
    requires roots { AreRoots t.now roots }
    requires linked_all { LinkedAll t.now ends.now roots }
    ensures { result ≡ from9 t.now }
{
    let w = reach_of(t, ends, 0, roots.exit);
    let x = reach_of(t, ends, roots.exit, roots.short_entry);
    let y = reach_of(t, ends, roots.short_entry, roots.short_exit);
    let z = reach_of(t, ends, roots.short_exit, roots.end);
    let far = too_far(w, x, y, z, roots);
    let nodes = roots.end;
    let rows = rows_needed(w, x, y, z);
    match far {
        Some(p) => Err(Refusal::Reach(p as u64)),
        None => Ok(Accepted { nodes, rows }),
    }
}
