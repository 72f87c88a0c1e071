// What rules 8 and 9 share: what each subtree weighs, from a tree's last node to its first. A node's weight is 1 where levels
// are counted, and what it adds to the reach where bars are. Weights are capped at 4,096, so no sum wraps.
ghost use Rattle.std.specs.Prelude.{◌≡◌, ◌+◌, ◌≤◌, ◌<◌, min};
ghost use Rattle.words.specs.Limits.{most_nodes, most_rows};
ghost use Rattle.table.specs.Nodes.{node_at};
ghost use Rattle.table.specs.Reach.{back};
ghost use Rattle.table.specs.Ends.{Linked};
ghost use Rattle.table.specs.Passes.{weight, Most, WordsFrom};

use crate::kinds::{Back, Kind, kind_of};
use crate::nodes::{Node, child_count_at, node_at};
use words::limits::MOST_ROWS;

// What is weighed: how many levels a subtree has, or how many bars it reads back.
#[derive(Clone, Copy, PartialEq, Eq, Debug)]
pub enum Weight {
    Levels,
    Bars,
}

pub fn capped(a: u64) -> u64
    ensures { result ≡ min a most_rows }
{
    a.min(MOST_ROWS as u64)
}

// What a node adds to the reach.
#[tactic(auto, unfolding(crate::specs::Reach::back))]
pub fn back_of(n: Node, w: Kind) -> u64
    ensures { result ≡ back n w }
{
    match w.back {
        Back::Nothing => 0,
        Back::ItsN => n.n,
        Back::OneBar => 1,
        Back::BarsBefore => n.n.saturating_sub(1),
    }
}

#[tactic(auto, unfolding(crate::specs::Passes::weight, crate::specs::Reach::own_back))]
fn weight_at(t: &[u8], what: Weight, i: usize) -> u64
    ensures { result ≡ min (weight what (node_at t.now i)) most_rows }
{
    match what {
        Weight::Levels => 1,
        Weight::Bars => {
            let n = node_at(t, i);
            let w = kind_of(n.kind);
            capped(back_of(n, w))
        }
    }
}

// The greatest word of node i's children.
fn most_below(t: &[u8], ends: &[usize; 256], words: &[u64; 256], i: usize, e: usize) -> u64
    requires i_lt_e { (i < e) × (e ≤ most_nodes) }
    requires linked { Linked t.now ends.now (i + 1) e }
    ensures { Most t.now words.now i e result }
{
    let children = child_count_at(t, i);
    let mut most: u64 = 0;
    let mut j = i + 1;
    for _ in 0..children {
        if e <= j {
            return most;
        }
        most = most.max(words[j]);
        j = ends[j];
    }
    most
}

pub(crate) fn weigh_tree(
    t: &[u8],
    ends: &[usize; 256],
    what: Weight,
    b: usize,
    e: usize,
) -> [u64; 256]
    requires b_le_e { (b ≤ e) × (e ≤ most_nodes) }
    requires linked { Linked t.now ends.now b e }
    ensures { WordsFrom t.now result (weight what) b e }
{
    let mut words = [0u64; 256];
    for i in (b..e).rev() {
        let own = weight_at(t, what, i);
        let most = most_below(t, ends, &words, i, e);
        let x = capped(own + most);
        words[i] = x;
    }
    words
}
