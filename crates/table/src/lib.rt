#![tactic(auto)]
// The rule table: its bytes, its nodes, the table of kinds, and the checker with its refusals 1 to 9.
pub mod answer;
pub mod bytes;
pub mod header;
pub mod kinds;
mod nesting;
pub mod nodes;
mod order;
pub mod places;
pub mod reach;
pub mod series;
pub mod silent;
pub mod trees;
mod weighing;

ghost use Rattle.std.specs.Prelude.{◌≡◌, replicate, None, Err};
ghost use Rattle.words.specs.Limits.{most_nodes};
ghost use Rattle.table.specs.Header.{header_refusal};
ghost use Rattle.table.specs.Checked.{checked, checked_up_to, from7, from8, from9};
ghost use Rattle.table.specs.Ends.{ends_all, ends_for, ends_beside};
ghost use Rattle.table.specs.Passes.{AreRoots, LinkedAll};

use answer::{Accepted, Checked};
use nesting::too_deep;
use nodes::wrong_node;
use order::{misfits_of, order_all};
use reach::far_or_accepted;
use trees::Roots;
use words::refusal::Refusal;

fn refused(refusal: Refusal) -> Checked
    ensures { (result.answer ≡ Err refusal) × (result.ends ≡ replicate most_nodes 0) }
{
    Checked {
        answer: Err(refusal),
        ends: [0usize; 256],
    }
}

fn check_reach(t: &[u8], ends: [usize; 256], roots: Roots) -> Checked
    requires roots { AreRoots t.now roots }
    requires linked_all { LinkedAll t.now ends roots }
    ensures { (result.answer ≡ from9 t.now) × (result.ends ≡ ends_for (from9 t.now) ends) }
{
    let answer = far_or_accepted(t, &ends, roots);
    match answer {
        Err(refusal) => refused(refusal),
        Ok(Accepted { nodes, rows }) => Checked {
            answer: Ok(Accepted { nodes, rows }),
            ends,
        },
    }
}

fn check_nesting(t: &[u8], ends: [usize; 256], roots: Roots) -> Checked
    requires roots { AreRoots t.now roots }
    requires linked_all { LinkedAll t.now ends roots }
    ensures { (result.answer ≡ from8 t.now) × (result.ends ≡ ends_for (from8 t.now) ends) }
{
    let deep = too_deep(t, &ends, roots);
    match deep {
        Some(p) => refused(Refusal::Nesting(p as u64)),
        None => check_reach(t, ends, roots),
    }
}

fn check_order(t: &[u8], roots: Roots) -> Checked
    requires { AreRoots t.now roots }
    ensures { (result.answer ≡ from7 t.now) × (result.ends ≡ ends_for (from7 t.now) (ends_all t.now)) }
{
    let ends = order_all(t, roots);
    let bad = misfits_of(t, &ends, roots);
    match bad {
        Some(p) => refused(Refusal::Tree(p as u64)),
        None => check_nesting(t, ends, roots),
    }
}

fn check_nodes(t: &[u8], newest: usize) -> Checked
    requires { header_refusal newest t.now ≡ None }
    ensures { (result.answer ≡ checked_up_to newest t.now)
        × (result.ends ≡ ends_for (checked_up_to newest t.now) (ends_all t.now)) }
{
    let total = header::total(t);
    let wrong = wrong_node(t, total);
    match wrong {
        Some(p) => refused(Refusal::Node(p as u64)),
        None => {
            let exit = header::root(t, 1);
            let short_entry = header::root(t, 2);
            let short_exit = header::root(t, 3);
            let end = total;
            check_order(
                t,
                Roots {
                    exit,
                    short_entry,
                    short_exit,
                    end,
                },
            )
        }
    }
}

// The answer of a reader of versions 1 to `newest` to a table, whatever its bytes are, and the subtree ends of an accepted one (all
// 0 beside a refusal).
pub fn check_up_to(t: &[u8], newest: usize) -> Checked
    ensures { (result.answer ≡ checked_up_to newest t.now)
        × (result.ends ≡ ends_for (checked_up_to newest t.now) (ends_all t.now)) }
{
    match header::header_refusal(t, newest) {
        Some(refusal) => refused(refusal),
        None => check_nodes(t, newest),
    }
}

// The answer to a table of any version that there is.
pub fn check(t: &[u8]) -> Checked
    ensures { (result.answer ≡ checked t.now) × (result.ends ≡ ends_beside t.now) }
{
    check_up_to(t, header::NEWEST)
}
