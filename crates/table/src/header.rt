// The header, and rules 1 to 5.
ghost use Rattle.std.specs.Prelude.{◌≡◌, ◌<◌, ◌≤◌, ◌*◌};
ghost use Rattle.table.specs.Header as Header;
ghost use Rattle.table.specs.Header.{form_of, mark_right, version_right, counts_right, header_refusal};

use crate::bytes::{byte, read16};
use words::limits::{MOST_NODES, MOST_SLOTS};
use words::refusal::Refusal;

// The newest version of a table that there is.
pub const NEWEST: usize = 2;

// What the header says beside its counts, and a node's own bytes are judged by: the version, and K.
#[derive(Clone, Copy)]
pub struct Form {
    pub version: usize,
    pub slots: u8,
}

// The version of the table.
pub fn version(t: &[u8]) -> usize
    ensures { (result ≡ Header.version t.now) × (result < 65536) }
{
    read16(t, 4)
}

// K, the number of slots.
pub fn slots(t: &[u8]) -> u8
    ensures { result ≡ Header.slots t.now }
{
    byte(t, 3)
}

pub fn form_of(t: &[u8]) -> Form
    ensures { result ≡ form_of t.now }
{
    let version = version(t);
    let slots = slots(t);
    Form { version, slots }
}

// How many nodes there are.
pub fn total(t: &[u8]) -> usize
    ensures { (result ≡ Header.total t.now) × (result < 65536) }
{
    read16(t, 6)
}

// How many nodes a tree has: 0 entry, 1 exit, 2 short entry, 3 short exit.
pub fn count(t: &[u8], tree: u8) -> usize
    ensures { (result ≡ Header.count t.now tree) × (result < 65536) }
{
    let x = tree as usize;
    read16(t, 8 + 2 * x)
}

// The number of a tree's first node; of tree 4, the end of the last.
pub fn root(t: &[u8], tree: u8) -> usize
    ensures { (result ≡ Header.root t.now tree) × (result ≤ 65535 * tree) }
{
    let mut at: usize = 0;
    for x in 0..tree {
        at += count(t, x);
    }
    at
}

#[tactic(auto, unfolding(crate::specs::Header::mark_right))]
fn mark_right(t: &[u8]) -> bool
    ensures { result ≡ mark_right t.now }
{
    byte(t, 0) == 82 && byte(t, 1) == 84 && byte(t, 2) == 66
}

#[tactic(auto, unfolding(crate::specs::Header::counts_right))]
fn counts_right(t: &[u8]) -> bool
    ensures { result ≡ counts_right t.now }
{
    let entry = count(t, 0);
    let exit = count(t, 1);
    slots(t) as usize <= MOST_SLOTS
        && 2 <= total(t)
        && total(t) <= MOST_NODES
        && 1 <= entry
        && 1 <= exit
        && entry + exit + count(t, 2) + count(t, 3) == total(t)
}

// Whether the version is one that a reader of versions 1 to `newest` reads.
#[tactic(auto, unfolding(crate::specs::Header::version_right))]
fn version_right(t: &[u8], newest: usize) -> bool
    ensures { result ≡ version_right newest t.now }
{
    let version = version(t);
    1 <= version && version <= newest
}

// The first of rules 1 to 5 that the table breaks, for a reader of versions 1 to `newest`.
#[tactic(auto, unfolding(crate::specs::Header::header_refusal))]
pub fn header_refusal(t: &[u8], newest: usize) -> Option<Refusal>
    ensures { result ≡ header_refusal newest t.now }
{
    if t.len() < 16 {
        return Some(Refusal::Size);
    }
    if !mark_right(t) {
        return Some(Refusal::Mark);
    }
    if !version_right(t, newest) {
        return Some(Refusal::Version);
    }
    if !counts_right(t) {
        return Some(Refusal::Counts);
    }
    if t.len() != 16 + 16 * total(t) {
        return Some(Refusal::Length);
    }
    None
}
