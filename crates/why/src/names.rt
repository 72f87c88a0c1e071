// Trees, kinds and leaves by name.
use crate::say::{say, say_number};
use std::io;
use std::io::Write;
use table::kinds;
use table::nodes::node_at;

pub(crate) fn say_tree(output: &mut impl Write, tree: u64) -> io::Result<()> {
    match tree {
        0 => say(output, "entry"),
        1 => say(output, "exit"),
        2 => say(output, "short entry"),
        3 => say(output, "short exit"),
        _ => say(output, "this tree"),
    }
}

pub(crate) fn kind_at(t: &[u8], node: u64) -> u8 {
    let n = node_at(t, node as usize % 256);
    n.kind
}

// The kind of a condition's node, filled up to one width.
pub(crate) fn say_kind(output: &mut impl Write, kind: u8) -> io::Result<()> {
    match kind {
        kinds::GT => say(output, "Gt              "),
        kinds::LT => say(output, "Lt              "),
        kinds::GE => say(output, "Ge              "),
        kinds::LE => say(output, "Le              "),
        kinds::EQ => say(output, "Eq              "),
        kinds::NE => say(output, "Ne              "),
        kinds::CROSS_ABOVE => say(output, "CrossAbove      "),
        kinds::CROSS_BELOW => say(output, "CrossBelow      "),
        kinds::BETWEEN => say(output, "Between         "),
        kinds::RISING => say(output, "Rising          "),
        kinds::FALLING => say(output, "Falling         "),
        kinds::ALL => say(output, "All             "),
        kinds::ANY => say(output, "Any             "),
        kinds::NOT => say(output, "Not             "),
        kinds::IN_POSITION => say(output, "InPosition      "),
        _ => say(output, "BarsSinceEntry  "),
    }
}

fn say_price(output: &mut impl Write, selector: u8) -> io::Result<()> {
    match selector {
        0 => say(output, "open"),
        1 => say(output, "high"),
        2 => say(output, "low"),
        3 => say(output, "close"),
        4 => say(output, "volume"),
        5 => say(output, "hlc3"),
        _ => say(output, "ohlc4"),
    }
}

// A leaf: a constant, a slot or a price.
pub(crate) fn say_leaf(output: &mut impl Write, t: &[u8], node: u64) -> io::Result<()> {
    let n = node_at(t, node as usize % 256);
    let kind = n.kind;
    match kind {
        kinds::CONST => say(output, "a constant"),
        kinds::REF => {
            say(output, "slot ")?;
            say_number(output, n.n)
        }
        _ => say_price(output, n.selector),
    }
}
