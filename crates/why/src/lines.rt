// The lines of a chain, in words.
ghost use Rattle.std.specs.Prelude.{◌≤◌};

use crate::names;
use crate::say::{say, say_number, say_value};
use chain::lines;
use std::io;
use std::io::Write;

// Where a line has its words.
const NODE: usize = 0;

const ANSWER: usize = 1;

const SHOWS: usize = 2;

const USED: usize = 3;

const FIRST: usize = 4;

const SECOND: usize = 5;

// How many values a line has a place for.
const VALUES: usize = 4;

// A refusal's number stands in the upper half of an answer, its place in the lower.
const HALF: u64 = 4_294_967_296;

pub(crate) fn say_refused(output: &mut impl Write, answer: u64) -> io::Result<()> {
    say(output, "refused ")?;
    say_number(output, answer / HALF)?;
    say(output, " at ")?;
    say_number(output, answer % HALF)?;
    say(output, "\n")
}

// The first value, and those after it that are used.
fn say_values(output: &mut impl Write, list: &[u64], at: usize, used: u64) -> io::Result<()> {
    say_value(output, words::word_from(list, at, FIRST))?;
    for k in 1..VALUES {
        if (k as u64) < used {
            say(output, ", ")?;
            say_value(output, words::word_from(list, at, FIRST + k))?;
        }
    }
    Ok(())
}

// How far back: this bar, or so many bars.
fn say_back(output: &mut impl Write, back: u64) -> io::Result<()> {
    match back {
        0 => say(output, " is missing at this bar"),
        1 => say(output, " is missing 1 bar back"),
        _ => {
            say(output, " is missing ")?;
            say_number(output, back)?;
            say(output, " bars back")
        }
    }
}

fn say_missing(output: &mut impl Write, t: &[u8], node: u64, back: u64) -> io::Result<()> {
    names::say_leaf(output, t, node)?;
    say_back(output, back)?;
    say(output, " (node ")?;
    say_number(output, node)?;
    say(output, ")")
}

// A link: what it goes to, or why it stops.
fn say_link(output: &mut impl Write, kind: u8, next: u64, last: bool) -> io::Result<()> {
    if last {
        if kind == table::kinds::ALL {
            return say(output, "none of its conditions says no");
        }
        return say(output, "none of its conditions says yes");
    }
    say(output, "by node ")?;
    say_number(output, next)
}

fn say_shown(
    output: &mut impl Write,
    t: &[u8],
    kind: u8,
    list: &[u64],
    at: usize,
    last: bool,
) -> io::Result<()> {
    let first = words::word_from(list, at, FIRST);
    match words::word_from(list, at, SHOWS) {
        lines::LINK => say_link(
            output,
            kind,
            words::word_from(list, at, lines::LINE_WORDS + NODE),
            last,
        ),
        lines::VALUES => say_values(output, list, at, words::word_from(list, at, USED)),
        lines::MISSING => say_missing(output, t, first, words::word_from(list, at, SECOND)),
        lines::AT_FIRST_BAR => say(output, "the first bar has none before it"),
        lines::TOO_FEW_BARS => say(output, "too few bars"),
        lines::POSITION => say(output, "by the position"),
        lines::SINCE_ENTRY => {
            say_number(output, first)?;
            say(output, " bars since the entry")
        }
        _ => say(output, "flat, or no entry bar"),
    }
}

// One line: its node, the node's kind, its answer and what it shows.
fn say_line(
    output: &mut impl Write,
    t: &[u8],
    list: &[u64],
    at: usize,
    last: bool,
) -> io::Result<()> {
    let node = words::word_from(list, at, NODE);
    let kind = names::kind_at(t, node);
    say(output, "  node ")?;
    say_number(output, node)?;
    say(output, "  ")?;
    names::say_kind(output, kind)?;
    if words::word_from(list, at, ANSWER) == 1 {
        say(output, "yes  ")?;
    } else {
        say(output, "no   ")?;
    }
    say_shown(output, t, kind, list, at, last)?;
    say(output, "\n")
}

fn say_lines(output: &mut impl Write, t: &[u8], list: &[u64], count: usize) -> io::Result<()>
    requires { count ≤ 32 }
{
    for i in 0..count {
        say_line(output, t, list, lines::LINE_WORDS * i, i + 1 == count)?;
    }
    Ok(())
}

// The tree, what it said, and its lines.
pub(crate) fn say_chain(
    output: &mut impl Write,
    t: &[u8],
    tree: u64,
    list: &[u64],
    count: usize,
) -> io::Result<()> {
    names::say_tree(output, tree)?;
    if count == 0 {
        return say(output, " is absent\n");
    }
    if words::word(list, ANSWER) == 1 {
        say(output, " said yes\n")?;
    } else {
        say(output, " said no\n")?;
    }
    say_lines(output, t, list, count.min(32))
}
