// Calls over rows: the four rules of a table, and the four lists of steps.
use crate::rooms;
use crate::rooms::word;
use std::io;
use std::io::Write;

// What one list of steps came to.
#[derive(Drop)]
struct Ran {
    said: u64,
    visits: u64,
}

// What a rule says, 1 or 0; the answer of a call that is refused. The position is four words of the line.
fn rule_of(table: &[u8], tree: u64, rows: &[u64], line: &[u64]) -> u64 {
    let mut says = 0u64;
    let answer = capi::run::ysh_rule(
        table,
        tree,
        rows,
        word(line, 1),
        word(line, 2),
        word(line, 3),
        word(line, 4),
        &mut says,
    );
    if answer == 0 { says } else { answer }
}

// The four trees of a table, at the position of words 1 to 4.
pub(crate) fn rule(
    output: &mut impl Write,
    line: &[u64],
    table: &[u8],
    rows: &[u64],
) -> io::Result<()> {
    let mut says = [0u64; 4];
    for (tree, said) in says.iter_mut().enumerate() {
        *said = rule_of(table, tree as u64, rows, line);
    }
    text::write_words(output, &says, b'\n')
}

// The same for a list of steps, with the visits; words 5 and 6 are K and D.
fn run_of(steps: &[u8], rows: &[u64], line: &[u64]) -> Ran {
    let mut says = 0u64;
    let mut visits = 0u64;
    let answer = capi::run::ysh_run(
        steps,
        rows,
        word(line, 5),
        word(line, 6),
        word(line, 1),
        word(line, 2),
        word(line, 3),
        word(line, 4),
        &mut says,
        &mut visits,
    );
    if answer == 0 {
        return Ran { said: says, visits };
    }
    Ran {
        said: answer,
        visits: 0,
    }
}

// The four lists: what each says, and then the visits of each.
pub(crate) fn run(
    output: &mut impl Write,
    line: &[u64],
    sizes: &[u64],
    rows: &[u64],
    lists: &[u8],
) -> io::Result<()> {
    let mut says = [0u64; 4];
    let mut visits = [0u64; 4];
    for tree in 0..4 {
        let ran = run_of(rooms::list(sizes, tree as u64, lists), rows, line);
        says[tree] = ran.said;
        visits[tree] = ran.visits;
    }
    text::write_words(output, &says, b' ')?;
    text::write_words(output, &visits, b'\n')
}
