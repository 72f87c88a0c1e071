// One rule of a table over rows, and a list of steps over rows.
ghost use Rattle.std.specs.Prelude.{◌≡◌};
ghost use Rattle.questions.specs.Position.{position_state};
ghost use Rattle.capi.specs.Run.{says_of, rule_call, run_call};

use crate::tables::numbered_tree;
use questions::position::position_state;
use replies::{answer_word, bit_of};
use words::limits::TREES;

// What is written for a tree's answer; an absent tree says no.
fn says_of(tree: u64, said: bool) -> u64
    ensures { result ≡ says_of tree said }
{
    if tree < TREES { bit_of(said) } else { 0 }
}

// Whether one tree of a table says yes at the newest row.
#[unsafe(no_mangle)]
pub extern "C" fn ysh_rule(
    table: &[u8],
    tree: u64,
    rows: &[u64],
    qty: u64,
    entered: u64,
    entry_bar: u64,
    bars_seen: u64,
    answer: &mut u64,
) -> u64
    ensures { rule_call table.now tree rows.now (position_state qty entered entry_bar bars_seen) answer.entry.now
        ≡ record { answer = result; lent = answer.exit.now } }
{
    let position = position_state(qty, entered, entry_bar, bars_seen);
    let said = rules::answers::answer_rule(table, numbered_tree(tree), rows, position);
    match said {
        Err(refusal) => answer_word(refusal),
        Ok(yes) => {
            *answer = says_of(tree, yes);
            0
        }
    }
}

// Runs a list of steps: its answer, and how many steps were visited.
#[unsafe(no_mangle)]
pub extern "C" fn ysh_run(
    steps: &[u8],
    rows: &[u64],
    slots: u64,
    depth: u64,
    qty: u64,
    entered: u64,
    entry_bar: u64,
    bars_seen: u64,
    answer: &mut u64,
    visits: &mut u64,
) -> u64
    ensures { run_call steps.now rows.now slots depth (position_state qty entered entry_bar bars_seen)
        (record { says = answer.entry.now; visits = visits.old })
        ≡ record { answer = result; lent = record { says = answer.exit.now; visits = visits.new } } }
{
    let position = position_state(qty, entered, entry_bar, bars_seen);
    let ran = steps::running::run(steps, rows, slots as usize, depth as usize, position);
    match ran {
        Err(refusal) => answer_word(refusal),
        Ok(run) => {
            *answer = bit_of(run.answer);
            *visits = run.visits as u64;
            0
        }
    }
}
