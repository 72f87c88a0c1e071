// Checking a rule table, how deep a window it needs, and its trees as steps.
ghost use Rattle.std.specs.Prelude.{◌≡◌};
ghost use Rattle.capi.specs.Tables.{numbered_tree, check_call, depth_call, silent_call, translate_call};

use needed::depth::Needs;
use replies::answer_word;
use table::answer::Accepted;
use table::trees::Tree;
use words::limits::TREES;

// Bytes of a step.
const STEP_BYTES: u64 = 16;

// A tree by its number; that of a higher number is absent, and its callers say so.
pub(crate) fn numbered_tree(number: u64) -> Tree
    ensures { result ≡ numbered_tree number }
{
    match number {
        0 => Tree::Entry,
        1 => Tree::Exit,
        2 => Tree::ShortEntry,
        _ => Tree::ShortExit,
    }
}

// Checks a rule table: how many nodes it has, and how many rows its rules need.
#[unsafe(no_mangle)]
pub extern "C" fn ysh_check(table: &[u8], nodes: &mut u64, rows: &mut u64) -> u64
    ensures { check_call table.now (record { nodes = nodes.entry.now; rows = rows.old })
        ≡ record { answer = result; lent = record { nodes = nodes.exit.now; rows = rows.new } } }
{
    let checked = table::check(table);
    let answer = checked.answer;
    match answer {
        Err(refusal) => answer_word(refusal),
        Ok(
            Accepted {
                nodes: n,
                rows: needed,
            },
        ) => {
            *nodes = n as u64;
            *rows = needed;
            0
        }
    }
}

// How deep the window has to be: its rows, and the bytes that they take.
#[unsafe(no_mangle)]
pub extern "C" fn ysh_depth(table: &[u8], lookback: u64, rows: &mut u64, bytes: &mut u64) -> u64
    ensures { depth_call table.now lookback (record { rows = rows.entry.now; bytes = bytes.old })
        ≡ record { answer = result; lent = record { rows = rows.exit.now; bytes = bytes.new } } }
{
    let depth = needed::depth::depth(table, lookback);
    match depth {
        Err(refusal) => answer_word(refusal),
        Ok(
            Needs {
                rows: needed,
                row: _,
                window,
            },
        ) => {
            *rows = needed;
            *bytes = window;
            0
        }
    }
}

// Lists the nodes of the tests that answer no over `rows` rows, whatever the rows hold, and counts them.
#[unsafe(no_mangle)]
pub extern "C" fn ysh_silent(table: &[u8], rows: u64, list: &mut [u64], count: &mut u64) -> u64
    ensures { silent_call table.now rows (record { count = count.entry.now; list = list.old })
        ≡ record { answer = result; lent = record { count = count.exit.now; list = list.new } } }
{
    let silent = needed::silent::silent_tests(table, rows, list);
    match silent {
        Err(refusal) => answer_word(refusal),
        Ok(many) => {
            *count = many as u64;
            0
        }
    }
}

// Translates a tree of a table into steps: how many bytes of the room they take.
#[unsafe(no_mangle)]
pub extern "C" fn ysh_translate(table: &[u8], tree: u64, room: &mut [u8], used: &mut u64) -> u64
    ensures { translate_call table.now tree (record { used = used.entry.now; room = room.old })
        ≡ record { answer = result; lent = record { used = used.exit.now; room = room.new } } }
{
    if TREES <= tree {
        let checked = table::check(table);
        let answer = checked.answer;
        match answer {
            Err(refusal) => return answer_word(refusal),
            Ok(_) => {
                *used = 0;
                return 0;
            }
        }
    }
    let translated = translation::translate(table, numbered_tree(tree), room);
    match translated {
        Err(refusal) => answer_word(refusal),
        Ok(count) => {
            *used = STEP_BYTES * count as u64;
            0
        }
    }
}
