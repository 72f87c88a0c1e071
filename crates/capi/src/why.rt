// Why one tree of a table says yes or no.
ghost use Rattle.std.specs.Prelude.{◌≡◌};
ghost use Rattle.questions.specs.Position.{position_state};
ghost use Rattle.capi.specs.Why.{why_call};

use questions::position::position_state;
use replies::answer_word;

// The chain of nodes from a tree's root to what decided at the newest row, a line of eight words for each, and how many lines.
#[unsafe(no_mangle)]
pub extern "C" fn ysh_why(
    table: &[u8],
    tree: u64,
    rows: &[u64],
    qty: u64,
    entered: u64,
    entry_bar: u64,
    bars_seen: u64,
    lines: &mut [u64],
    count: &mut u64,
) -> u64
    ensures { why_call table.now tree rows.now (position_state qty entered entry_bar bars_seen)
        (record { count = count.entry.now; lines = lines.old })
        ≡ record { answer = result; lent = record { count = count.exit.now; lines = lines.new } } }
{
    let position = position_state(qty, entered, entry_bar, bars_seen);
    let explained = chain::explain::explain(table, tree, rows, position, lines);
    match explained {
        Err(refusal) => answer_word(refusal),
        Ok(many) => {
            *count = many as u64;
            0
        }
    }
}
