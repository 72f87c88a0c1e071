// Why one tree of a table says yes or no at each of the newest rows.
ghost use Rattle.std.specs.Prelude.{◌≡◌};
ghost use Rattle.capi.specs.WhyOver.{over_call};

use questions::over::explain_over;
use replies::answer_word;

// The chain of ysh_why for each of the newest rows, as many as there are positions, oldest first: each has its own 256 words of the lines, and a count.
#[unsafe(no_mangle)]
pub extern "C" fn ysh_why_over(
    table: &[u8],
    tree: u64,
    rows: &[u64],
    positions: &[u64],
    lines: &mut [u64],
    counts: &mut [u64],
) -> u64
    ensures { over_call table.now tree rows.now positions.now
        (record { lines = lines.entry.now; counts = counts.old })
        ≡ record { answer = result; lent = record { lines = lines.exit.now; counts = counts.new } } }
{
    let verdict = explain_over(table, tree, rows, positions, lines, counts);
    match verdict {
        Err(refusal) => answer_word(refusal),
        Ok(()) => 0,
    }
}
