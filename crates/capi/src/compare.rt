// Two runs compared: what differs, as lines.
ghost use Rattle.std.specs.Prelude.{◌≡◌};
ghost use Rattle.capi.specs.Compare.{compare_call};

use differences::compare::compare;
use replies::answer_word;

// Writes what differs between two runs, a line each, and how many lines there are.
#[unsafe(no_mangle)]
pub extern "C" fn ysh_compare(
    equity: &[u64],
    trades: &[u64],
    other_equity: &[u64],
    other_trades: &[u64],
    lines: &mut [u64],
    count: &mut u64,
) -> u64
    ensures { compare_call equity.now trades.now other_equity.now other_trades.now
        (record { lines = lines.entry.now; count = count.old })
        ≡ record { answer = result; lent = record { lines = lines.exit.now; count = count.new } } }
{
    let compared = compare(equity, trades, other_equity, other_trades, lines);
    match compared {
        Err(refusal) => answer_word(refusal),
        Ok(many) => {
            *count = many as u64;
            0
        }
    }
}
