// Exact totals over the trades of many runs.
ghost use Rattle.std.specs.Prelude.{◌≡◌};
ghost use Rattle.capi.specs.Totals.{totals_call, join_call};

use replies::answer_word;

// Adds a list of trades to totals. This and the next are two, since C has a name for each.
#[unsafe(no_mangle)]
pub extern "C" fn ysh_totals(totals: &mut [u64], trades: &[u64]) -> u64
    ensures { totals_call totals.old trades.now ≡ record { answer = result; lent = totals.new } }
{
    let added = totals::add(totals, trades);
    match added {
        Err(refusal) => answer_word(refusal),
        Ok(()) => 0,
    }
}

// Adds other totals to totals.
#[unsafe(no_mangle)]
pub extern "C" fn ysh_totals_join(totals: &mut [u64], other: &[u64]) -> u64
    ensures { join_call totals.old other.now ≡ record { answer = result; lent = totals.new } }
{
    let joined = totals::join(totals, other);
    match joined {
        Err(refusal) => answer_word(refusal),
        Ok(()) => 0,
    }
}
