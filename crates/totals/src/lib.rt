#![tactic(auto)]
// Exact totals over trades: how many ended by each reason, how many won and lost, and the sum of all pnl as a whole multiple of 2^-1074, with the
// float nearest to it. Every order and grouping of the same trades gives the same words.
mod counts;
mod nearest;
mod sum;

ghost use Rattle.std.specs.Prelude.{◌≡◌, ◌++◌, ◌∷◌, [], leb, Err, Ok};
ghost use Rattle.words.specs.Words.{overwrite};
ghost use Rattle.words.specs.Limits.{most_count};
ghost use Rattle.totals.specs.Trades.{judged_count};
ghost use Rattle.totals.specs.Totals.{unless, add_answer, add_leaves, join_answer, join_leaves};

use words::limits::{MOST_COUNT, TRADE_WORDS};
use words::places;
use words::refusal::Refusal;

// The words of a record: eight counts, the sum, the float.
pub const TOTAL_WORDS: usize = 43;

// The number of the room that holds totals.
const TOTALS_ROOM: u64 = 11;

// How many of n trades are judged with 17: as many as totals can hold.
#[tactic(auto, unfolding(crate::specs::Trades::judged_count))]
fn judged_count(n: usize) -> usize
    ensures { result ≡ judged_count n }
{
    if n <= MOST_COUNT as usize {
        return n;
    }
    MOST_COUNT as usize
}

// 17 at the first trade that cannot be counted, where so many of those that are judged can be.
fn bad_trade(good: usize, judged: usize) -> Result<(), Refusal>
    ensures { result ≡ unless (leb judged good) (Refusal.Trade good) (Ok tt) }
{
    if good < judged {
        return Err(Refusal::Trade(good as u64));
    }
    Ok(())
}

// 22 where totals cannot hold so many trades.
fn too_many(trades: u64) -> Result<(), Refusal>
    ensures { result ≡ unless (leb trades most_count) Refusal.Total (Ok tt) }
{
    if MOST_COUNT < trades {
        return Err(Refusal::Total);
    }
    Ok(())
}

// Adds a list of trades to the totals.
pub fn add(totals: &mut [u64], trades: &[u64]) -> Result<(), Refusal>
    ensures { (result ≡ add_answer totals.old trades.now)
        × (totals.new ≡ add_leaves totals.old trades.now) }
{
    if totals.len() < TOTAL_WORDS {
        return Err(Refusal::Room(TOTALS_ROOM));
    }
    if trades.len() % TRADE_WORDS != 0 {
        return Err(Refusal::Records);
    }
    let mut counts = counts::counts_of(totals);
    if !counts::fine(&counts) {
        return Err(Refusal::Records);
    }
    let traded = counts::traded(&counts);
    let n = trades.len() / TRADE_WORDS;
    let judged = judged_count(n);
    let good = counts::count_trades(&mut counts, trades, judged);
    let bad = bad_trade(good, judged);
    let many = too_many(traded + n as u64);
    bad.and(many)?;
    let before = sum::sum_of(totals);
    let mut after = before;
    sum::add_trades(&mut after, trades);
    let float = nearest::nearest_to(&after);
    put_totals(totals, &counts, &after, float);
    Ok(())
}

// Adds other totals to the totals.
pub fn join(totals: &mut [u64], other: &[u64]) -> Result<(), Refusal>
    ensures { (result ≡ join_answer totals.old other.now)
        × (totals.new ≡ join_leaves totals.old other.now) }
{
    if totals.len() < TOTAL_WORDS {
        return Err(Refusal::Room(TOTALS_ROOM));
    }
    if other.len() != TOTAL_WORDS {
        return Err(Refusal::Records);
    }
    let counts = counts::counts_of(totals);
    if !counts::fine(&counts) {
        return Err(Refusal::Records);
    }
    let more = counts::counts_of(other);
    if !counts::fine(&more) {
        return Err(Refusal::Records);
    }
    if MOST_COUNT < counts::traded(&counts) + counts::traded(&more) {
        return Err(Refusal::Total);
    }
    let both = counts::both_counts(&counts, &more);
    let mut sum = sum::sum_of(totals);
    sum::add_sum(&mut sum, other);
    let float = nearest::nearest_to(&sum);
    put_totals(totals, &both, &sum, float);
    Ok(())
}

// Writes the 43 words.
fn put_totals(
    totals: &mut [u64],
    counts: &[u64; counts::COUNTS],
    sum: &[u64; sum::SUM_WORDS],
    float: u64,
)
    ensures { totals.new ≡ overwrite totals.old 0 (counts.now ++ sum.now ++ (float ∷ [])) }
{
    let mut all = [0u64; TOTAL_WORDS];
    words::put(&mut all, 0, counts);
    words::put(&mut all, places::TOTAL_SUM, sum);
    all[places::TOTAL_FLOAT] = float;
    words::put(totals, 0, &all);
}
