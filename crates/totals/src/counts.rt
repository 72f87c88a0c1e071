// The eight counts of totals: trades by reason 1 to 6, then wins, then losses.
ghost use Rattle.std.specs.Prelude.{◌≡◌, ◌∷◌, [], ◌*◌, ◌≤◌, length};
ghost use Rattle.words.specs.Limits.{trade_words, most_count};
ghost use Rattle.totals.specs.Trades.{trade, acceptable, good_start, trades_from, bit_of};
ghost use Rattle.totals.specs.Totals.{counts_of, all_small, AllAtMost, with_counts, both_counts};
ghost use Rattle.totals.specs.Totals as Totals;

use words::limits::{MOST_COUNT, TRADE_WORDS};
use words::places;

// How many counts there are.
pub(crate) const COUNTS: usize = 8;

// The eight counts.
#[tactic(auto, unfolding(crate::specs::Totals::counts_of))]
pub(crate) fn counts_of(totals: &[u64]) -> [u64; COUNTS]
    ensures { result ≡ counts_of totals.now }
{
    [
        words::word(totals, 0),
        words::word(totals, 1),
        words::word(totals, 2),
        words::word(totals, 3),
        words::word(totals, 4),
        words::word(totals, 5),
        words::word(totals, 6),
        words::word(totals, 7),
    ]
}

// Whether none is above the most.
fn all_small(counts: &[u64; COUNTS]) -> bool
    ensures { result ≡ all_small counts.now }
{
    counts.iter().all(|count| *count <= MOST_COUNT)
}

// How many trades there are: one count for each reason.
#[tactic(auto, unfolding(crate::specs::Totals::traded))]
pub(crate) fn traded(counts: &[u64; COUNTS]) -> u64
    requires { AllAtMost most_count counts.now }
    ensures { result ≡ Totals.traded counts.now }
{
    counts[0] + counts[1] + counts[2] + counts[3] + counts[4] + counts[5]
}

// Whether counts can be those of trades: none above the most, and no more wins and losses than trades.
pub(crate) fn fine(counts: &[u64; COUNTS]) -> bool
    ensures { result ≡ Totals.counts_fine counts.now }
{
    if all_small(counts) {
        return counts[places::TOTAL_WINS] + counts[places::TOTAL_LOSSES] <= traded(counts);
    }
    false
}

// Whether a trade can be counted and added: its pnl is finite, its reason one of the six.
#[tactic(auto, unfolding(crate::specs::Trades::acceptable))]
fn is_acceptable(pnl: u64, reason: u64) -> bool
    ensures { result ≡ acceptable (trade pnl reason) }
{
    1 <= reason && reason <= 6 && floats::word_is_finite(pnl)
}

// Yes is 1, no is 0. One call of the library, with a name so that its contract says the definition `bit_of`.
#[tactic(auto, unfolding(crate::specs::Trades::bit_of))]
fn bit_of(b: bool) -> u64
    ensures { result ≡ bit_of b }
{
    u64::from(b)
}

// Counts one trade.
fn count(counts: &mut [u64; COUNTS], pnl: u64, reason: u64)
    requires { (1 ≤ reason) × (reason ≤ 6) × AllAtMost (2 * most_count) counts.old }
    ensures { counts.new ≡ with_counts counts.old (trade pnl reason ∷ []) }
{
    let x = floats::float_of(pnl);
    let at = (reason - 1) as usize;
    let ended = counts[at] + 1;
    let wins = counts[places::TOTAL_WINS] + bit_of(0.0 < x);
    let losses = counts[places::TOTAL_LOSSES] + bit_of(x < 0.0);
    counts[at] = ended;
    counts[places::TOTAL_WINS] = wins;
    counts[places::TOTAL_LOSSES] = losses;
}

// Counts the first n trades of a list up to the first that cannot be counted, and says how many that were. A call of its own: compiled into
// `add`, a trade takes seven instructions more.
#[inline(never)]
pub(crate) fn count_trades(counts: &mut [u64; COUNTS], trades: &[u64], n: usize) -> usize
    requires { (n * trade_words ≤ length trades.now) × (n ≤ most_count) × AllAtMost most_count counts.old }
    ensures { (result ≡ length (good_start (trades_from n 0 trades.now)))
        × (counts.new ≡ with_counts counts.old (good_start (trades_from n 0 trades.now))) }
{
    for i in 0..n {
        let pnl = trades[TRADE_WORDS * i + places::TRADE_PNL];
        let reason = trades[TRADE_WORDS * i + places::TRADE_REASON];
        if !is_acceptable(pnl, reason) {
            return i;
        }
        count(counts, pnl, reason);
    }
    n
}

// The counts of two together.
pub(crate) fn both_counts(counts: &[u64; COUNTS], others: &[u64; COUNTS]) -> [u64; COUNTS]
    requires { AllAtMost most_count counts.now × AllAtMost most_count others.now }
    ensures { result ≡ both_counts counts.now others.now }
{
    [
        counts[0] + others[0],
        counts[1] + others[1],
        counts[2] + others[2],
        counts[3] + others[3],
        counts[4] + others[4],
        counts[5] + others[5],
        counts[6] + others[6],
        counts[7] + others[7],
    ]
}
