#![tactic(auto)]
// What every call shares: the word that it answers, and refusal 10 for the rooms that only the C calls have.
ghost use Rattle.std.specs.Prelude.{◌≡◌};
ghost use Rattle.refusals.specs.Lines.{judged};
ghost use Rattle.replies.specs.Call.{two_halves, answer_word, bit_of, word_lines, metric_lines};

use refusals::verdict::{Verdict, line};
use words::limits::{METRIC_WORDS, SETTING_WORDS, STATE_WORDS};
use words::refusal::Refusal;

// The numbers of these rooms.
const SETTINGS_ROOM: u64 = 7;

const STATE_ROOM: u64 = 8;

const METRICS_ROOM: u64 = 9;

// A part of an answer: the refusal's number stands in the upper half of the word, its place in the lower.
pub const HALF: u64 = 4_294_967_296;

// A number and a place as one word, whatever they are.
pub fn two_halves(number: u64, place: u64) -> u64
    ensures { result ≡ two_halves number place }
{
    number % HALF * HALF + place % HALF
}

// A refusal as one word.
#[tactic(auto, unfolding(crate::specs::Call::answer_word))]
pub fn answer_word(refusal: Refusal) -> u64
    ensures { result ≡ answer_word refusal }
{
    two_halves(refusal.number(), refusal.place())
}

// Yes is 1, no is 0. One call of the library, with a name so that its contract says the definition `bit_of`.
#[tactic(auto, unfolding(crate::specs::Call::bit_of))]
pub fn bit_of(b: bool) -> u64
    ensures { result ≡ bit_of b }
{
    u64::from(b)
}

// 10: settings and state have their words.
#[tactic(auto, unfolding(refusals::specs::Lines::judged, crate::specs::Call::word_lines))]
pub fn judge_words(settings: &[u64], state: &[u64]) -> Verdict
    ensures { result ≡ judged (word_lines settings.now state.now) }
{
    line(
        SETTING_WORDS <= settings.len(),
        Refusal::Room(SETTINGS_ROOM),
    )?;
    line(STATE_WORDS <= state.len(), Refusal::Room(STATE_ROOM))
}

// 10: the metrics have their words.
#[tactic(auto, unfolding(refusals::specs::Lines::judged, crate::specs::Call::metric_lines))]
pub fn judge_metrics(metrics: &[u64]) -> Verdict
    ensures { result ≡ judged (metric_lines metrics.now) }
{
    let enough = METRIC_WORDS <= metrics.len();
    line(enough, Refusal::Room(METRICS_ROOM))
}
