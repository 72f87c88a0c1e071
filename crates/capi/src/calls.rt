// Refusal 10 for the rooms that the calls over a state share.
ghost use Rattle.std.specs.Prelude.{◌≡◌, ◌++◌};
ghost use Rattle.records.specs.Settings.{settings_of};
ghost use Rattle.refusals.specs.Lines.{judged};
ghost use Rattle.replies.specs.Call.{metric_lines};
ghost use Rattle.stepping.specs.Bars.{lent_lines};

use records::settings::Settings;
use refusals::rooms::judge_room;
use refusals::verdict::Verdict;
use replies::{judge_metrics, judge_words};

// 10: the room of rows, by K and D as they were given; then settings and state.
pub(crate) fn judge_rooms(s: Settings, settings: &[u64], state: &[u64], rows: &[u64]) -> Verdict
    requires { s ≡ settings_of settings.now }
    ensures { result ≡ judged (lent_lines settings.now state.now rows.now) }
{
    judge_room(s, rows)?;
    judge_words(settings, state)
}

// 10: the rooms of the other calls, and the metrics.
pub(crate) fn judge_ending(
    s: Settings,
    settings: &[u64],
    state: &[u64],
    rows: &[u64],
    metrics: &[u64],
) -> Verdict
    requires { s ≡ settings_of settings.now }
    ensures { result ≡ judged (lent_lines settings.now state.now rows.now ++ metric_lines metrics.now) }
{
    judge_rooms(s, settings, state, rows)?;
    judge_metrics(metrics)
}
