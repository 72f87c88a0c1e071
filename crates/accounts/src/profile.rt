// The profile: which accounts may ride on the stream.
ghost use Rattle.std.specs.Prelude.{◌≡◌};
ghost use Rattle.accounts.specs.Profile.{no_short_trees, leverage_within, slots_within, within_profile, profile_judged};

use records::settings::Settings;
use refusals::verdict::Verdict;
use table::header::count;
use words::refusal::Refusal;

// Whether a table has neither of its short trees.
fn no_short_trees(table: &[u8]) -> bool
    ensures { result ≡ no_short_trees table.now }
{
    if count(table, 2) != 0 {
        return false;
    }
    count(table, 3) == 0
}

// Whether a leverage is at most 1. One that is not given is 1; a NaN is not at most 1.
fn leverage_within(leverage: Option<f64>) -> bool
    ensures { result ≡ leverage_within leverage }
{
    match leverage {
        None => true,
        Some(x) => x <= 1.0,
    }
}

// Whether table and settings name no more slots than the stream.
fn slots_within(table: &[u8], s: Settings, stream: usize) -> bool
    ensures { result ≡ slots_within table.now s stream }
{
    if stream < table::header::slots(table) as usize {
        return false;
    }
    s.slots <= stream
}

// Whether an account is within the profile.
fn within_profile(table: &[u8], s: Settings, stream: usize) -> bool
    ensures { result ≡ within_profile table.now s stream }
{
    let terms = s.terms;
    let risk = terms.risk;
    let leverage = risk.max_leverage;
    if !no_short_trees(table) {
        return false;
    }
    if !leverage_within(leverage) {
        return false;
    }
    slots_within(table, s, stream)
}

// 1 to 9, of the table; then 21, of the profile. What the check needs of the stack is given back before the first bar.
pub fn judge_profile(table: &[u8], s: Settings, stream: usize) -> Verdict
    ensures { result ≡ profile_judged table.now s stream }
{
    let checked = table::check(table);
    let answer = checked.answer;
    match answer {
        Err(refusal) => Err(refusal),
        Ok(_) => {
            if within_profile(table, s, stream) {
                return Ok(());
            }
            Err(Refusal::Profile)
        }
    }
}
