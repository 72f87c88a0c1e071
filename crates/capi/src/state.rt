// The state before the first bar.
ghost use Rattle.std.specs.Prelude.{◌≡◌};
ghost use Rattle.capi.specs.Fresh.{fresh_call};

use records::settings::settings_of;
use records::state_words::put_state;
use replies::{answer_word, judge_words};

// The state before the first bar.
#[unsafe(no_mangle)]
pub extern "C" fn ysh_fresh(settings: &[u64], state: &mut [u64]) -> u64
    ensures { fresh_call settings.now state.old ≡ record { answer = result; lent = state.new } }
{
    if let Err(refusal) = judge_words(settings, state) {
        return answer_word(refusal);
    }
    put_state(state, records::state::fresh(settings_of(settings)));
    0
}
