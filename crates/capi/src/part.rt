// A part of a dump: a driver that programs page after page has it made in a page's memory.
ghost use Rattle.std.specs.Prelude.{◌≡◌};
ghost use Rattle.capi.specs.Part.{part_call};

use crate::calls::judge_rooms;
use records::settings::settings_of;
use records::state_words::state_of;
use replies::answer_word;

// A part by the lines of the refusals, the first of which is answered that does not hold.
fn part_judged(
    settings: &[u64],
    state: &[u64],
    rows: &[u64],
    at: u64,
    part: &mut [u8],
    used: &mut u64,
) -> u64
    ensures { part_call settings.now state.now rows.now at
        (record { part = part.entry.now; used = used.old })
        ≡ record { answer = result; lent = record { part = part.exit.now; used = used.new } } }
{
    let chosen = settings_of(settings);
    if let Err(refusal) = judge_rooms(chosen, settings, state, rows) {
        return answer_word(refusal);
    }
    let parted = dump::part::part(chosen, state_of(state), rows, at as usize, part);
    match parted {
        Err(refusal) => answer_word(refusal),
        Ok(count) => {
            *used = count as u64;
            0
        }
    }
}

// Bytes `at` on of the image into the part, as many as it has place for: at once where the words pass, as nearly always.
#[unsafe(no_mangle)]
pub extern "C" fn ysh_dump_part(
    settings: &[u64],
    state: &[u64],
    rows: &[u64],
    at: u64,
    part: &mut [u8],
    used: &mut u64,
) -> u64
    ensures { part_call settings.now state.now rows.now at
        (record { part = part.entry.now; used = used.old })
        ≡ record { answer = result; lent = record { part = part.exit.now; used = used.new } } }
{
    if dump::part::part_words(settings, state, rows, at as usize, part, used) {
        return 0;
    }
    part_judged(settings, state, rows, at, part, used)
}
