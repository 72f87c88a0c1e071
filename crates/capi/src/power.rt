// A loss of power: the size of a dump, the dump and the restore.
ghost use Rattle.std.specs.Prelude.{◌≡◌};
ghost use Rattle.images.specs.Layout.{size_for};
ghost use Rattle.capi.specs.Power.{dump_call, restore_call};

use crate::calls::judge_rooms;
use records::settings::settings_of;
use records::state_words::{put_state, state_of};
use replies::answer_word;

// The bytes of a dump, for a K and a D; 0 where no settings have them.
#[unsafe(no_mangle)]
pub extern "C" fn ysh_dump_bytes(slots: u64, depth: u64) -> u64
    ensures { result ≡ size_for slots depth }
{
    dump::writer::dump_bytes(slots as usize, depth as usize) as u64
}

// A dump by the lines of the refusals, the first of which is answered that does not hold.
fn dump_judged(
    settings: &[u64],
    state: &[u64],
    rows: &[u64],
    area: &mut [u8],
    from: u64,
    upto: u64,
) -> u64
    ensures { dump_call settings.now state.now rows.now area.old from upto
        ≡ record { answer = result; lent = area.new } }
{
    let chosen = settings_of(settings);
    if let Err(refusal) = judge_rooms(chosen, settings, state, rows) {
        return answer_word(refusal);
    }
    let given = state_of(state);
    if let Err(refusal) = dump::dump(chosen, given, rows, area, from as usize, upto as usize) {
        return answer_word(refusal);
    }
    0
}

// Bytes `from` to `upto` of a dump's order of writing, into the area: at once where the words pass, as nearly always.
#[unsafe(no_mangle)]
pub extern "C" fn ysh_dump(
    settings: &[u64],
    state: &[u64],
    rows: &[u64],
    area: &mut [u8],
    from: u64,
    upto: u64,
) -> u64
    ensures { dump_call settings.now state.now rows.now area.old from upto
        ≡ record { answer = result; lent = area.new } }
{
    if dump::direct::dump_words(settings, state, rows, area, from as usize, upto as usize) {
        return 0;
    }
    dump_judged(settings, state, rows, area, from, upto)
}

// The state and the rows that an image holds.
#[unsafe(no_mangle)]
pub extern "C" fn ysh_restore(
    settings: &[u64],
    state: &mut [u64],
    image: &[u8],
    rows: &mut [u64],
) -> u64
    ensures { restore_call settings.now state.entry.now image.now rows.old
        ≡ record { answer = result; lent = record { state = state.exit.now; rows = rows.new } } }
{
    let chosen = settings_of(settings);
    if let Err(refusal) = judge_rooms(chosen, settings, state, rows) {
        return answer_word(refusal);
    }
    let restored = images::restore(chosen, image, rows);
    match restored {
        Err(refusal) => answer_word(refusal),
        Ok(next) => {
            put_state(state, next);
            0
        }
    }
}
