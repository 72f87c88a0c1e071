// A dump straight from the words of settings and state.
ghost use Rattle.std.specs.Prelude.{◌≡◌};
ghost use Rattle.records.specs.Settings.{settings_of};
ghost use Rattle.records.specs.StateWords.{state_of};
ghost use Rattle.images.specs.Layout.{image_of};
ghost use Rattle.dump.specs.Order.{written};
ghost use Rattle.dumpable.specs.Laws.Passing.{WordsFine};
ghost use Rattle.dump.specs.Dumping.{WordsDumped};

use crate::writer::{body_words, held_window, write_order};
use dumpable::passing::words_pass;
use heads::plain::direct_head;
use words::places;

// The image of words of which nothing is refused.
fn write_words(
    settings: &[u64],
    state: &[u64],
    rows: &[u64],
    area: &mut [u8],
    from: usize,
    upto: usize,
)
    requires { WordsFine settings.now state.now rows.now area.old }
    ensures { area.new
        ≡ written (image_of (settings_of settings.now) (state_of state.now) rows.now) area.old from upto }
{
    let slots = settings[places::SLOTS] as usize;
    let depth = settings[places::DEPTH] as usize;
    let held = state[places::ROWS_HELD] as usize;
    let kept = held_window(rows, slots, depth, held);
    let count = rows::row_count(kept, slots);
    let head = direct_head(state, slots as u64, depth as u64, count as u64);
    write_order(area, &head, kept, body_words(slots, depth), from, upto);
}

// Bytes `from` to `upto` of a dump's order of writing, where the words pass; else nothing, and no.
pub fn dump_words(
    settings: &[u64],
    state: &[u64],
    rows: &[u64],
    area: &mut [u8],
    from: usize,
    upto: usize,
) -> bool
    ensures { WordsDumped settings.now state.now rows.now area.old from upto result area.new }
{
    if words_pass(settings, state, rows.len(), area.len()) {
        write_words(settings, state, rows, area, from, upto);
        return true;
    }
    false
}
