#![tactic(auto)]
// The dump: a state and its window as bytes for an area that keeps them without power. The mark's last byte is written last, so
// that an area that was not written to the end is no image.
mod bytes;
pub mod direct;
pub mod part;
pub mod writer;

ghost use Rattle.dump.specs.Dumping.{Dumped};

use records::settings::Settings;
use records::state::State;
use refusals::verdict::Verdict;

// Writes bytes `from` to `upto` of the order of writing into the area: 0 to the image's size is all of it, and a driver that programs page
// after page asks for one stretch after another.
pub fn dump(
    s: Settings,
    t: State,
    rows: &[u64],
    area: &mut [u8],
    from: usize,
    upto: usize,
) -> Verdict
    ensures { Dumped s t rows.now area.old from upto result area.new }
{
    dumpable::judge::judge_dump(s, t, rows, area)?;
    writer::write_dump(s, t, rows, area, from, upto);
    Ok(())
}
