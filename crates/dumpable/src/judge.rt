// Whether a dump can be made: 10, 12, 13.
ghost use Rattle.std.specs.Prelude.{◌≡◌, leb};
ghost use Rattle.refusals.specs.Lines.{judged};
ghost use Rattle.engine.specs.Books.{emptied};
ghost use Rattle.images.specs.Layout.{dump_bytes};
ghost use Rattle.dumpable.specs.Refused.{area_lines, dump_state_lines, dump_judged};
ghost use Rattle.dumpable.specs.Refused.{part_judged};

use images::layout::HEAD_BYTES;
use records::settings::Settings;
use records::state::{Counts, State};
use refusals::rooms::{judge_room, judge_state};
use refusals::setting::judge_settings;
use refusals::verdict::{Verdict, line};
use words::limits::{MOST_COUNT, ROW_FIXED};
use words::refusal::Refusal;

// The number of the area among the rooms.
const AREA: u64 = 14;

// Whether so many bytes have a place for an image. No product is made that might wrap.
fn has_place(bytes: usize, slots: usize, depth: usize) -> bool
    ensures { result ≡ leb (dump_bytes slots depth) bytes }
{
    if bytes < HEAD_BYTES {
        return false;
    }
    let left = (bytes - HEAD_BYTES) / 8;
    if depth == 0 {
        return true;
    }
    if left < slots {
        return false;
    }
    depth <= left / (ROW_FIXED + slots)
}

// 10: the area.
#[tactic(auto, unfolding(refusals::specs::Lines::judged, crate::specs::Refused::area_lines))]
fn judge_area(s: Settings, area: &[u8]) -> Verdict
    ensures { result ≡ judged (area_lines s area.now) }
{
    let enough = has_place(area.len(), s.slots, s.depth);
    line(enough, Refusal::Room(AREA))
}

// The state with nothing in its books.
fn emptied(t: State) -> State
    ensures { result ≡ emptied t }
{
    let n = t.counts;
    let order = t.order;
    let position = t.position;
    let last = t.last;
    State {
        counts: Counts {
            bars_seen: n.bars_seen,
            rows_held: n.rows_held,
            equity_points: 0,
            trades: 0,
        },
        order,
        position,
        last,
    }
}

// 13: the state. Books are not lent, so of them only the counts are judged.
#[tactic(auto, unfolding(refusals::specs::Lines::judged, crate::specs::Refused::dump_state_lines))]
fn judge_counts(s: Settings, t: State, rows: &[u64]) -> Verdict
    ensures { result ≡ judged (dump_state_lines s t rows.now) }
{
    let n = t.counts;
    let none: usize = 0;
    let nothing = &rows[none..none];
    line(n.equity_points as u64 <= MOST_COUNT, Refusal::Records)?;
    line(n.trades as u64 <= MOST_COUNT, Refusal::Records)?;
    judge_state(s, emptied(t), rows, nothing, nothing)
}

// All of it.
pub fn judge_dump(s: Settings, t: State, rows: &[u64], area: &[u8]) -> Verdict
    ensures { result ≡ dump_judged s t rows.now area.now }
{
    judge_room(s, rows)?;
    judge_area(s, area)?;
    judge_settings(s)?;
    judge_counts(s, t, rows)
}

// All but the area.
pub fn judge_held(s: Settings, t: State, rows: &[u64]) -> Verdict
    ensures { result ≡ part_judged s t rows.now }
{
    judge_room(s, rows)?;
    judge_settings(s)?;
    judge_counts(s, t, rows)
}
