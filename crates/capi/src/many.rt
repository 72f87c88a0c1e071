// Many bars.
ghost use Rattle.std.specs.Prelude.{◌≡◌};
ghost use Rattle.records.specs.Lent.{rooms, lists};
ghost use Rattle.stepping.specs.Day.{steps_call};

use refusals::day::Span;
use refusals::lists::Lists;
use stepping::day::call_bars;

// Many bars in one call: how many were done.
#[unsafe(no_mangle)]
pub extern "C" fn ysh_steps<'a>(
    settings: &[u64],
    state: &mut [u64],
    bars: &[u64],
    rows: &mut [u64],
    equity: &mut [u64],
    trades: &mut [u64],
    entry: &[u8],
    exit: &'a [u8],
    short_entry: &[u8],
    short_exit: &'a [u8],
    done: &mut u64,
) -> u64
    ensures { steps_call settings.now state.entry.now bars.now
        (rooms rows.old equity.old trades.old)
        (lists entry.now «exit».now short_entry.now short_exit.now)
        ≡ record {
          answer = result;
          lent = record {
            state = state.exit.now;
            rooms = rooms rows.new equity.new trades.new;
            done = done.new;
          };
        } }
{
    call_bars(
        Span::Many,
        settings,
        state,
        bars,
        rows,
        equity,
        trades,
        Lists {
            entry,
            exit,
            short_entry,
            short_exit,
        },
        done,
    )
}
