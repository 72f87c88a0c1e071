// Four accounts on one stream (request 14): the stream's bars are judged first and once, then each account steps over its own part of those taken.
// A bar of an account goes the way of `ysh_step`, so that what a bar does is compiled once.
ghost use Rattle.std.specs.Prelude.{◌≡◌, [], map, ◌*◌, ◌≤◌, length};
ghost use Rattle.words.specs.Limits.{bar_words, most_slots};
ghost use Rattle.records.specs.Lent.{rooms, lists};
ghost use Rattle.refusals.specs.Lines.{judged};
ghost use Rattle.engine.specs.Day.{in_records};
ghost use Rattle.accounts.specs.Own.{own_bar};
ghost use Rattle.accounts.specs.Laws.Stream.{Within};
ghost use Rattle.streamed.specs.Accounts.{given, lent, account_after, accounts_lines, stream_after, accounts_call};
ghost use Rattle.stepping.specs.Bars.{step_call};
ghost use Rattle.stepping.specs.WordRun.{calls_over};

use accounts::own::own_bar;
use accounts::profile::judge_profile;
use accounts::status::{STATUS_WORDS, is_stopped, stop};
use accounts::stream::take_bars;
use records::settings::settings_of;
use refusals::day::Span;
use refusals::lists::Lists;
use refusals::verdict::{Verdict, line};
use replies::{HALF, answer_word};
use stepping::day::{answer_of, call_bars};
use words::limits::{BAR_FIXED, MOST_SLOTS};
use words::refusal::Refusal;

// The numbers of these rooms.
const STREAM_ROOM: u64 = 16;

const STATUS_ROOM: u64 = 17;

// The stream: its slots, and the bars that it has taken.
const STREAM_WORDS: usize = 2;

// A bar of as many slots as there may be.
const WIDEST_BAR: usize = BAR_FIXED + MOST_SLOTS;

// How many bars an account took, and the answer of the one that stopped it (0 where it took all).
#[derive(Clone, Copy)]
pub struct Ridden {
    pub done: usize,
    pub answer: u64,
}

// 10: the stream and the four statuses have their words.
#[tactic(auto, unfolding(refusals::specs::Lines::judged, crate::specs::Accounts::accounts_lines))]
fn judge_streams(stream: &[u64], a: &[u64], b: &[u64], c: &[u64], d: &[u64]) -> Verdict
    ensures { result ≡ judged (accounts_lines stream.now a.now b.now c.now d.now) }
{
    line(STREAM_WORDS <= stream.len(), Refusal::Room(STREAM_ROOM))?;
    line(STATUS_WORDS <= a.len(), Refusal::Room(STATUS_ROOM))?;
    line(STATUS_WORDS <= b.len(), Refusal::Room(STATUS_ROOM))?;
    line(STATUS_WORDS <= c.len(), Refusal::Room(STATUS_ROOM))?;
    line(STATUS_WORDS <= d.len(), Refusal::Room(STATUS_ROOM))
}

// A bar of the stream, as a step of an account over its own part of it.
fn step_own<'a>(
    stream: usize,
    slots: usize,
    bar: &[u64],
    own: &mut [u64],
    settings: &[u64],
    state: &mut [u64],
    rows: &mut [u64],
    equity: &mut [u64],
    trades: &mut [u64],
    entry: &[u8],
    exit: &'a [u8],
) -> u64
    requires { (length bar.now ≡ bar_words stream) × (slots ≤ stream) × (bar_words slots ≤ length own.old) }
    ensures { step_call settings.now state.entry.now (own_bar stream slots bar.now)
        (rooms rows.old equity.old trades.old) (lists entry.now «exit».now [] [])
        ≡ record {
          answer = result;
          lent = record { state = state.exit.now; rooms = rooms rows.new equity.new trades.new };
        } }
{
    let mut done: u64 = 0;
    let end = BAR_FIXED + slots;
    own_bar(stream, slots, bar, own);
    call_bars(
        Span::One,
        settings,
        state,
        &own[..end],
        rows,
        equity,
        trades,
        Lists {
            entry,
            exit,
            short_entry: &entry[..0],
            short_exit: &exit[..0],
        },
        &mut done,
    )
}

// An account over the first bars of the stream, until it refuses one.
fn ride<'a>(
    stream: usize,
    slots: usize,
    bars: &[u64],
    count: usize,
    settings: &[u64],
    state: &mut [u64],
    rows: &mut [u64],
    equity: &mut [u64],
    trades: &mut [u64],
    entry: &[u8],
    exit: &'a [u8],
) -> Ridden
    requires { (stream ≤ most_slots) × (slots ≤ stream) × (count * bar_words stream ≤ length bars.now) }
    ensures { calls_over settings.now (lists entry.now «exit».now [] [])
        (record { state = state.entry.now; rooms = rooms rows.old equity.old trades.old })
        (map (own_bar stream slots) (in_records count (bar_words stream) bars.now))
        ≡ record {
          done = result.done;
          answer = result.answer;
          lent = record { state = state.exit.now; rooms = rooms rows.new equity.new trades.new };
        } }
{
    let width = BAR_FIXED + stream;
    let mut own = [0u64; WIDEST_BAR];
    for done in 0..count {
        let from = done * width;
        let to = from + width;
        let answer = step_own(
            stream,
            slots,
            &bars[from..to],
            &mut own,
            settings,
            state,
            rows,
            equity,
            trades,
            entry,
            exit,
        );
        if answer != 0 {
            return Ridden { done, answer };
        }
    }
    Ridden {
        done: count,
        answer: 0,
    }
}

// An account over the bars that the stream took. One that is stopped is not touched.
fn account<'a>(
    stream: usize,
    seen: u64,
    bars: &[u64],
    count: usize,
    table: &[u8],
    settings: &[u64],
    entry: &[u8],
    exit: &'a [u8],
    state: &mut [u64],
    rows: &mut [u64],
    equity: &mut [u64],
    trades: &mut [u64],
    status: &mut [u64],
)
    requires { Within stream seen bars.now count }
    ensures { account_after stream seen (in_records count (bar_words stream) bars.now)
        (given table.now settings.now entry.now «exit».now)
        (lent state.old rows.old equity.old trades.old status.old)
        ≡ lent state.new rows.new equity.new trades.new status.new }
{
    if count == 0 {
        return;
    }
    if is_stopped(status) {
        return;
    }
    let chosen = settings_of(settings);
    let slots = chosen.slots;
    if let Err(refusal) = judge_profile(table, chosen, stream) {
        stop(status, refusal.number(), refusal.place(), seen);
        return;
    }
    let went = ride(
        stream, slots, bars, count, settings, state, rows, equity, trades, entry, exit,
    );
    if went.answer != 0 {
        stop(
            status,
            went.answer / HALF,
            went.answer % HALF,
            seen + went.done as u64,
        );
    }
}

// Counts the bars that the stream took.
fn count_bars(stream: &mut [u64], slots: usize, seen: u64, bars: &[u64], count: usize)
    requires { Within slots seen bars.now count }
    ensures { stream.new ≡ stream_after stream.old seen count }
{
    if count == 0 {
        return;
    }
    let total = seen + count as u64;
    let after = [total];
    words::put(stream, 1, &after);
}

// Four accounts over bars of one stream: how many bars it took. The C interface lends the rooms of each as parameters of their own, so that the four are
// called one by one.
pub fn step_accounts(
    stream: &mut [u64],
    bars: &[u64],
    done: &mut u64,
    a_table: &[u8],
    a_settings: &[u64],
    a_entry: &[u8],
    a_exit: &[u8],
    a_state: &mut [u64],
    a_rows: &mut [u64],
    a_equity: &mut [u64],
    a_trades: &mut [u64],
    a_status: &mut [u64],
    b_table: &[u8],
    b_settings: &[u64],
    b_entry: &[u8],
    b_exit: &[u8],
    b_state: &mut [u64],
    b_rows: &mut [u64],
    b_equity: &mut [u64],
    b_trades: &mut [u64],
    b_status: &mut [u64],
    c_table: &[u8],
    c_settings: &[u64],
    c_entry: &[u8],
    c_exit: &[u8],
    c_state: &mut [u64],
    c_rows: &mut [u64],
    c_equity: &mut [u64],
    c_trades: &mut [u64],
    c_status: &mut [u64],
    d_table: &[u8],
    d_settings: &[u64],
    d_entry: &[u8],
    d_exit: &[u8],
    d_state: &mut [u64],
    d_rows: &mut [u64],
    d_equity: &mut [u64],
    d_trades: &mut [u64],
    d_status: &mut [u64],
) -> u64
    ensures { accounts_call bars.now
        (record {
          first = given a_table.now a_settings.now a_entry.now a_exit.now;
          second = given b_table.now b_settings.now b_entry.now b_exit.now;
          third = given c_table.now c_settings.now c_entry.now c_exit.now;
          fourth = given d_table.now d_settings.now d_entry.now d_exit.now;
        })
        (record {
          stream = stream.entry.now;
          done = done.old;
          first = lent a_state.old a_rows.old a_equity.old a_trades.old a_status.old;
          second = lent b_state.old b_rows.old b_equity.old b_trades.old b_status.old;
          third = lent c_state.old c_rows.old c_equity.old c_trades.old c_status.old;
          fourth = lent d_state.old d_rows.old d_equity.old d_trades.old d_status.old;
        })
        ≡ record {
          answer = result;
          lent = record {
            stream = stream.exit.now;
            done = done.new;
            first = lent a_state.new a_rows.new a_equity.new a_trades.new a_status.new;
            second = lent b_state.new b_rows.new b_equity.new b_trades.new b_status.new;
            third = lent c_state.new c_rows.new c_equity.new c_trades.new c_status.new;
            fourth = lent d_state.new d_rows.new d_equity.new d_trades.new d_status.new;
          };
        } }
{
    if let Err(refusal) = judge_streams(stream, a_status, b_status, c_status, d_status) {
        *done = 0;
        return answer_word(refusal);
    }
    let slots = words::word(stream, 0) as usize;
    let seen = words::word(stream, 1);
    let taken = take_bars(slots, seen, bars);
    let count = taken.done;
    let verdict = taken.verdict;
    account(
        slots, seen, bars, count, a_table, a_settings, a_entry, a_exit, a_state, a_rows, a_equity,
        a_trades, a_status,
    );
    account(
        slots, seen, bars, count, b_table, b_settings, b_entry, b_exit, b_state, b_rows, b_equity,
        b_trades, b_status,
    );
    account(
        slots, seen, bars, count, c_table, c_settings, c_entry, c_exit, c_state, c_rows, c_equity,
        c_trades, c_status,
    );
    account(
        slots, seen, bars, count, d_table, d_settings, d_entry, d_exit, d_state, d_rows, d_equity,
        d_trades, d_status,
    );
    count_bars(stream, slots, seen, bars, count);
    *done = count as u64;
    answer_of(verdict)
}
