// Four accounts on one stream (request 14).
ghost use Rattle.std.specs.Prelude.{◌≡◌};
ghost use Rattle.streamed.specs.Accounts.{given, lent, accounts_call};

use streamed::four::step_accounts;

// Four accounts over bars of one stream: how many bars it took.
#[unsafe(no_mangle)]
pub extern "C" fn ysh_accounts(
    stream: &mut [u64],
    bars: &[u64],
    done: &mut u64,
    a_table: &[u8],
    a_settings: &[u64],
    a_entry: &[u8],
    a_exit: &[u8],
    a_state: &mut [u64],
    a_rows: &mut [u64],
    a_equity: &mut [u64],
    a_trades: &mut [u64],
    a_status: &mut [u64],
    b_table: &[u8],
    b_settings: &[u64],
    b_entry: &[u8],
    b_exit: &[u8],
    b_state: &mut [u64],
    b_rows: &mut [u64],
    b_equity: &mut [u64],
    b_trades: &mut [u64],
    b_status: &mut [u64],
    c_table: &[u8],
    c_settings: &[u64],
    c_entry: &[u8],
    c_exit: &[u8],
    c_state: &mut [u64],
    c_rows: &mut [u64],
    c_equity: &mut [u64],
    c_trades: &mut [u64],
    c_status: &mut [u64],
    d_table: &[u8],
    d_settings: &[u64],
    d_entry: &[u8],
    d_exit: &[u8],
    d_state: &mut [u64],
    d_rows: &mut [u64],
    d_equity: &mut [u64],
    d_trades: &mut [u64],
    d_status: &mut [u64],
) -> u64
    ensures { accounts_call bars.now
        (record {
          first = given a_table.now a_settings.now a_entry.now a_exit.now;
          second = given b_table.now b_settings.now b_entry.now b_exit.now;
          third = given c_table.now c_settings.now c_entry.now c_exit.now;
          fourth = given d_table.now d_settings.now d_entry.now d_exit.now;
        })
        (record {
          stream = stream.entry.now;
          done = done.old;
          first = lent a_state.old a_rows.old a_equity.old a_trades.old a_status.old;
          second = lent b_state.old b_rows.old b_equity.old b_trades.old b_status.old;
          third = lent c_state.old c_rows.old c_equity.old c_trades.old c_status.old;
          fourth = lent d_state.old d_rows.old d_equity.old d_trades.old d_status.old;
        })
        ≡ record {
          answer = result;
          lent = record {
            stream = stream.exit.now;
            done = done.new;
            first = lent a_state.new a_rows.new a_equity.new a_trades.new a_status.new;
            second = lent b_state.new b_rows.new b_equity.new b_trades.new b_status.new;
            third = lent c_state.new c_rows.new c_equity.new c_trades.new c_status.new;
            fourth = lent d_state.new d_rows.new d_equity.new d_trades.new d_status.new;
          };
        } }
{
    step_accounts(
        stream, bars, done, a_table, a_settings, a_entry, a_exit, a_state, a_rows, a_equity,
        a_trades, a_status, b_table, b_settings, b_entry, b_exit, b_state, b_rows, b_equity,
        b_trades, b_status, c_table, c_settings, c_entry, c_exit, c_state, c_rows, c_equity,
        c_trades, c_status, d_table, d_settings, d_entry, d_exit, d_state, d_rows, d_equity,
        d_trades, d_status,
    )
}
