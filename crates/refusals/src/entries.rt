// Refusal 12: the settings of entries, their order kind, levels, fee and lot.
ghost use Rattle.std.specs.Prelude.{◌≡◌};
ghost use Rattle.refusals.specs.Lines.{judged};
ghost use Rattle.refusals.specs.Settings.{order_type_known, lot_fine, entry_lines};

use crate::verdict::Verdict;
use execution::level::{Entries, OrderType};
use words::refusal::Refusal;

fn order_type_known(order_type: OrderType) -> bool
    ensures { result ≡ order_type_known order_type }
{
    match order_type {
        OrderType::Unknown => false,
        OrderType::Market => true,
        OrderType::Limit => true,
        OrderType::Stop => true,
        OrderType::StopLimit => true,
    }
}

// A lot is finite and not negative.
fn lot_fine(lot: f64) -> bool
    ensures { result ≡ lot_fine lot }
{
    if floats::is_finite(lot) {
        return 0.0 <= lot;
    }
    false
}

// Settings 20 to 24.
pub(crate) fn judge_entries(e: Entries, lot: f64) -> Verdict
    ensures { result ≡ judged (entry_lines e lot) }
{
    let order_type = e.order_type;
    if !order_type_known(order_type) {
        return Err(Refusal::Setting(20));
    }
    if !floats::is_finite(e.level_pct) {
        return Err(Refusal::Setting(21));
    }
    if !floats::is_finite(e.limit_pct) {
        return Err(Refusal::Setting(22));
    }
    if !floats::is_finite(e.maker_bps) {
        return Err(Refusal::Setting(23));
    }
    if !lot_fine(lot) {
        return Err(Refusal::Setting(24));
    }
    Ok(())
}
