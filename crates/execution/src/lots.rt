// Whole lots: brokers reject 3.7 contracts.
ghost use Rattle.std.specs.Prelude.{◌≡◌};
ghost use Rattle.execution.specs.Lots.{in_lots, size_in_lots, is_too_large, or_zero};

// How much to order: nothing, more lots than can be counted, or so much.
// No Option or Result: there are three cases, and nothing to order is no refusal.
#[derive(Clone, Copy)]
pub enum Quantity {
    Nothing,
    TooLarge,
    Of(f64),
}

impl Quantity {
    pub fn is_too_large(self) -> bool
        ensures { result ≡ is_too_large self }
    {
        match self {
            Quantity::Nothing => false,
            Quantity::TooLarge => true,
            Quantity::Of(_) => false,
        }
    }

    // The quantity, or 0 where there is none.
    pub fn or_zero(self) -> f64
        ensures { result ≡ or_zero self }
    {
        match self {
            Quantity::Nothing => 0.0,
            Quantity::TooLarge => 0.0,
            Quantity::Of(qty) => qty,
        }
    }
}

// The quantity as a whole number of lots, the largest that `qty` holds. A lot of 0 leaves it as it is.
#[tactic(auto, unfolding(crate::specs::Lots::in_lots, crate::specs::Lots::whole_lots))]
pub fn in_lots(lot: f64, qty: f64) -> Quantity
    ensures { result ≡ in_lots lot qty }
{
    if lot == 0.0 {
        return Quantity::Of(qty);
    }
    let quotient = qty / lot;
    if quotient >= 9007199254740992.0 {
        return Quantity::TooLarge;
    }
    if quotient >= 1.0 {
        return Quantity::Of(floats::sums::counted(floats::as_u64(quotient)) * lot);
    }
    Quantity::Nothing
}

// What a size is in lots.
#[tactic(auto, unfolding(crate::specs::Lots::size_in_lots))]
pub fn size_in_lots(lot: f64, sized: Option<f64>) -> Quantity
    ensures { result ≡ size_in_lots lot sized }
{
    match sized {
        None => Quantity::Nothing,
        Some(qty) => in_lots(lot, qty),
    }
}
