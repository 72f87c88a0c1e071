// Quotients as metrics.rs forms them.
ghost use Rattle.std.specs.Prelude.{◌≡◌};
ghost use Rattle.metrics.specs.Quotients as Quotients;

// A mean over a deviation, and 0 where there is none.
#[tactic(auto, unfolding(crate::specs::Quotients::mean_over))]
pub fn mean_over(mean: f64, deviation: f64) -> f64
    ensures { result ≡ Quotients.mean_over mean deviation }
{
    if floats::abs(deviation) < floats::EPS {
        return 0.0;
    }
    mean / deviation
}

// A gain over a loss; where there is none, a gain is infinite and anything else is 0.
#[tactic(auto, unfolding(crate::specs::Quotients::gain_over))]
pub fn gain_over(gain: f64, loss: f64) -> f64
    ensures { result ≡ Quotients.gain_over gain loss }
{
    if floats::abs(loss) < floats::EPS {
        if 0.0 < gain {
            return floats::float_of(0x7ff0_0000_0000_0000);
        }
        return 0.0;
    }
    gain / loss
}
