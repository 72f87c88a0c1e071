// What a judgement says, and a line of it.
ghost use Rattle.std.specs.Prelude.{◌≡◌, [], ◌∷◌, cond, Err};
ghost use Rattle.refusals.specs.Lines.{judged, line};

use words::refusal::Refusal;

// Whether a call can be used: if not, the refusal.
pub type Verdict = Result<(), Refusal>;

// What has to hold, and the refusal where it does not, of whatever type; where it holds, what stands below it decides. Of a line of the table of
// refusals that is `over`.
pub fn line_over<R: Copy>(ok: bool, why: R, below: Result<(), R>) -> Result<(), R>
    ensures { result ≡ cond ok below (Err why) }
{
    if ok { below } else { Err(why) }
}

// A line of the table of refusals by itself.
#[tactic(auto, unfolding(crate::specs::Lines::judged))]
pub fn line(ok: bool, why: Refusal) -> Verdict
    ensures { result ≡ judged (line ok why ∷ []) }
{
    line_over(ok, why, Ok(()))
}
