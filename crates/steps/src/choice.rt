// Which list is run to leave a position.
ghost use Rattle.std.specs.Prelude.{◌≡◌};
ghost use Rattle.steps.specs.Choice.{exit_list};

use rules::values;

// The exit steps with a long position, the short exit steps with a short one, and when flat the empty start of the exit steps: always a
// part of what was lent.
pub fn exit_list<'a>(qty: f64, exit: &'a [u8], short_exit: &'a [u8]) -> &'a [u8]
    ensures { result.now ≡ exit_list qty exit.now short_exit.now }
{
    if values::in_position(qty) {
        if qty > 0.0 {
            return exit;
        }
        return short_exit;
    }
    &exit[..0]
}
