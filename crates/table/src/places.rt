// Places of refusals.
ghost use Rattle.std.specs.Prelude.{◌≡◌};
ghost use Rattle.table.specs.Order.{or_place, first_place};

// The first place, or the second where there is no first: one call of the library, with the name that the definitions have.
fn or_place(p: Option<usize>, q: Option<usize>) -> Option<usize>
    ensures { result ≡ or_place p q }
{
    p.or(q)
}

// The first place of four, one for each tree. The rules that ask it find their four in a line each; a function that takes the rule as a
// closure would have to say in its contract what each of the four calls is handed.
pub(crate) fn first_place(
    p: Option<usize>,
    q: Option<usize>,
    r: Option<usize>,
    s: Option<usize>,
) -> Option<usize>
    ensures { result ≡ first_place p q r s }
{
    or_place(p, or_place(q, or_place(r, s)))
}
