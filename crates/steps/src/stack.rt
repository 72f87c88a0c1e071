// The values of a run in two lent lists, side by side: the number, and whether there is one. So one run serves any number of places.
ghost use Rattle.std.specs.Prelude.{◌≡◌, ◌<◌, length, set};
ghost use Rattle.steps.specs.Places.{value_at, numbers_with, is_there};

// The value at a place.
pub(crate) fn at(numbers: &[f64], there: &[bool], i: usize) -> Option<f64>
    requires i_in_bounds { i < length numbers.now }
    requires i_in_bounds_2 { i < length there.now }
    ensures { result ≡ value_at numbers.now there.now i }
{
    if there[i] {
        return Some(numbers[i]);
    }
    None
}

// A value put at a place. Of a missing one nothing but that is written.
pub(crate) fn put(numbers: &mut [f64], there: &mut [bool], i: usize, v: Option<f64>)
    requires i_in_bounds { i < length numbers.old }
    requires i_in_bounds_2 { i < length there.old }
    ensures numbers_after { numbers.new ≡ numbers_with numbers.old i v }
    ensures there_after { there.new ≡ set there.old i (is_there v) }
{
    match v {
        None => {
            there[i] = false;
        }
        Some(x) => {
            numbers[i] = x;
            there[i] = true;
        }
    }
}
