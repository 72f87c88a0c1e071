// What is written: text, numbers and values.
use std::io;
use std::io::Write;

// A value is shown with six places after the point.
const PLACES: f64 = 1000000.0;

// The program demo has this line too: the two stand on no crate in common for it, and one for a line would be no plainer.
pub(crate) fn say(output: &mut impl Write, text: &str) -> io::Result<()> {
    output.write_all(text.as_bytes())
}

pub(crate) fn say_number(output: &mut impl Write, n: u64) -> io::Result<()> {
    write!(output, "{n}")
}

// A number of millionths: the whole part and six digits.
fn say_millionths(output: &mut impl Write, n: u64) -> io::Result<()> {
    write!(output, "{}.{:06}", n / 1_000_000, n % 1_000_000)
}

// A value by its word: decimal where it is not too large for that, else its bits.
pub(crate) fn say_value(output: &mut impl Write, word: u64) -> io::Result<()> {
    let x = floats::float_of(word);
    let size = floats::abs(x);
    if x != x {
        return say(output, "NaN");
    }
    if size < 1000000000000.0 {
        if x < 0.0 {
            say(output, "-")?;
        }
        return say_millionths(output, floats::as_u64(size * PLACES + 0.5));
    }
    write!(output, "bits {word:016x}")
}
