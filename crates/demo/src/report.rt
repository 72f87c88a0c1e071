// What the demo says on standard output.
use std::io;
use std::io::Write;

// The program why has this line too: the two stand on no crate in common for it, and one for a line would be no plainer.
pub(crate) fn say(output: &mut impl Write, text: &str) -> io::Result<()> {
    output.write_all(text.as_bytes())
}

// A label, a number and what stands behind it.
pub(crate) fn say_count(
    output: &mut impl Write,
    label: &str,
    n: u64,
    after: &str,
) -> io::Result<()> {
    write!(output, "{label}{n}{after}")
}

// A number of hundredths, rounded to the nearest; 0 for what is too large, below 0 or no number.
fn hundredths(x: f64) -> u64 {
    let y = x * 100.0 + 0.5;
    if y > -1.0 {
        if y < 18446744073709551616.0 {
            return std::num::truncating_f64_to_u64(y);
        }
    }
    0
}

fn say_hundredths(output: &mut impl Write, n: u64) -> io::Result<()> {
    write!(output, "{}.{:02}", n / 100, n % 100)
}

// A label, a float with two places and what stands behind it.
pub(crate) fn say_float(
    output: &mut impl Write,
    label: &str,
    x: f64,
    after: &str,
) -> io::Result<()> {
    say(output, label)?;
    if x < 0.0 {
        say(output, "-")?;
        say_hundredths(output, hundredths(-x))?;
    } else {
        say_hundredths(output, hundredths(x))?;
    }
    say(output, after)
}

// Why a trade ended, by its number.
pub(crate) fn say_reason(output: &mut impl Write, reason: u64) -> io::Result<()> {
    match reason {
        1 => say(output, "signal\n"),
        2 => say(output, "stop loss\n"),
        6 => say(output, "end\n"),
        _ => say(output, "\n"),
    }
}
