// The status of an account: a number, a place, a bar of the stream.
ghost use Rattle.std.specs.Prelude.{◌≡◌};
ghost use Rattle.accounts.specs.Status.{is_stopped, stopped_with};

pub const STATUS_WORDS: usize = 3;

// Whether an account is stopped.
pub fn is_stopped(status: &[u64]) -> bool
    ensures { result ≡ is_stopped status.now }
{
    words::word(status, 0) != 0
}

// Stops an account, with number and place, at a bar of the stream.
pub fn stop(status: &mut [u64], number: u64, place: u64, bar: u64)
    ensures { status.new ≡ stopped_with status.old number place bar }
{
    let stopped = [number, place, bar];
    words::put(status, 0, &stopped);
}
