// Bytes and numbers put into a lent room one after another. What does not fit changes nothing.
ghost use Rattle.std.specs.Prelude.{◌≡◌};
ghost use Rattle.answers.specs.Text.{next, decimal};
ghost use Rattle.answers.specs.Text as Text;

use itoa::Buffer;

// Puts bytes into the room from `at` on and answers the place just past them; where they do not fit, `at`.
#[tactic(auto, unfolding(crate::specs::Text::put, crate::specs::Text::next))]
pub(crate) fn put(room: &mut [u8], at: usize, bytes: &[u8]) -> usize
    ensures value { result ≡ next room.old at bytes.now }
    ensures room_after { room.new ≡ Text.put room.old at bytes.now }
{
    if room.len() < at {
        return at;
    }
    if room.len() - at < bytes.len() {
        return at;
    }
    room[at..at + bytes.len()].copy_from_slice(bytes);
    at + bytes.len()
}

// Puts a number's decimal digits into the room, as `put` does.
pub(crate) fn put_decimal(room: &mut [u8], at: usize, n: u64) -> usize
    ensures value { result ≡ next room.old at (decimal n) }
    ensures room_after { room.new ≡ Text.put room.old at (decimal n) }
{
    let mut buffer = Buffer::new();
    put(room, at, buffer.format(n).as_bytes())
}
