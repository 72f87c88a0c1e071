// A room filled from a line that says how many words or bytes it lends, in its second word, and then has them; and a part of a room.
ghost use Rattle.std.specs.Prelude.{◌≡◌, ◌-◌, ◌*◌, ◌/◌, ◌^◌};
ghost use Rattle.text.specs.Rooms.{part_of, byte_in, filled, filled_bytes};

// The words or bytes from one place up to another; none where there are not as many.
#[tactic(auto, unfolding(crate::specs::Rooms::part_of))]
pub fn part<T: Copy>(room: &[T], from: usize, to: usize) -> &[T]
    ensures { result.now ≡ part_of room.now from to }
{
    if to < from {
        return &room[room.len()..];
    }
    if room.len() < to {
        return &room[room.len()..];
    }
    &room[from..to]
}

// Fills a room with the words of a line after its second, as many as that one says; zeros where they end before.
pub fn fill(room: &mut [u64], line: &[u64])
    ensures { room.new ≡ filled room.old line.now }
{
    let n = room.len().min(words::word(line, 1) as usize);
    for i in 0..n {
        room[i] = words::word_from(line, 2, i);
    }
}

// Byte i of the bytes that the words of a line hold, eight each, in the order of their digits.
#[tactic(auto, unfolding(crate::specs::Rooms::byte_in))]
fn byte_from(line: &[u64], i: usize) -> u8
    ensures { result ≡ byte_in line.now i }
{
    let word = words::word_from(line, 2, i / 8);
    ((word >> (56 - 8 * (i % 8))) % 256) as u8
}

// The same as `fill` for a room of bytes. (Two functions: they share only the loop, since each reads its line in its own way.)
pub fn fill_bytes(room: &mut [u8], line: &[u64])
    ensures { room.new ≡ filled_bytes room.old line.now }
{
    let n = room.len().min(words::word(line, 1) as usize);
    for i in 0..n {
        room[i] = byte_from(line, i);
    }
}
