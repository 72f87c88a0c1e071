// The bar that an account is handed: of the stream's slots only its own.
ghost use Rattle.std.specs.Prelude.{◌≡◌, ◌^◌, ◌<◌, ◌≤◌, length};
ghost use Rattle.words.specs.Limits.{bar_words, most_slots};
ghost use Rattle.words.specs.Words.{overwrite};
ghost use Rattle.accounts.specs.Own.{low_bits, own_bar, own_into};

use records::bar::is_whole;
use words::limits::{BAR_FIXED, MOST_SLOTS, ROW_FIXED};

// 2 to the k.
fn power(k: usize) -> u64
    requires { k < most_slots }
    ensures { (result ≡ 2 ^ k) × (0 < result) }
{
    1u64 << k
}

// The lowest bits of a mask, which has 64.
fn low_bits(slots: usize, mask: u64) -> u64
    ensures { result ≡ low_bits slots mask }
{
    if slots < MOST_SLOTS {
        return mask % power(slots);
    }
    mask
}

// The four parts of a bar, one behind another.
fn write_own(stream: usize, slots: usize, bar: &[u64], room: &mut [u64])
    requires { (length bar.now ≡ bar_words stream) × (slots ≤ stream) × (bar_words slots ≤ length room.old) }
    ensures { room.new ≡ overwrite room.old 0 (own_bar stream slots bar.now) }
{
    let mask_at = words::places::BAR_MASK;
    let first = ROW_FIXED;
    let end = first + slots;
    let funding = first + stream;
    let mask = [low_bits(slots, words::word(bar, mask_at))];
    words::put(room, 0, &bar[..mask_at]);
    words::put(room, mask_at, &mask);
    words::put(room, first, &bar[first..end]);
    words::put(room, end, &bar[funding..]);
}

// Writes the bar of an account to the start of a room, out of a bar of the stream. Nothing where that is no bar of the stream's slots, where the account has
// more slots than the stream, or where the room is too small.
pub fn own_bar(stream: usize, slots: usize, bar: &[u64], room: &mut [u64])
    ensures { room.new ≡ own_into stream slots bar.now room.old }
{
    if !is_whole(bar, stream) {
        return;
    }
    if stream < slots {
        return;
    }
    if room.len() < BAR_FIXED + slots {
        return;
    }
    write_own(stream, slots, bar, room);
}
