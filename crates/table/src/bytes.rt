// Numbers in a table's bytes, lowest byte first. A byte past the end counts as 0, so every place has a number. Each reads its two halves
// by the one before it, in the type that its caller counts in: one function over the width would be a loop, and no shorter to read.
ghost use Rattle.std.specs.Prelude.{◌≡◌, ◌<◌, get_or};
ghost use Rattle.table.specs.Bytes.{u16, u32, u64};

pub fn byte(t: &[u8], at: usize) -> u8
    ensures { result ≡ get_or t.now at 0 }
{
    if at < t.len() { t[at] } else { 0 }
}

#[tactic(auto, unfolding(crate::specs::Bytes::u16))]
pub fn read16(t: &[u8], at: usize) -> usize
    ensures { (result ≡ u16 t.now at) × (result < 65536) }
{
    if at < t.len() {
        let a = byte(t, at);
        let b = byte(t, at + 1);
        a as usize + 256 * b as usize
    } else {
        0
    }
}

#[tactic(auto, unfolding(crate::specs::Bytes::u32))]
pub fn read32(t: &[u8], at: usize) -> u64
    ensures { (result ≡ u32 t.now at) × (result < 4294967296) }
{
    if at < t.len() {
        let a = read16(t, at);
        let b = read16(t, at + 2);
        a as u64 + 65536 * b as u64
    } else {
        0
    }
}

#[tactic(auto, unfolding(crate::specs::Bytes::u64))]
pub fn read64(t: &[u8], at: usize) -> u64
    ensures { result ≡ u64 t.now at }
{
    if at < t.len() {
        let a = read32(t, at);
        let b = read32(t, at + 4);
        a + 4294967296 * b
    } else {
        0
    }
}
