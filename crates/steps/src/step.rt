// A step: its fields, and what it says.
use table::series::Series;

// The fields of a step's 16 bytes, laid out as a node's: kind (1), selector (1), skip (2), n (4), constant bits (8).
#[derive(Clone, Copy)]
pub struct Step {
    pub kind: u8,
    pub selector: u8,
    pub skip: u64,
    pub n: u64,
    pub bits: u64,
}

// What a step says, taken from its fields. A look-back is how many rows before the newest one a leaf is read.
#[derive(Clone, Copy)]
pub enum Op {
    // The constant with these bits, at a look-back.
    Const(u64, u64),
    // A slot, at a look-back.
    Ref(u8, u64),
    // A price by its selector, at a look-back.
    Price(u8, u64),
    // Highest or Lowest, by the kind, of a price or a slot: over so many rows, the newest of them at a look-back.
    Extreme(u8, Series, u64, u64),
    // Add, Sub, Mul, Div, by the kind.
    Arith(u8),
    // Gt, Lt, Ge, Le, Eq, Ne, by the kind.
    Compare(u8),
    // CrossAbove, CrossBelow, by the kind.
    Cross(u8),
    Between,
    // Sets the answer.
    Answer(bool),
    // Turns the answer.
    Turn,
    InPosition(bool),
    // By the selector of a comparison, with a number of bars.
    BarsSinceEntry(u8, u64),
    // Passes over so many steps where the answer is this one.
    JumpIf(bool, u64),
    // A kind that these papers do not name: nothing is done.
    Unknown,
}
