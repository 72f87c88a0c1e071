// Where each field of an image stands, in bytes: numbers first, then amounts of eight bytes each, spare bytes and the rows.

// The bytes before the rows.
pub const HEAD_BYTES: usize = 256;

// `W`, `D` and `P`.
pub const MARK_W: usize = 0;

pub const MARK_D: usize = 1;

pub const MARK_P: usize = 2;

pub const SLOTS: usize = 3;

pub const VERSION: usize = 4;

pub const DEPTH: usize = 6;

pub const BARS_SEEN: usize = 8;

pub const ROWS_HELD: usize = 12;

pub const ORDER: usize = 16;

pub const ORDER_KIND: usize = 17;

pub const ENTERED: usize = 18;

pub const SPARE: usize = 19;

pub const ENTRY_BAR: usize = 20;

pub const ORDER_DELAY: usize = 24;

pub const CASH: usize = 32;

pub const QTY: usize = 40;

pub const ENTRY_PRICE: usize = 48;

pub const ENTRY_TIME: usize = 56;

pub const ENTRY_FEE: usize = 64;

pub const FEES_PAID: usize = 72;

pub const EXTREME: usize = 80;

pub const LAST_TIME: usize = 88;

pub const LAST_CLOSE: usize = 96;

pub const ORDER_LEVEL: usize = 104;

pub const ORDER_LIMIT: usize = 112;

pub const OPEN_FUNDING: usize = 120;

pub const OPEN_WORST: usize = 128;

// Zeros from here up to the rows.
pub const SPARE_TAIL: usize = 136;

pub const SPARE_TAIL_BYTES: usize = HEAD_BYTES - SPARE_TAIL;
