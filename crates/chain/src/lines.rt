// The lines of an explanation, as words.

// The sorts of a line: what it shows.
// Numbers, no enum: the sort is a word of a line's record, which the C interface lays down.
pub const LINK: u64 = 0;

pub const VALUES: u64 = 1;

pub const MISSING: u64 = 2;

pub const AT_FIRST_BAR: u64 = 3;

pub const TOO_FEW_BARS: u64 = 4;

pub const POSITION: u64 = 5;

pub const SINCE_ENTRY: u64 = 6;

pub const NO_ENTRY: u64 = 7;

// A line: node, answer, sort, how many of the next four words are used, those four.
pub const LINE_WORDS: usize = 8;

// "the lent list holds fewer than 32 lines" is refused.
pub const MOST_LINES: usize = 32;

// The number of the lent list, as a room.
pub const LINES_ROOM: u64 = 10;
