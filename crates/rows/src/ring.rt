// A full room used as a ring, so that nothing moves while rows are added; and a room turned so that its oldest row stands first again.
ghost use Rattle.std.specs.Prelude.{◌≡◌, ◌++◌, ◌≤◌, length, take, drop};
ghost use Rattle.rows.specs.Ring.{start_within, ring_place, turned};

// How many rows a room holds, and which of them is the oldest. While there is a place left that is row 0.
#[derive(Clone, Copy)]
pub struct Ring {
    pub held: usize,
    pub start: usize,
}

// The row that rows of so many places begin at: the first where there is no such row.
#[tactic(auto, unfolding(crate::specs::Ring::start_within))]
pub fn first_of(places: usize, start: usize) -> usize
    ensures { result ≡ start_within places start }
{
    if start < places { start } else { 0 }
}

// Where row i of them stands.
#[tactic(auto, unfolding(crate::specs::Ring::ring_place))]
pub fn place(places: usize, first: usize, i: usize) -> usize
    ensures { result ≡ ring_place places first i }
{
    if places <= i {
        return i;
    }
    if first < places - i {
        return first + i;
    }
    first - (places - i)
}

// The words before `at` and those from there up to `end` change places: each of the two is turned round, and then both as one.
// (The library's `rotate_left` keeps words on the stack meanwhile, and the stack of a small device is counted.)
fn change_places(room: &mut [u64], at: usize, end: usize)
    requires { (at ≤ end) × (end ≤ length room.old) }
    ensures { room.new ≡ drop at (take end room.old) ++ take at (take end room.old) ++ drop end room.old }
{
    let front: usize = 0;
    words::moving::reverse(&mut room[front..at]);
    words::moving::reverse(&mut room[at..end]);
    words::moving::reverse(&mut room[front..end]);
}

// Turns a room so that row `start` stands first, each row `width` words wide. A part of a row at the end is not touched.
pub fn turn(room: &mut [u64], width: usize, start: usize)
    ensures { room.new ≡ turned width start room.old }
{
    if start == 0 {
        return;
    }
    if width == 0 {
        return;
    }
    let places = room.len() / width;
    if places <= start {
        return;
    }
    change_places(room, start * width, places * width);
}
