#![tactic(auto)]
// The answer to a rule table as a line of text: `accepted nodes 7 rows 3` or `refused 6 at 2`, and a newline.
mod put;

ghost use Rattle.std.specs.Prelude.{◌≡◌, ◌≤◌, length, take, IfOk, OnOk, IfSome};
ghost use Rattle.std.specs.Io.KnownBytes.{Appends};
ghost use Rattle.table.specs.Checked.{checked};
ghost use Rattle.answers.specs.Text.{put, next, IsPrefixLen};
ghost use Rattle.answers.specs.Lines.{two_numbers, refused_line, line_of};

use put::{put, put_decimal};
use std::alloc::Global;
use std::io;
use std::io::{Read, Write};
use table::answer::Accepted;
use words::refusal::Refusal;

// "the first 4,113 bytes": as many bytes of an input as a program reads. One more than the longest table has, so that a longer input is
// refused: the stored input of `toolong` is that long.
pub const MOST_READ: usize = 4113;

// Puts a line with two numbers in it at the start of the room and answers how many bytes it has; where it does not fit, 0.
fn put_numbers(room: &mut [u8], what: &[u8], first: u64, then: &[u8], second: u64) -> usize
    requires { (length what.now ≤ 16) × (length then.now ≤ 6) }
    ensures value { result ≡ next room.old 0 (two_numbers what.now first then.now second) }
    ensures room_after { room.new ≡ put room.old 0 (two_numbers what.now first then.now second) }
    ensures prefix_len { IsPrefixLen result room.new }
{
    let mut line = [10u8; 64];
    let a = put(&mut line, 0, what);
    let b = put_decimal(&mut line, a, first);
    let c = put(&mut line, b, then);
    let d = put_decimal(&mut line, c, second);
    put(room, 0, &line[..d + 1])
}

// Puts the line of a refusal at the start of the room, whatever its number and its place are, and answers how many bytes it has, 53 at the
// most; where it does not fit, 0, and the room is as it was.
pub fn put_refused(room: &mut [u8], number: u64, place: u64) -> usize
    ensures value { result ≡ next room.old 0 (refused_line number place) }
    ensures room_after { room.new ≡ put room.old 0 (refused_line number place) }
    ensures prefix_len { IsPrefixLen result room.new }
{
    put_numbers(room, b"refused ", number, b" at ", place)
}

// Puts the line of an answer at the start of the room and answers how many bytes it has, 62 at the most; where it does not
// fit, 0, and the room is as it was.
pub fn put_answer(room: &mut [u8], answer: Result<Accepted, Refusal>) -> usize
    ensures value { result ≡ next room.old 0 (line_of answer) }
    ensures room_after { room.new ≡ put room.old 0 (line_of answer) }
    ensures prefix_len { IsPrefixLen result room.new }
{
    match answer {
        Ok(Accepted { nodes, rows }) => put_numbers(
            room,
            b"accepted nodes ",
            nodes as u64,
            b" rows ",
            rows,
        ),
        Err(refusal) => put_refused(room, refusal.number(), refusal.place()),
    }
}

// Reads a table: so many bytes of the input, or all of it where it has fewer.
pub fn read_table<R: Read + Drop>(alloc: Global, input: R) -> io::Result<Vec<u8>>
    ensures { IfOk result (λ table. IfSome (R.remaining input) (λ bytes. table.items ≡ take 4113 bytes)) }
{
    let mut table = Vec::with_capacity(alloc, MOST_READ)?;
    input.take(MOST_READ as u64).read_to_end(&mut table)?;
    Ok(table)
}

// Reads a table and writes the answer to it as a line.
pub fn answer_to<R: Read + Drop, W: Write>(
    alloc: Global,
    input: R,
    output: &mut W,
) -> io::Result<()>
    ensures { OnOk result (IfSome (R.remaining input) (λ bytes.
        Appends (W.contents output.old) (W.contents output.new) (line_of (checked (take 4113 bytes))))) }
{
    let table = read_table(alloc, input)?;
    let checked = table::check(&table);
    let answer = checked.answer;
    let mut line = [0u8; 64];
    let n = put_answer(&mut line, answer);
    output.write_all(&line[..n])
}

// Reads a table from standard input and writes the answer to it.
pub fn answer_input(rt: &(impl Input + Print + AllocGlobal)) -> io::Result<()> {
    answer_to(rt.alloc(), rt.reader(), &mut io::writer(rt))
}
