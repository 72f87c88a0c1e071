#![tactic(auto)]
// Lines of words, for the programs that replay stored cases. A word is 64 bits, written as 16 hexadecimal digits with one byte
// after them: a space, or a newline at a line's end. What is written to a writer whose bytes are known is promised; no contract can say
// what a call of the operating system moves, nor what is read from it: the answers are held to stored ones.
pub mod rooms;

ghost use Rattle.std.specs.Prelude.{◌≡◌, ◌+◌, ◌<◌, ◌≤◌, [], ◌∷◌, ◌++◌, OnOk};
ghost use Rattle.std.specs.Io.{ReadsAtMost};
ghost use Rattle.std.specs.Io.KnownBytes.{Appends};
ghost use Rattle.text.specs.Spelling.{spelt, spelt_words};

use std::io;
use std::io::{ErrorKind, Read, Write};

const NEWLINE: u8 = 10;

const SPACE: u8 = 32;

// A word of the input and the byte after it, which is 0 where the input ends.
#[derive(Drop)]
struct Token {
    word: u64,
    after: u8,
}

// What a digit stands for; 0 for any other byte.
fn digit(byte: u8) -> u8 {
    match byte {
        b'0'..=b'9' => byte - b'0',
        b'a'..=b'f' => byte - b'a' + 10,
        _ => 0,
    }
}

// The word that digits spell; of more than 16 the last 16 count.
fn word_of(digits: &[u8]) -> u64 {
    let mut word = 0u64;
    for byte in digits {
        word = word % 0x1000_0000_0000_0000 * 16 + u64::from(digit(*byte)) % 16;
    }
    word
}

// The next word of the input. An input that ends within a word has no more.
fn next_word<R: Read>(input: &mut R) -> io::Result<Token> {
    let mut bytes = [0u8; 17];
    match input.read_exact(&mut bytes) {
        Ok(()) => Ok(Token {
            word: word_of(&bytes[..16]),
            after: bytes[16],
        }),
        Err(error) if error.kind() == ErrorKind::UnexpectedEof => Ok(Token { word: 0, after: 0 }),
        Err(error) => Err(error),
    }
}

// Reads a line into the room's first places and answers how many words it has, 0 at the end of the input. A line that is longer
// than the room is taken for two.
pub fn read_line<R: Read>(input: &mut R, room: &mut [u64]) -> io::Result<usize>
    ensures { ReadsAtMost result room.new }
{
    for n in 0..room.len() {
        let token = next_word(input)?;
        if token.after == 0 {
            return Ok(n);
        }
        room[n] = token.word;
        if token.after == NEWLINE {
            return Ok(n + 1);
        }
    }
    Ok(room.len())
}

// Writes a word's digits and the byte after them.
fn write_word<W: Write>(output: &mut W, word: u64, after: u8) -> io::Result<()>
    ensures { OnOk result (Appends (W.contents output.old) (W.contents output.new) (spelt word ++ (after ∷ []))) }
{
    write!(output, "{word:016x}")?;
    output.write_all(&[after])
}

// The byte after word i of n: a space, or after the last one `end`.
fn byte_after(i: usize, n: usize, end: u8) -> u8
    requires { i < n }
    ensures space { i + 1 < n → result ≡ 32 }
    ensures last { n ≤ i + 1 → result ≡ end }
{
    if i + 1 < n { SPACE } else { end }
}

// Writes the words, a space after each but the last, and after that one the byte `end`.
pub fn write_words<W: Write>(output: &mut W, words: &[u64], end: u8) -> io::Result<()>
    ensures { OnOk result (Appends (W.contents output.old) (W.contents output.new) (spelt_words words.now end)) }
{
    let n = words.len();
    for (i, word) in words.iter().enumerate() {
        write_word(output, *word, byte_after(i, n, end))?;
    }
    Ok(())
}
