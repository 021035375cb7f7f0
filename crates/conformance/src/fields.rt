// The fields of a line: reading them, none where one is missing or malformed, and printing those of an answer.
// Bytes are in hexadecimal, `-` where there are none.
ghost use Rattle.std.specs.Prelude.{◌≡◌, ◌≤◌, ◌*◌, length, IfSome};

use std::io;
use std::io::{Stdout, Write};

// No output is longer.
const LENGTHS: usize = 65536;

// The digits of a word.
const DIGITS: usize = 16;

// The highest number that a call takes.
pub const MOST: usize = 4294967295;

// Whether the line begins with this name.
pub fn is_named(line: &[u8], name: &[u8]) -> bool {
    let Some(first) = texts::field(line, 0) else {
        return false;
    };
    &line[first.start..first.end] == name
}

// Whether the line begins with this name and has no more than this many fields.
pub fn is_command(line: &[u8], name: &[u8], count: usize) -> bool {
    is_named(line, name) && texts::field(line, count).is_none()
}

// Room for the bytes of a field: a line of 80,000 bytes has no more. To find the length of an array that is written out
// the prover walks every byte, and of one that a call returns it does not.
pub fn room() -> [u8; 40000]
    ensures { length result ≡ 40000 }
{
    [0; 40000]
}

// The bytes that field k stands for, in the lent room.
pub fn read_bytes<'a>(line: &[u8], k: usize, room: &'a mut [u8]) -> Option<&'a [u8]>
    requires { length line.now ≤ 2 * length room.old }
    ensures { IfSome result (λ b. length b.now ≤ length room.old) }
{
    let field = texts::field(line, k)?;
    let n = protocol::read_bytes(&line[field.start..field.end], room)?;
    Some(&room[..n])
}

// A number that is at most so much.
pub fn read_number(line: &[u8], k: usize, most: usize) -> Option<usize>
    requires { most ≤ 4294967295 }
    ensures { IfSome result (λ n. n ≤ most) }
{
    let field = texts::field(line, k)?;
    protocol::read_number(&line[field.start..field.end], most)
}

// The length of an output.
pub fn read_length(line: &[u8], k: usize) -> Option<usize>
    ensures { IfSome result (λ n. n ≤ 65536) }
{
    read_number(line, k, LENGTHS)
}

// The word of field k.
pub fn read_word(line: &[u8], k: usize) -> Option<u64> {
    let field = texts::field(line, k)?;
    word_of(&line[field.start..field.end])
}

// The word of 8 bytes, lowest first.
pub fn word_of(text: &[u8]) -> Option<u64> {
    if text.len() != DIGITS {
        return None;
    }
    let mut bytes = [0u8; 8];
    protocol::read_bytes(text, &mut bytes)?;
    Some(u64::from_le_bytes(bytes))
}

pub fn print_bytes(stdout: &mut Stdout, b: &[u8]) -> io::Result<()>
    requires { length b.now ≤ 65536 }
{
    let mut text = [0u8; 131073];
    let n = protocol::write_bytes(b, &mut text);
    stdout.write_all(&text[..n])
}
