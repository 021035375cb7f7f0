// Counts and rows at a place in the bytes: a row is complete before it is examined.
// Nothing is stored here.
ghost use Rattle.std.specs.Prelude.{◌≡◌, ◌+◌, ◌≤◌, ◌<◌, length, drop, take};
ghost use Rattle.tables.specs.Reading.{word_from, byte as byte_of, count as count_of, word_within, word_row, marked_row, session_row, done_row};
ghost use Rattle.tables.specs.Code.Reads.{Reads, Is, IsCount, IsMarked, IsSession, IsDeed, row_of, RowFits};

use crate::{Piece, Row};
use answers::Refusal;

// The marks of rows: entered, and of a user's row left (document 02, N6).
pub const ENTERED: u8 = 1;

pub const LEFT: u8 = 2;

pub fn byte(bytes: &[u8], at: usize) -> Result<Piece, Refusal>
    requires { at ≤ length bytes.now }
    ensures { Reads bytes.now Is result (byte_of (drop at bytes.now)) }
{
    if at < bytes.len() {
        return Ok(Piece {
            value: u64::from(bytes[at]),
            next: at + 1,
        });
    }
    Err(Refusal::CutShort)
}

pub fn count(bytes: &[u8], at: usize, limit: u64) -> Result<Piece, Refusal>
    requires { at ≤ length bytes.now }
    ensures { Reads bytes.now (IsCount limit) result (count_of limit (drop at bytes.now)) }
{
    let read = byte(bytes, at)?;
    if limit < read.value {
        return Err(Refusal::Overfull);
    }
    Ok(read)
}

// The word whose lowest byte stands at `at`.
pub fn word(bytes: &[u8], at: usize) -> u64
    requires { at + 8 ≤ length bytes.now }
    ensures { result ≡ word_from (take 8 (drop at bytes.now)) }
{
    let eight: [u8; 8] = bytes[at..at + 8].try_into().unwrap();
    u64::from_le_bytes(eight)
}

pub fn word_within(bytes: &[u8], at: usize, n: u64) -> Result<Piece, Refusal>
    requires at_in_bounds { at + 8 ≤ length bytes.now }
    requires n_bound { n ≤ 64 }
    ensures { Reads bytes.now Is result (word_within n (take 8 (drop at bytes.now)) (drop (at + 8) bytes.now)) }
{
    let w = word(bytes, at);
    if words::outside(w, n) {
        return Err(Refusal::NoSuchItem);
    }
    Ok(Piece {
        value: w,
        next: at + 8,
    })
}

pub fn word_row(bytes: &[u8], at: usize, n: u64) -> Result<Piece, Refusal>
    requires at_in_bounds { at ≤ length bytes.now }
    requires n_bound { n ≤ 64 }
    ensures { Reads bytes.now Is result (word_row n (drop at bytes.now)) }
{
    if bytes.len() - at < 8 {
        return Err(Refusal::CutShort);
    }
    word_within(bytes, at, n)
}

// The mark is the byte at `at`; the value is the word behind it.
pub fn marked_row(bytes: &[u8], at: usize, highest: u8, n: u64) -> Result<Piece, Refusal>
    requires at_in_bounds { at ≤ length bytes.now }
    requires n_bound { n ≤ 64 }
    ensures { Reads bytes.now (IsMarked bytes.now at) result (marked_row highest n (drop at bytes.now)) }
{
    if bytes.len() - at < 9 {
        return Err(Refusal::CutShort);
    }
    let mark = bytes[at];
    if mark == 0 {
        return Err(Refusal::NotEntered);
    }
    if highest < mark {
        return Err(Refusal::BadMark);
    }
    word_within(bytes, at + 1, n)
}

pub fn row(bytes: &[u8], at: usize, kind: Row) -> Result<Piece, Refusal>
    requires at_in_bounds { at ≤ length bytes.now }
    requires row_fits { RowFits kind }
    ensures { Reads bytes.now Is result (row_of kind (drop at bytes.now)) }
{
    match kind {
        Row::Plain(items) => word_row(bytes, at, items),
        Row::Marked(items) => marked_row(bytes, at, ENTERED, items),
    }
}

// The session's user is the byte at `at`.
pub fn session_row(bytes: &[u8], at: usize, users: u64, n: u64) -> Result<Piece, Refusal>
    requires at_in_bounds { at ≤ length bytes.now }
    requires n_bound { n ≤ 64 }
    ensures { Reads bytes.now (IsSession bytes.now at users) result (session_row users n (drop at bytes.now)) }
{
    if bytes.len() - at < 9 {
        return Err(Refusal::CutShort);
    }
    let user = u64::from(bytes[at]);
    if users <= user {
        return Err(Refusal::NoSuchItem);
    }
    word_within(bytes, at + 1, n)
}

// A row of Done: user, operation and object are the bytes at `at`, behind it and behind that; the value is the user.
pub fn done_row(
    bytes: &[u8],
    at: usize,
    users: u64,
    operations: u64,
    objects: u64,
) -> Result<Piece, Refusal>
    requires { at ≤ length bytes.now }
    ensures { Reads bytes.now (IsDeed bytes.now at) result (done_row users operations objects (drop at bytes.now)) }
{
    if bytes.len() - at < 3 {
        return Err(Refusal::CutShort);
    }
    let user = u64::from(bytes[at]);
    if users <= user {
        return Err(Refusal::NoSuchItem);
    }
    if operations <= u64::from(bytes[at + 1]) {
        return Err(Refusal::NoSuchItem);
    }
    if objects <= u64::from(bytes[at + 2]) {
        return Err(Refusal::NoSuchItem);
    }
    Ok(Piece {
        value: user,
        next: at + 3,
    })
}
