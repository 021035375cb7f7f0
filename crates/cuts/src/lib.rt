// Accepted tables, held as words, cut to what a reader sees (document 02, N10): section by section, through words that start as zeros.
// Nothing here knows rules or the bytes of tables.
#![tactic(auto)]

ghost use Rattle.std.specs.Prelude.{◌≡◌, ◌+◌, ◌≤◌, length, replicate};
ghost use Rattle.tables.specs.Flat.{whole_length, room, padded};
ghost use Rattle.tables.specs.Code.Layout.{Whole};
ghost use Rattle.tables.specs.Code.Reads.{put};
ghost use Rattle.cuts.specs.Cut.{cut as cut_of};
ghost use Rattle.cuts.specs.Code.Cutting.{rows_to, kept_to, firsts_to, Fills, ClosesUp, seen_users, seen_sessions, seen_words, seen_done, Counted, Fitting, Turns};

use tables::layout::{
    CU, CU_COUNT, DONE_COUNT, DONE_OBJECTS, DONE_OPERATIONS, DONE_USERS, PRESENT, ROOM,
    SESSION_COUNT, SESSION_ROLES, SESSION_USERS, USER_COUNT, USER_ROWS, part,
};
use tables::twins::is_new;
use words::{contains, meet};

// The rows of the reader's users; those of the others stay 0.
fn keep_rows(rows: &[u64], reader: u64, kept: &mut [u64])
    requires rows_len_bound { length rows.now ≤ room }
    requires kept_value { kept.old ≡ replicate room 0 }
    ensures { kept.new ≡ padded room (rows_to reader rows.now (length rows.now)) }
{
    for (i, row) in rows.iter().enumerate() {
        if contains(reader, i) {
            kept[i] = *row;
        }
    }
}

// The words of the column beside users of the reader's; how many.
fn keep(users: &[u64], column: &[u64], reader: u64, kept: &mut [u64]) -> usize
    requires users_len_bound { (length users.now ≤ room) × (length column.now ≡ length users.now) }
    requires kept_value { kept.old ≡ replicate room 0 }
    ensures { Fills (kept_to reader users.now column.now (length users.now)) kept.new result }
{
    let mut n = 0;
    for (user, word) in users.iter().zip(column) {
        if meet(*user, reader) != 0 {
            kept[n] = *word;
            n += 1;
        }
    }
    n
}

// The words cut to the reader's users, each once; how many.
fn cut_words(words: &[u64], reader: u64, kept: &mut [u64]) -> usize
    requires words_len_bound { length words.now ≤ room }
    requires kept_value { kept.old ≡ replicate room 0 }
    ensures { Fills (firsts_to reader words.now (length words.now)) kept.new result }
{
    let mut n = 0;
    for word in words {
        let word = meet(*word, reader);
        if is_new(&kept[..n], word) {
            kept[n] = word;
            n += 1;
        }
    }
    n
}

// Writes a section over the words from `at` on.
fn replace(words: &mut [u64], at: usize, section: &[u64])
    requires { at + length section.now ≤ length words.old }
    ensures { words.new ≡ put words.old at section.now }
{
    words[at..at + section.len()].copy_from_slice(section);
}

// Keeps, of the n words from `at` on, those beside a user of the reader's, closed up; how many.
fn close_up(words: &mut [u64], reader: u64, users: usize, n: usize, at: usize) -> usize
    requires whole { (Whole words.old) × (n ≤ room) }
    requires room_bound { (users + room ≤ whole_length) × (at + room ≤ whole_length) }
    ensures { ClosesUp reader users n at words.old words.new result }
{
    let mut kept = [0u64; ROOM];
    let k = keep(part(words, users, n), part(words, at, n), reader, &mut kept);
    replace(words, at, &kept);
    k
}

// The sessions: their roles, and then their users, by which both are kept.
fn sessions(words: &mut [u64], reader: u64)
    requires { Counted words.old }
    ensures { Turns (seen_sessions reader) words.old words.new }
{
    let n = words[SESSION_COUNT] as usize;
    close_up(words, reader, SESSION_USERS, n, SESSION_ROLES);
    let k = close_up(words, reader, SESSION_USERS, n, SESSION_USERS);
    words[SESSION_COUNT] = k as u64;
}

// The rows of Done: their objects and operations, and then their users.
fn done(words: &mut [u64], reader: u64)
    requires { Counted words.old }
    ensures { Turns (seen_done reader) words.old words.new }
{
    let n = words[DONE_COUNT] as usize;
    close_up(words, reader, DONE_USERS, n, DONE_OBJECTS);
    close_up(words, reader, DONE_USERS, n, DONE_OPERATIONS);
    let k = close_up(words, reader, DONE_USERS, n, DONE_USERS);
    words[DONE_COUNT] = k as u64;
}

// The words of CU.
fn collection(words: &mut [u64], reader: u64)
    requires { Counted words.old }
    ensures { Turns (seen_words reader) words.old words.new }
{
    let mut kept = [0u64; ROOM];
    let count = words[CU_COUNT] as usize;
    let n = cut_words(part(words, CU, count), reader, &mut kept);
    words[CU_COUNT] = n as u64;
    replace(words, CU, &kept);
}

// The users' rows, and who of them is present.
fn users(words: &mut [u64], reader: u64)
    requires { Counted words.old }
    ensures { Turns (seen_users reader) words.old words.new }
{
    let mut kept = [0u64; ROOM];
    let count = words[USER_COUNT] as usize;
    keep_rows(part(words, USER_ROWS, count), reader, &mut kept);
    let present = words[PRESENT];
    words[PRESENT] = meet(present, reader);
    replace(words, USER_ROWS, &kept);
}

// Cuts the words of tables to what the reader sees.
pub fn cut(words: &mut [u64], reader: u64)
    requires { Fitting words.old }
    ensures { Turns (cut_of reader) words.old words.new }
{
    sessions(words, reader);
    done(words, reader);
    collection(words, reader);
    users(words, reader);
}
