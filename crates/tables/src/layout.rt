// The layout of the flat tables: fourteen sections of 64 words each. Nothing else spells one of these numbers.
ghost use Rattle.std.specs.Prelude.{◌≡◌, ◌+◌, ◌≤◌, take, drop};
ghost use Rattle.tables.specs.Flat.{whole_length, room};
ghost use Rattle.tables.specs.Code.Layout.{Whole};

// The words of a section, and of all.
pub const ROOM: usize = 64;

pub const WHOLE: usize = ROOM * 14;

// The first section has the counts, in the sections' order of document 01, and behind the users' the word of those present.
pub const ROLE_COUNT: usize = 0;

pub const USER_COUNT: usize = 1;

pub const PRESENT: usize = 2;

pub const SESSION_COUNT: usize = 3;

pub const OPERATION_COUNT: usize = 4;

pub const OBJECT_COUNT: usize = 5;

pub const PERMISSION_COUNT: usize = 6;

pub const CR_COUNT: usize = 7;

pub const CU_COUNT: usize = 8;

pub const CP_COUNT: usize = 9;

pub const DONE_COUNT: usize = 10;

// Where the others begin.
pub const ROLE_ROWS: usize = ROOM;

pub const USER_ROWS: usize = ROOM * 2;

pub const SESSION_USERS: usize = ROOM * 3;

pub const SESSION_ROLES: usize = ROOM * 4;

pub const PERMISSION_ROWS: usize = ROOM * 5;

pub const CR: usize = ROOM * 6;

pub const CU: usize = ROOM * 7;

pub const CP: usize = ROOM * 8;

pub const OBJECT_ROWS: usize = ROOM * 9;

pub const OPERATION_ROWS: usize = ROOM * 10;

pub const DONE_USERS: usize = ROOM * 11;

pub const DONE_OBJECTS: usize = ROOM * 12;

pub const DONE_OPERATIONS: usize = ROOM * 13;

// n words from word `from` on.
pub fn part(words: &[u64], from: usize, n: usize) -> &[u64]
    requires { (Whole words.now) × ((from + room ≤ whole_length) × (n ≤ room)) }
    ensures { result.now ≡ take n (drop from words.now) }
{
    let end = from + n;
    &words[from..end]
}
