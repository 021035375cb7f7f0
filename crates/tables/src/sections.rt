// The ten sections, read front to back, each stored in its 64 words as it is read.
// Where a section is stored, the layout says.
ghost use Rattle.std.specs.Prelude.{◌≡◌, ◌+◌, ◌*◌, ◌≤◌, ◌<◌, length, get_or, drop};
ghost use Rattle.tables.specs.Flat.{room, whole_length};
ghost use Rattle.tables.specs.Reading.{word_row, user_row, session_row, done_row, rows as rows_of, section as section_of};
ghost use Rattle.tables.specs.Reading.{permissions as permissions_of, rights as rights_of};
ghost use Rattle.tables.specs.Reading.{collections as collections_of, sections as sections_of};
ghost use Rattle.tables.specs.Code.Layout.{Whole, role_count_at, role_rows_at, user_count_at, session_count_at};
ghost use Rattle.tables.specs.Code.Layout.{operation_count_at, object_count_at, done_count_at};
ghost use Rattle.tables.specs.Code.Reads.{Reads, row_of, RowFits, rows_from, put_users, put_sessions, deed_at, with_deed, put_deeds, RowsAt, SectionAt};
ghost use Rattle.tables.specs.Code.Reads.{with_names, PermissionsAt, RightsAt, CollectionsAt, Filled};

use crate::layout::{
    CP, CP_COUNT, CR, CR_COUNT, CU, CU_COUNT, DONE_COUNT, DONE_OBJECTS, DONE_OPERATIONS,
    DONE_USERS, OBJECT_COUNT, OBJECT_ROWS, OPERATION_COUNT, OPERATION_ROWS, PERMISSION_COUNT,
    PERMISSION_ROWS, PRESENT, ROLE_COUNT, ROLE_ROWS, SESSION_COUNT, SESSION_ROLES, SESSION_USERS,
    USER_COUNT, USER_ROWS,
};
use crate::rows::{ENTERED, LEFT, byte, count, done_row, marked_row, row, session_row};
use crate::{Piece, Row};
use answers::Refusal;
use words::{item, join};

// The rows of a section of words.
pub fn rows(
    bytes: &[u8],
    at: usize,
    n: usize,
    kind: Row,
    words: &mut [u64],
    to: usize,
) -> Result<Piece, Refusal>
    requires at_in_bounds { at ≤ length bytes.now }
    requires n_le_room { (n ≤ room) × (RowFits kind) }
    requires room_bound { (to + room ≤ whole_length) × (Whole words.old) }
    ensures { Reads bytes.now (RowsAt (rows_from to) words.old words.new n) result (rows_of (row_of kind) n (drop at bytes.now)) }
{
    let mut from = at;
    for i in 0..n {
        let read = row(bytes, from, kind)?;
        words[to + i] = read.value;
        from = read.next;
    }
    Ok(Piece {
        value: n as u64,
        next: from,
    })
}

// The rows of the users: their assigned roles, and the word of those present.
pub fn user_rows(
    bytes: &[u8],
    at: usize,
    n: usize,
    roles: u64,
    words: &mut [u64],
) -> Result<Piece, Refusal>
    requires at_in_bounds { at ≤ length bytes.now }
    requires n_le_room { (n ≤ room) × (roles ≤ 64) }
    requires whole { Whole words.old }
    ensures { Reads bytes.now (RowsAt put_users words.old words.new n) result (rows_of (user_row roles) n (drop at bytes.now)) }
{
    let mut present = 0;
    let mut from = at;
    for i in 0..n {
        let row = marked_row(bytes, from, LEFT, roles)?;
        if bytes[from] == ENTERED {
            present = join(present, item(i));
        }
        words[USER_ROWS + i] = row.value;
        from = row.next;
    }
    words[PRESENT] = present;
    Ok(Piece {
        value: n as u64,
        next: from,
    })
}

// The rows of the sessions: the users as words of one item, and the active roles.
pub fn session_rows(
    bytes: &[u8],
    at: usize,
    n: usize,
    users: u64,
    roles: u64,
    words: &mut [u64],
) -> Result<Piece, Refusal>
    requires at_in_bounds { at ≤ length bytes.now }
    requires n_le_room { (n ≤ room) × (roles ≤ 64) }
    requires whole { Whole words.old }
    ensures { Reads bytes.now (RowsAt put_sessions words.old words.new n) result (rows_of (session_row users roles) n (drop at bytes.now)) }
{
    let mut from = at;
    for i in 0..n {
        let row = session_row(bytes, from, users, roles)?;
        words[SESSION_USERS + i] = item(bytes[from] as usize);
        words[SESSION_ROLES + i] = row.value;
        from = row.next;
    }
    Ok(Piece {
        value: n as u64,
        next: from,
    })
}

// Stores the row of Done that begins at `from` as row i: its user, object and operation as words of one item.
pub fn store_deed(bytes: &[u8], from: usize, words: &mut [u64], i: usize)
    requires from_in_bounds { from + 3 ≤ length bytes.now }
    requires i_lt_room { (i < room) × Whole words.old }
    ensures { words.new ≡ with_deed words.old i (deed_at bytes.now from) }
{
    words[DONE_USERS + i] = item(bytes[from] as usize);
    words[DONE_OBJECTS + i] = item(bytes[from + 2] as usize);
    words[DONE_OPERATIONS + i] = item(bytes[from + 1] as usize);
}

// The rows of Done, each stored as it is read.
pub fn done_rows(
    bytes: &[u8],
    at: usize,
    n: usize,
    users: u64,
    operations: u64,
    objects: u64,
    words: &mut [u64],
) -> Result<Piece, Refusal>
    requires at_in_bounds { at ≤ length bytes.now }
    requires n_le_room { n ≤ room }
    requires whole { Whole words.old }
    ensures { Reads bytes.now (RowsAt put_deeds words.old words.new n) result (rows_of (done_row users operations objects) n (drop at bytes.now)) }
{
    let mut from = at;
    for i in 0..n {
        let row = done_row(bytes, from, users, operations, objects)?;
        store_deed(bytes, from, words, i);
        from = row.next;
    }
    Ok(Piece {
        value: n as u64,
        next: from,
    })
}

// Of each of n permissions its object and its operation, as words of one item.
pub fn name_permissions(words: &mut [u64], n: usize, objects: usize)
    requires n_le_room { (n ≤ room) × (n ≤ 8 * objects) }
    requires whole { Whole words.old }
    ensures { words.new ≡ with_names words.old n objects }
{
    for p in 0..n {
        words[OBJECT_ROWS + p] = item(p % objects);
        words[OPERATION_ROWS + p] = item(p / objects);
    }
}

// A section of words: its count is stored at `place`, its rows from `to` on.
pub fn section(
    bytes: &[u8],
    at: usize,
    kind: Row,
    words: &mut [u64],
    place: usize,
    to: usize,
) -> Result<Piece, Refusal>
    requires at_in_bounds { at ≤ length bytes.now }
    requires row_fits { (RowFits kind) × (Whole words.old) }
    requires place_lt_room { (place < room) × (to + room ≤ whole_length) }
    ensures { Reads bytes.now (SectionAt (rows_from to) place words.old words.new) result (section_of (λ n. row_of kind) (drop at bytes.now)) }
{
    let count = count(bytes, at, 64)?;
    words[place] = count.value;
    rows(bytes, count.next, count.value as usize, kind, words, to)
}

// Section 1.
pub fn roles(bytes: &[u8], words: &mut [u64]) -> Result<Piece, Refusal>
    requires { Whole words.old }
    ensures { Reads bytes.now (SectionAt (rows_from role_rows_at) role_count_at words.old words.new) result (section_of (λ n. word_row n) bytes.now) }
{
    let count = count(bytes, 0, 64)?;
    words[ROLE_COUNT] = count.value;
    rows(
        bytes,
        count.next,
        count.value as usize,
        Row::Plain(count.value),
        words,
        ROLE_ROWS,
    )
}

// Section 2.
pub fn users(bytes: &[u8], at: usize, roles: u64, words: &mut [u64]) -> Result<Piece, Refusal>
    requires at_in_bounds { at ≤ length bytes.now }
    requires roles_bound { (roles ≤ 64) × (Whole words.old) }
    ensures { Reads bytes.now (SectionAt put_users user_count_at words.old words.new) result (section_of (λ n. user_row roles) (drop at bytes.now)) }
{
    let count = count(bytes, at, 64)?;
    words[USER_COUNT] = count.value;
    user_rows(bytes, count.next, count.value as usize, roles, words)
}

// Section 3.
pub fn sessions(
    bytes: &[u8],
    at: usize,
    users: u64,
    roles: u64,
    words: &mut [u64],
) -> Result<Piece, Refusal>
    requires at_in_bounds { at ≤ length bytes.now }
    requires roles_bound { (roles ≤ 64) × (Whole words.old) }
    ensures { Reads bytes.now (SectionAt put_sessions session_count_at words.old words.new) result (section_of (λ n. session_row users roles) (drop at bytes.now)) }
{
    let count = count(bytes, at, 64)?;
    words[SESSION_COUNT] = count.value;
    session_rows(bytes, count.next, count.value as usize, users, roles, words)
}

// Section 6.
pub fn permissions(
    bytes: &[u8],
    at: usize,
    product: u64,
    roles: u64,
    words: &mut [u64],
) -> Result<Piece, Refusal>
    requires at_in_bounds { at ≤ length bytes.now }
    requires product_bound { (product ≤ 64) × (roles ≤ 64) × (Whole words.old) }
    ensures { Reads bytes.now (PermissionsAt words.old words.new product) result (permissions_of product roles (drop at bytes.now)) }
{
    let count = byte(bytes, at)?;
    if count.value != product {
        return Err(Refusal::Miscounted);
    }
    words[PERMISSION_COUNT] = count.value;
    rows(
        bytes,
        count.next,
        count.value as usize,
        Row::Marked(roles),
        words,
        PERMISSION_ROWS,
    )
}

// Sections 4 to 6. The value is the count of permissions.
pub fn rights(bytes: &[u8], at: usize, roles: u64, words: &mut [u64]) -> Result<Piece, Refusal>
    requires at_in_bounds { at ≤ length bytes.now }
    requires roles_bound { (roles ≤ 64) × (Whole words.old) }
    ensures { Reads bytes.now (RightsAt words.old words.new) result (rights_of roles (drop at bytes.now)) }
{
    let operations = count(bytes, at, 8)?;
    words[OPERATION_COUNT] = operations.value;
    let objects = count(bytes, operations.next, 8)?;
    words[OBJECT_COUNT] = objects.value;
    let product = operations.value * objects.value;
    let named = permissions(bytes, objects.next, product, roles, words)?;
    name_permissions(words, named.value as usize, objects.value as usize);
    Ok(named)
}

// Sections 7 to 9.
pub fn collections(
    bytes: &[u8],
    at: usize,
    roles: u64,
    users: u64,
    permissions: u64,
    words: &mut [u64],
) -> Result<Piece, Refusal>
    requires at_in_bounds { at ≤ length bytes.now }
    requires roles_bound { (roles ≤ 64) × (users ≤ 64) × (permissions ≤ 64) }
    requires whole { Whole words.old }
    ensures { Reads bytes.now (CollectionsAt words.old words.new) result (collections_of roles users permissions (drop at bytes.now)) }
{
    let cr = section(bytes, at, Row::Plain(roles), words, CR_COUNT, CR)?;
    let cu = section(bytes, cr.next, Row::Plain(users), words, CU_COUNT, CU)?;
    section(bytes, cu.next, Row::Plain(permissions), words, CP_COUNT, CP)
}

// Section 10, where the counts of operations and objects are stored.
pub fn done(bytes: &[u8], at: usize, users: u64, words: &mut [u64]) -> Result<Piece, Refusal>
    requires at_in_bounds { at ≤ length bytes.now }
    requires whole { Whole words.old }
    ensures { Reads bytes.now (SectionAt put_deeds done_count_at words.old words.new) result (section_of (λ n. done_row users (get_or words.old operation_count_at 0) (get_or words.old object_count_at 0)) (drop at bytes.now)) }
{
    let count = count(bytes, at, 64)?;
    let operations = words[OPERATION_COUNT];
    let objects = words[OBJECT_COUNT];
    words[DONE_COUNT] = count.value;
    done_rows(
        bytes,
        count.next,
        count.value as usize,
        users,
        operations,
        objects,
        words,
    )
}

// All ten sections.
pub fn sections(bytes: &[u8], words: &mut [u64]) -> Result<Piece, Refusal>
    requires { Whole words.old }
    ensures { Reads bytes.now (Filled words.old words.new) result (sections_of bytes.now) }
{
    let roles = roles(bytes, words)?;
    let users = users(bytes, roles.next, roles.value, words)?;
    let sessions = sessions(bytes, users.next, users.value, roles.value, words)?;
    let rights = rights(bytes, sessions.next, roles.value, words)?;
    let held = collections(
        bytes,
        rights.next,
        roles.value,
        users.value,
        rights.value,
        words,
    )?;
    done(bytes, held.next, users.value, words)
}
