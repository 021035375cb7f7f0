// Section 3 in the bytes of tables: the bytes of tables in which a session was opened or closed.
// The words are those after the change, the bytes those before it.
ghost use Rattle.std.specs.Prelude.{◌≡◌, [], ◌∷◌, ◌++◌, ◌+◌, ◌-◌, ◌≤◌, length, get_or, take};
ghost use Rattle.tables.specs.Bytes.{lowest_first};
ghost use Rattle.tables.specs.Code.Layout.{session_count_at};
ghost use Rattle.texts.specs.Code.Overwritten.{Added};
ghost use Rattle.verdicts.specs.Code.Judging.{Loaded};
ghost use Rattle.changes.specs.declared.Change.TheVariants.{Opening, Closing};
ghost use Rattle.sessions.specs.Code.Laying.{row_length, rows_in, next_length, Changed, AddsChanged};

use changes::Change;
use tables::layout::{ROLE_COUNT, SESSION_COUNT, USER_COUNT};
use verdicts::sheet;

// The bytes of a row.
pub const ROW: usize = 9;

// Where the rows begin, behind their count.
fn rows_at(words: &[u64]) -> usize
    requires { Loaded words.now }
    ensures { result ≡ rows_in words.now }
{
    3 + 8 * words[ROLE_COUNT] as usize + ROW * words[USER_COUNT] as usize
}

// The row of a session: its user's number and the word of its active roles.
fn row(user: u8, roles: u64) -> [u8; ROW]
    ensures { result ≡ user ∷ lowest_first 8 roles }
{
    let mut row = [user; ROW];
    sheet::word_behind(1, roles, &mut row);
    row
}

// Adds the bytes before section 3, and its count.
fn add_count(words: &[u64], tables: &[u8], n: usize, out: &mut [u8]) -> usize
    requires loaded { Loaded words.now }
    requires words_in_bounds { (rows_in words.now ≤ length tables.now) × (n + rows_in words.now ≤ length out.old) }
    ensures { Added n (take (rows_in words.now - 1) tables.now ++ (get_or words.now session_count_at 0 ∷ [])) out.old out.new result }
{
    let at = rows_at(words) - 1;
    let count = [words[SESSION_COUNT] as u8];
    let a = texts::add(n, &tables[..at], out);
    texts::add(a, &count, out)
}

// Adds the tables with one row more behind the others.
fn add_opened(
    words: &[u64],
    tables: &[u8],
    user: u32,
    roles: u64,
    n: usize,
    out: &mut [u8],
) -> usize
    requires changed { Changed words.now tables.now (Opening user roles) }
    requires row_length_in_bounds { n + length tables.now + row_length ≤ length out.old }
    ensures { AddsChanged words.now tables.now (Opening user roles) n out.old out.new result }
{
    let rows = rows_at(words);
    let end = rows + ROW * (words[SESSION_COUNT] as usize - 1);
    let one = row(user as u8, roles);
    let a = add_count(words, tables, n, out);
    let b = texts::add(a, &tables[rows..end], out);
    let c = texts::add(b, &one, out);
    texts::add(c, &tables[end..], out)
}

// Adds the tables without row k.
fn add_closed(words: &[u64], tables: &[u8], k: u32, n: usize, out: &mut [u8]) -> usize
    requires changed { Changed words.now tables.now (Closing k) }
    requires tables_in_bounds { n + length tables.now ≤ length out.old + row_length }
    ensures { AddsChanged words.now tables.now (Closing k) n out.old out.new result }
{
    let rows = rows_at(words);
    let row = rows + ROW * k as usize;
    let rest = row + ROW;
    let a = add_count(words, tables, n, out);
    let b = texts::add(a, &tables[rows..row], out);
    texts::add(b, &tables[rest..], out)
}

// Adds the changed tables behind the first n bytes.
pub fn add_changed(words: &[u64], tables: &[u8], change: Change, n: usize, out: &mut [u8]) -> usize
    requires changed { Changed words.now tables.now change }
    requires tables_in_bounds { n + next_length change (length tables.now) ≤ length out.old }
    ensures { AddsChanged words.now tables.now change n out.old out.new result }
{
    match change {
        Change::Opening { user, roles } => add_opened(words, tables, user, roles, n, out),
        Change::Closing(k) => add_closed(words, tables, k, n, out),
    }
}
