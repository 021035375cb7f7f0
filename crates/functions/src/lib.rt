// The functions of Figure 2 over the flat tables: each goes from a set along the rows of a section, forth or back.
// Where the sections begin and where their counts stand, the tables' layout says.
#![tactic(auto)]

ghost use Rattle.std.specs.Prelude.{◌≡◌, ◌<◌, length, get_or};
ghost use Rattle.words.specs.Words.{image_of, preimage_of};
ghost use Rattle.tables.specs.Tables.{Tables};
ghost use Rattle.tables.specs.Accepted.{Fits};
ghost use Rattle.tables.specs.Code.Layout.{Whole, Begins, section_at};
ghost use Rattle.tables.specs.Flat.{room, counts, flat};
ghost use Rattle.tables.specs.Functions.{user_of_sessions, user_of_roles, roles_of_users, roles_of_sessions, roles_of_permissions};
ghost use Rattle.tables.specs.Functions.{juniors_of_users, juniors_of_sessions, seniors_of_permissions, sessions_of_users};
ghost use Rattle.tables.specs.Functions.{permissions_of_roles, permissions_of_juniors, objects_of_permissions, operations_on, done_by};

use tables::layout;

// The union of the rows of w's items in the section that begins at `at`.
fn image(t: &[u64], at: usize, w: u64) -> u64
    requires { Whole t.now × Begins at }
    ensures { (T : Tables) → t.now ≡ flat T → result ≡ image_of (section_at T at) w }
{
    words::image(&t[at..], w)
}

// The items whose row in the section that begins at `at` meets w; only as many rows as the count at `count` says are looked at.
fn preimage(t: &[u64], at: usize, count: usize, w: u64) -> u64
    requires { Whole t.now × Begins at × (count < room) }
    ensures { (T : Tables) → t.now ≡ flat T → get_or (counts T) count 0 ≡ length (section_at T at) → result ≡ preimage_of (section_at T at) w }
{
    let end = at + (t[count] as usize).min(layout::ROOM);
    words::preimage(&t[at..end], w)
}

pub fn user_of_sessions(t: &[u64], w: u64) -> u64
    requires { Whole t.now }
    ensures { (T : Tables) → Fits T → t.now ≡ flat T → result ≡ user_of_sessions T w }
{
    image(t, layout::SESSION_USERS, w)
}

pub fn user_of_roles(t: &[u64], w: u64) -> u64
    requires { Whole t.now }
    ensures { (T : Tables) → Fits T → t.now ≡ flat T → result ≡ user_of_roles T w }
{
    preimage(t, layout::USER_ROWS, layout::USER_COUNT, w)
}

pub fn roles_of_users(t: &[u64], w: u64) -> u64
    requires { Whole t.now }
    ensures { (T : Tables) → Fits T → t.now ≡ flat T → result ≡ roles_of_users T w }
{
    image(t, layout::USER_ROWS, w)
}

pub fn roles_of_sessions(t: &[u64], w: u64) -> u64
    requires { Whole t.now }
    ensures { (T : Tables) → Fits T → t.now ≡ flat T → result ≡ roles_of_sessions T w }
{
    image(t, layout::SESSION_ROLES, w)
}

pub fn roles_of_permissions(t: &[u64], w: u64) -> u64
    requires { Whole t.now }
    ensures { (T : Tables) → Fits T → t.now ≡ flat T → result ≡ roles_of_permissions T w }
{
    image(t, layout::PERMISSION_ROWS, w)
}

// `roles*` of users and of sessions goes down to juniors, of permissions up to seniors.
pub fn juniors_of_users(t: &[u64], w: u64) -> u64
    requires { Whole t.now }
    ensures { (T : Tables) → Fits T → t.now ≡ flat T → result ≡ juniors_of_users T w }
{
    let own = image(t, layout::USER_ROWS, w);
    image(t, layout::ROLE_ROWS, own)
}

pub fn juniors_of_sessions(t: &[u64], w: u64) -> u64
    requires { Whole t.now }
    ensures { (T : Tables) → Fits T → t.now ≡ flat T → result ≡ juniors_of_sessions T w }
{
    let active = image(t, layout::SESSION_ROLES, w);
    image(t, layout::ROLE_ROWS, active)
}

pub fn seniors_of_permissions(t: &[u64], w: u64) -> u64
    requires { Whole t.now }
    ensures { (T : Tables) → Fits T → t.now ≡ flat T → result ≡ seniors_of_permissions T w }
{
    let holders = image(t, layout::PERMISSION_ROWS, w);
    preimage(t, layout::ROLE_ROWS, layout::ROLE_COUNT, holders)
}

pub fn sessions_of_users(t: &[u64], w: u64) -> u64
    requires { Whole t.now }
    ensures { (T : Tables) → Fits T → t.now ≡ flat T → result ≡ sessions_of_users T w }
{
    preimage(t, layout::SESSION_USERS, layout::SESSION_COUNT, w)
}

pub fn permissions_of_roles(t: &[u64], w: u64) -> u64
    requires { Whole t.now }
    ensures { (T : Tables) → Fits T → t.now ≡ flat T → result ≡ permissions_of_roles T w }
{
    preimage(t, layout::PERMISSION_ROWS, layout::PERMISSION_COUNT, w)
}

// `permissions*`: those of the roles and of their juniors.
pub fn permissions_of_juniors(t: &[u64], w: u64) -> u64
    requires { Whole t.now }
    ensures { (T : Tables) → Fits T → t.now ≡ flat T → result ≡ permissions_of_juniors T w }
{
    let down = image(t, layout::ROLE_ROWS, w);
    preimage(t, layout::PERMISSION_ROWS, layout::PERMISSION_COUNT, down)
}

pub fn objects_of_permissions(t: &[u64], w: u64) -> u64
    requires { Whole t.now }
    ensures { (T : Tables) → Fits T → t.now ≡ flat T → result ≡ objects_of_permissions T w }
{
    image(t, layout::OBJECT_ROWS, w)
}

// The operations of the permissions that a role of w holds and that are on an object of o.
pub fn operations_on(t: &[u64], w: u64, o: u64) -> u64
    requires { Whole t.now }
    ensures { (T : Tables) → Fits T → t.now ≡ flat T → result ≡ operations_on T w o }
{
    let held = preimage(t, layout::PERMISSION_ROWS, layout::PERMISSION_COUNT, w);
    let on = preimage(t, layout::OBJECT_ROWS, layout::PERMISSION_COUNT, o);
    image(t, layout::OPERATION_ROWS, words::meet(held, on))
}

// Document 02, N8: the operations of the rows of Done that are of a user of w and on an object of o.
pub fn done_by(t: &[u64], w: u64, o: u64) -> u64
    requires { Whole t.now }
    ensures { (T : Tables) → Fits T → t.now ≡ flat T → result ≡ done_by T w o }
{
    let theirs = preimage(t, layout::DONE_USERS, layout::DONE_COUNT, w);
    let on = preimage(t, layout::DONE_OBJECTS, layout::DONE_COUNT, o);
    image(t, layout::DONE_OPERATIONS, words::meet(theirs, on))
}
