// Sessions that open and close (document 02, N9): what refuses the change of accepted tables, and the change made in their words.
// Nothing here knows rules or the bytes of tables.
#![tactic(auto)]

ghost use Rattle.std.specs.Prelude.{◌<◌, ◌≤◌, length};
ghost use Rattle.tables.specs.Code.Loaded.{Loaded};
ghost use Rattle.changes.specs.declared.Change.TheVariants.{Opening, Closing};
ghost use Rattle.changes.specs.Code.Made.{DueBy, Ready, Makes, ClosedUp};

use answers::Refusal;
use tables::layout::{
    PRESENT, ROLE_COUNT, ROOM, SESSION_COUNT, SESSION_ROLES, SESSION_USERS, USER_COUNT,
};

// What a call asks for: a session of this user with these active roles, or the end of the session with this number, from 0.
#[derive(Clone, Copy)]
pub enum Change {
    Opening { user: u32, roles: u64 },
    Closing(u32),
}

// What refuses an opening, if anything does: 21, 5, 20, 8.
fn opening_due(t: &[u64], user: u32, roles: u64) -> Result<(), Refusal>
    requires { Loaded t.now }
    ensures { DueBy t.now (Opening user roles) result }
{
    let u = user as usize;
    if ROOM as u64 <= t[SESSION_COUNT] {
        return Err(Refusal::FullHouse);
    }
    if t[USER_COUNT] <= user as u64 {
        return Err(Refusal::NoSuchItem);
    }
    if words::outside(roles, t[ROLE_COUNT]) {
        return Err(Refusal::NoSuchItem);
    }
    if !words::contains(t[PRESENT], u) {
        return Err(Refusal::Left);
    }
    let reach = functions::juniors_of_users(t, words::item(u));
    if words::less(roles, reach) != 0 {
        return Err(Refusal::Overreach);
    }
    Ok(())
}

// What refuses a closing: 22.
fn closing_due(t: &[u64], number: u32) -> Result<(), Refusal>
    requires { Loaded t.now }
    ensures { DueBy t.now (Closing number) result }
{
    if t[SESSION_COUNT] <= number as u64 {
        return Err(Refusal::NotOpen);
    }
    Ok(())
}

// What refuses the change of the tables that the words hold, if anything does.
pub fn due(t: &[u64], change: Change) -> Result<(), Refusal>
    requires { Loaded t.now }
    ensures { DueBy t.now change result }
{
    match change {
        Change::Opening { user, roles } => opening_due(t, user, roles),
        Change::Closing(number) => closing_due(t, number),
    }
}

// Moves the words behind `from` and before `to` down by one, and makes the last of them 0.
fn close_up(t: &mut [u64], from: usize, to: usize)
    requires { (from < to) × (to ≤ length t.old) }
    ensures { ClosedUp from to t.old t.new }
{
    t.copy_within(from + 1..to, from);
    t[to - 1] = 0;
}

fn opened(t: &mut [u64], user: u32, roles: u64)
    requires { Ready t.old (Opening user roles) }
    ensures { Makes t.old (Opening user roles) t.new }
{
    let n = t[SESSION_COUNT] as usize;
    t[SESSION_USERS + n] = words::item(user as usize);
    t[SESSION_ROLES + n] = roles;
    t[SESSION_COUNT] = n as u64 + 1;
}

fn closed(t: &mut [u64], number: u32)
    requires { Ready t.old (Closing number) }
    ensures { Makes t.old (Closing number) t.new }
{
    let k = number as usize;
    close_up(t, SESSION_USERS + k, SESSION_USERS + ROOM);
    close_up(t, SESSION_ROLES + k, SESSION_ROLES + ROOM);
    t[SESSION_COUNT] = t[SESSION_COUNT] - 1;
}

// Makes the change, which nothing refuses, in the words.
pub fn make(t: &mut [u64], change: Change)
    requires { Ready t.old change }
    ensures { Makes t.old change t.new }
{
    match change {
        Change::Opening { user, roles } => opened(t, user, roles),
        Change::Closing(number) => closed(t, number),
    }
}
