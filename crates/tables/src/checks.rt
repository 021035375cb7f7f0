// What is asked of the tables as a whole: leavers, rank, overreach, twins.
// Each check takes the very rows that it is about.
ghost use Rattle.std.specs.Prelude.{◌≡◌, true, length};
ghost use Rattle.tables.specs.Checks.{leavers_gone, rank_step, ranked, in_reach as in_reach_of, no_twin, late};
ghost use Rattle.tables.specs.Code.Reads.{covered_by, reaching, users_met, CountsFit, step_number};
ghost use Rattle.tables.specs.Tables.{Tables};
ghost use Rattle.tables.specs.Accepted.{Fits, Bounded};
ghost use Rattle.tables.specs.Flat.{flat};

use crate::hierarchy::{RankStep, first_failing};
use crate::layout;
use crate::layout::part;
use crate::twins::apart;
use answers::Refusal;
use words::{all, image, item, join, less, lowest, preimage, row};

// Whether the roles of `over` are dominated by roles of `own`. No more rows are looked at than that takes.
pub fn covered(rows: &[u64], own: u64, over: u64) -> bool
    ensures { result ≡ covered_by rows.now own over }
{
    let mut left = own;
    let mut rest = over;
    while rest != 0 {
        if left == 0 {
            return false;
        }
        let r = lowest(left);
        rest = less(rest, row(rows, r));
        left = less(left, item(r));
    }
    true
}

// Each session's active roles are its user's own or their juniors. The own ones are left out first: where there are no others, no row is looked at.
pub fn in_reach(rows: &[u64], assigned: &[u64], users: &[u64], active: &[u64]) -> bool
    requires { length users.now ≡ length active.now }
    ensures { result ≡ reaching rows.now assigned.now users.now active.now }
{
    users.iter().zip(active).all(|(user, roles)| {
        let own = image(assigned, *user);
        covered(rows, own, less(*roles, own))
    })
}

// The users who have a role or a session, or stand in a word of CU.
pub fn users_met(rows: &[u64], theirs: &[u64], cu: &[u64]) -> u64
    ensures { result ≡ users_met rows.now theirs.now cu.now }
{
    let roled = preimage(rows, all(layout::ROOM));
    let busy = image(theirs, all(theirs.len()));
    let named = image(cu, all(cu.len()));
    join(roled, join(busy, named))
}

// Whether nothing is left of those who left. Where nobody did, nothing is looked at.
pub fn leavers_gone(words: &[u64]) -> bool
    requires { CountsFit words.now }
    ensures { (T : Tables) → Fits T → Bounded T → words.now ≡ flat T → result ≡ leavers_gone T }
{
    let users = words[layout::USER_COUNT] as usize;
    let present = words[layout::PRESENT];
    if present == all(users) {
        return true;
    }
    let rows = part(words, layout::USER_ROWS, users);
    let theirs = part(
        words,
        layout::SESSION_USERS,
        words[layout::SESSION_COUNT] as usize,
    );
    let cu = part(words, layout::CU, words[layout::CU_COUNT] as usize);
    less(users_met(rows, theirs, cu), present) == 0
}

// The first step of the hierarchy test that fails on the tables' roles, if one does.
pub fn failing_step(words: &[u64]) -> Option<RankStep>
    requires { CountsFit words.now }
    ensures { (T : Tables) → Fits T → Bounded T → words.now ≡ flat T → step_number result ≡ rank_step T.role_rows }
{
    first_failing(part(words, layout::ROLE_ROWS, words[layout::ROLE_COUNT] as usize))
}

// Whether no session of the tables overreaches, where the rank check has passed: a role dominates itself.
pub fn reaches(words: &[u64]) -> bool
    requires { CountsFit words.now }
    ensures { (T : Tables) → Fits T → Bounded T → ranked T.role_rows ≡ true → words.now ≡ flat T → result ≡ in_reach_of T }
{
    let roles = words[layout::ROLE_COUNT] as usize;
    let users = words[layout::USER_COUNT] as usize;
    let sessions = words[layout::SESSION_COUNT] as usize;
    let rows = part(words, layout::ROLE_ROWS, roles);
    let assigned = part(words, layout::USER_ROWS, users);
    let theirs = part(words, layout::SESSION_USERS, sessions);
    let active = part(words, layout::SESSION_ROLES, sessions);
    in_reach(rows, assigned, theirs, active)
}

// Whether no collection has a word twice.
pub fn collections_apart(words: &[u64]) -> bool
    requires { CountsFit words.now }
    ensures { (T : Tables) → Fits T → words.now ≡ flat T → result ≡ no_twin T }
{
    apart(part(words, layout::CR, words[layout::CR_COUNT] as usize))
        && apart(part(words, layout::CU, words[layout::CU_COUNT] as usize))
        && apart(part(words, layout::CP, words[layout::CP_COUNT] as usize))
}

// The checks 20, 7, 8 and 9, in that order.
pub fn checked(words: &[u64]) -> Result<(), Refusal>
    requires { CountsFit words.now }
    ensures { (T : Tables) → Fits T → Bounded T → words.now ≡ flat T → result ≡ late T }
{
    if !leavers_gone(words) {
        return Err(Refusal::Left);
    }
    if failing_step(words).is_some() {
        return Err(Refusal::Rank);
    }
    if !reaches(words) {
        return Err(Refusal::Overreach);
    }
    if !collections_apart(words) {
        return Err(Refusal::Twin);
    }
    Ok(())
}
