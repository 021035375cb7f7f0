// Kinds by number: 0 to 5 elements of U, R, OP, OBJ, P, S; 6 to 11 sets of them; 12 to 14 CR, CP, CU.
// A test, a clause or a rule has the number `KINDS_FIT` where its kinds fit, and elsewhere `NO_KIND`.
ghost use Rattle.std.specs.Prelude.{◌≡◌, ◌<◌, ◌≤◌, length, get_or};
ghost use Rattle.rules.specs.Code.Numbers.{no_kind, one_number, set_number, call2_number, two_number, countable_number, fits_number, step_number, Fills};
ghost use Rattle.syntax.specs.Code.Nodes.{first_call, first_pair, first_join};

use syntax::nodes::{
    FIRST_CALL, FIRST_COUNTED, FIRST_JOIN, FIRST_PAIR, IS, IS_EMPTY, MEMBER, WHEN, left, operation,
    right,
};

// The kinds: elements, whose numbers are also those of the sorts; sets; collections.
pub const USER: u8 = 0;

pub const ROLE: u8 = 1;

pub const OPERATION: u8 = 2;

pub const OBJECT: u8 = 3;

pub const PERMISSION: u8 = 4;

pub const SESSION: u8 = 5;

pub const USERS: u8 = 6;

pub const ROLES: u8 = 7;

pub const OPERATIONS: u8 = 8;

pub const OBJECTS: u8 = 9;

pub const PERMISSIONS: u8 = 10;

pub const SESSIONS: u8 = 11;

pub const CR: u8 = 12;

pub const CP: u8 = 13;

pub const CU: u8 = 14;

// Where the kinds of sets begin, and those of collections.
pub const FIRST_SET: u8 = USERS;

pub const FIRST_COLLECTION: u8 = CR;

// How many kinds there are; and what stands behind them.
const KINDS: u32 = 15;

pub const NO_KIND: u8 = 15;

pub const KINDS_FIT: u8 = 16;

// The kind of a call of one argument: a row of all kinds for each of user, roles, roles*, sessions, permissions, permissions*, object, OE, AO.
const ONE: [u8; 135] = [
    NO_KIND, // user of an element of U
    USERS,
    NO_KIND,
    NO_KIND,
    NO_KIND,
    USER,
    NO_KIND,
    USERS,
    NO_KIND,
    NO_KIND,
    NO_KIND,
    USERS,
    NO_KIND,
    NO_KIND,
    NO_KIND,
    ROLES, // roles of an element of U
    NO_KIND,
    NO_KIND,
    NO_KIND,
    ROLES,
    ROLES,
    ROLES,
    NO_KIND,
    NO_KIND,
    NO_KIND,
    ROLES,
    ROLES,
    NO_KIND,
    NO_KIND,
    NO_KIND,
    ROLES, // roles* of an element of U
    NO_KIND,
    NO_KIND,
    NO_KIND,
    ROLES,
    ROLES,
    ROLES,
    NO_KIND,
    NO_KIND,
    NO_KIND,
    ROLES,
    ROLES,
    NO_KIND,
    NO_KIND,
    NO_KIND,
    SESSIONS, // sessions of an element of U
    NO_KIND,
    NO_KIND,
    NO_KIND,
    NO_KIND,
    NO_KIND,
    SESSIONS,
    NO_KIND,
    NO_KIND,
    NO_KIND,
    NO_KIND,
    NO_KIND,
    NO_KIND,
    NO_KIND,
    NO_KIND,
    NO_KIND, // permissions of an element of U
    PERMISSIONS,
    NO_KIND,
    NO_KIND,
    NO_KIND,
    NO_KIND,
    NO_KIND,
    PERMISSIONS,
    NO_KIND,
    NO_KIND,
    NO_KIND,
    NO_KIND,
    NO_KIND,
    NO_KIND,
    NO_KIND,
    NO_KIND, // permissions* of an element of U
    PERMISSIONS,
    NO_KIND,
    NO_KIND,
    NO_KIND,
    NO_KIND,
    NO_KIND,
    PERMISSIONS,
    NO_KIND,
    NO_KIND,
    NO_KIND,
    NO_KIND,
    NO_KIND,
    NO_KIND,
    NO_KIND,
    NO_KIND, // object of an element of U
    NO_KIND,
    NO_KIND,
    NO_KIND,
    OBJECTS,
    NO_KIND,
    NO_KIND,
    NO_KIND,
    NO_KIND,
    NO_KIND,
    OBJECTS,
    NO_KIND,
    NO_KIND,
    NO_KIND,
    NO_KIND,
    NO_KIND, // OE of an element of U
    NO_KIND,
    NO_KIND,
    NO_KIND,
    NO_KIND,
    NO_KIND,
    USER,
    ROLE,
    OPERATION,
    OBJECT,
    PERMISSION,
    SESSION,
    ROLES,
    PERMISSIONS,
    USERS,
    NO_KIND, // AO of an element of U
    NO_KIND,
    NO_KIND,
    NO_KIND,
    NO_KIND,
    NO_KIND,
    USERS,
    ROLES,
    OPERATIONS,
    OBJECTS,
    PERMISSIONS,
    SESSIONS,
    CR,
    CP,
    CU,
];

// The calls of two terms, a row for each: an element or a set of the first kind and an element of the second give the third.
const PAIRS: [u8; 6] = [
    ROLES, // operations
    OBJECT, OPERATIONS, USERS, // done
    OBJECT, OPERATIONS,
];

// The kind of a call of one term, `OE` or `AO` on an argument of the kind a.
#[tactic(auto, unfolding(crate::specs::Code::Numbers::one_number, crate::specs::Code::Numbers::one_table))]
fn one_kind(op: u32, a: u8) -> u8
    requires { (first_call ≤ op) × (op < first_pair) }
    ensures { result ≡ one_number op a }
{
    if a < NO_KIND {
        ONE[(KINDS * (op - FIRST_CALL)) as usize + a as usize]
    } else {
        NO_KIND
    }
}

// An element counts as the set of itself.
#[tactic(auto, unfolding(crate::specs::Code::Numbers::set_number))]
fn set_kind(a: u8) -> u8
    ensures { result ≡ set_number a }
{
    if a < FIRST_SET { a + FIRST_SET } else { a }
}

// The kind of a call of two terms, by its row.
#[tactic(auto, unfolding(crate::specs::Code::Numbers::call2_number, crate::specs::Code::Numbers::pair_table))]
fn call2_kind(op: u32, a: u8, b: u8) -> u8
    requires { (first_pair ≤ op) × (op < first_join) }
    ensures { result ≡ call2_number op a b }
{
    let row = (3 * (op - FIRST_PAIR)) as usize;
    if set_kind(a) == PAIRS[row] && b == PAIRS[row + 1] {
        PAIRS[row + 2]
    } else {
        NO_KIND
    }
}

// The kind of a call of two terms, and of `&` and `+`.
#[tactic(auto, unfolding(crate::specs::Code::Numbers::two_number))]
fn two_kind(op: u32, a: u8, b: u8) -> u8
    requires { first_pair ≤ op }
    ensures { result ≡ two_number op a b }
{
    if op < FIRST_JOIN {
        return call2_kind(op, a, b);
    }
    let s = set_kind(a);
    if s == set_kind(b) { s } else { NO_KIND }
}

// Whether it is a set or a collection, which has a count.
#[tactic(auto, unfolding(crate::specs::Code::Numbers::countable_number))]
fn countable(a: u8) -> bool
    ensures { result ≡ countable_number a }
{
    FIRST_SET <= a && a < NO_KIND
}

// Whether the kinds of a test, a clause or a rule fit: `@`; `=` and `!=`; a count or `{}`; two counts; `=>` and `^`.
#[tactic(auto, unfolding(crate::specs::Code::Numbers::fits_number))]
fn fits(op: u32, a: u8, b: u8) -> bool
    ensures { result ≡ fits_number op a b }
{
    if op < IS {
        return a < FIRST_SET && b == a + FIRST_SET;
    }
    if op < IS_EMPTY {
        return a < NO_KIND && a == b;
    }
    if op < FIRST_COUNTED {
        return countable(a);
    }
    if op < WHEN {
        return countable(a) && countable(b);
    }
    a == KINDS_FIT && b == KINDS_FIT
}

// The kind at a place, none past the end.
pub fn kind_at(kinds: &[u8], i: usize) -> u8
    ensures { result ≡ get_or kinds.now i no_kind }
{
    kinds.get(i).copied().unwrap_or(NO_KIND)
}

// The kind of a node by its operation and the kinds at its left and right.
#[tactic(auto, unfolding(crate::specs::Code::Numbers::node_number))]
fn kind_of(kinds: &[u8], node: u32) -> u8
    ensures { result ≡ step_number kinds.now node }
{
    let op = operation(node);
    if op < FIRST_CALL {
        return op as u8 + FIRST_SET;
    }
    let a = kind_at(kinds, left(node) as usize);
    if op < FIRST_PAIR {
        return one_kind(op, a);
    }
    let b = kind_at(kinds, right(node) as usize);
    if op < MEMBER {
        return two_kind(op, a, b);
    }
    if fits(op, a, b) { KINDS_FIT } else { NO_KIND }
}

// The kinds of the first n nodes, each from those below it; and whether those of the rule at root fit.
pub fn kinds(nodes: &[u32], n: usize, root: usize, kinds: &mut [u8]) -> bool
    requires { (n ≤ length nodes.now) × (n ≤ length kinds.old) }
    ensures { Fills nodes.now n root kinds.old kinds.new result }
{
    for k in 0..n {
        kinds[k] = kind_of(kinds, nodes[k]);
    }
    kind_at(kinds, root) == KINDS_FIT
}
