// Names and signs: fixed byte strings, compared with the bytes at a place, and what each stands for.
// The longest of two names that begin alike is tried first.
ghost use Rattle.std.specs.Prelude.{◌≤◌, length, drop};
ghost use Rattle.syntax.specs.Bytes.{scan};
ghost use Rattle.syntax.specs.Term.{spell, heads};
ghost use Rattle.syntax.specs.Rule.{spell_cmp, cmps, spell_between, betweens, read_number};
ghost use Rattle.syntax.specs.Code.Arena.{cmp_number};
ghost use Rattle.syntax.specs.Code.Nodes.{first_pair};
ghost use Rattle.syntax.specs.Code.Reading.{Stands, Named, Spelt, entries, text_of, number_of, head_op, spell_joint, joints, joint_op, between_op, itself, read_digit};

use super::nodes::{
    AO, BRACKET_HEAD, CHOICE_HEAD, CP, CR, CU, DONE, EQ, FIRST_JOIN, GE, GT, IS, ISNT, JOIN, LE,
    LT, MEET, MEMBER, NE, OBJ, OBJECT, OE, OP, OPERATIONS, P, PERMISSIONS, PERMISSIONS_STAR, R,
    ROLES, ROLES_STAR, S, SESSIONS, U, USER,
};

// A name's number, or a choice's node, and where the bytes behind it begin.
#[derive(Clone, Copy)]
pub struct Spelled {
    pub number: u32,
    pub next: usize,
}

// How a term begins: the sets of all, collections and choices.
const SETS: [(&[u8], u32); 11] = [
    (b"U", U),
    (b"R", R),
    (b"OBJ", OBJ),
    (b"OP", OP),
    (b"P", P),
    (b"S", S),
    (b"CR", CR),
    (b"CP", CP),
    (b"CU", CU),
    (b"OE(", OE),
    (b"AO(", AO),
];

// How else a term begins: the functions of one term, the calls of two terms, the bracket and a variable's name.
const CALLS: [(&[u8], u32); 11] = [
    (b"user(", USER),
    (b"roles*(", ROLES_STAR),
    (b"roles(", ROLES),
    (b"sessions(", SESSIONS),
    (b"permissions*(", PERMISSIONS_STAR),
    (b"permissions(", PERMISSIONS),
    (b"object(", OBJECT),
    (b"operations(", OPERATIONS),
    (b"done(", DONE),
    (b"(", BRACKET_HEAD),
    (b"v", CHOICE_HEAD),
];

// The signs in a bracket.
const SIGNS: [(&[u8], u32); 3] = [(b"&", MEET), (b"+", JOIN), (b"-{v", AO)];

// What compares a count.
const COMPARISONS: [(&[u8], u32); 6] = [
    (b"<=", LE),
    (b"<", LT),
    (b">=", GE),
    (b">", GT),
    (b"=", EQ),
    (b"!=", NE),
];

// What stands between the two terms of a test.
const BETWEENS: [(&[u8], u32); 3] = [(b"@", MEMBER), (b"=", IS), (b"!=", ISNT)];

// Whether `p` stands in `s` at `at`.
pub fn stands(s: &[u8], at: usize, p: &[u8]) -> bool
    requires { at ≤ length s.now }
    ensures { Stands s.now at p.now result }
{
    s[at..].starts_with(p)
}

// The first of the names that stands at a place.
fn first(names: &[(&[u8], u32)], s: &[u8], at: usize) -> Option<Spelled>
    requires spelt { Spelt (entries names.now) }
    requires at_in_bounds { at ≤ length s.now }
    ensures { Named number_of s.now at result (scan text_of (entries names.now) (drop at s.now)) }
{
    let begin = *s.get(at)?;
    for &(name, number) in names {
        if name[0] == begin && stands(s, at, name) {
            return Some(Spelled {
                number,
                next: at + name.len(),
            });
        }
    }
    None
}

pub fn head_at(s: &[u8], at: usize) -> Option<Spelled>
    requires { at ≤ length s.now }
    ensures { Named head_op s.now at result (scan spell heads (drop at s.now)) }
{
    if let Some(head) = first(&SETS, s, at) {
        return Some(head);
    }
    first(&CALLS, s, at)
}

// What stands after the first term in a bracket: `,` behind the name of a call of two terms, and otherwise a sign.
pub fn middle_at(s: &[u8], at: usize, op: u32) -> Option<Spelled>
    requires at_in_bounds { at ≤ length s.now }
    requires first_pair_le_op { first_pair ≤ op }
    ensures { Named joint_op s.now at result (scan spell_joint (joints op) (drop at s.now)) }
{
    if op >= FIRST_JOIN {
        return first(&SIGNS, s, at);
    }
    if !stands(s, at, b",") {
        return None;
    }
    Some(Spelled {
        number: op,
        next: at + 1,
    })
}

pub fn cmp_at(s: &[u8], at: usize) -> Option<Spelled>
    requires { at ≤ length s.now }
    ensures { Named cmp_number s.now at result (scan spell_cmp cmps (drop at s.now)) }
{
    first(&COMPARISONS, s, at)
}

pub fn between_at(s: &[u8], at: usize) -> Option<Spelled>
    requires { at ≤ length s.now }
    ensures { Named between_op s.now at result (scan spell_between betweens (drop at s.now)) }
{
    first(&BETWEENS, s, at)
}

// The digit at a place.
fn digit_at(s: &[u8], at: usize) -> Option<Spelled>
    ensures { Named itself s.now at result (read_digit (drop at s.now)) }
{
    let c = *s.get(at)?;
    if c < 48 || 57 < c {
        return None;
    }
    Some(Spelled {
        number: c as u32 - 48,
        next: at + 1,
    })
}

// A number 0 to 64 with no leading zero: two digits where they make one, and otherwise one.
pub fn number_at(s: &[u8], at: usize) -> Option<Spelled>
    requires { at ≤ length s.now }
    ensures { Named itself s.now at result (read_number (drop at s.now)) }
{
    let a = digit_at(s, at)?;
    if a.number == 0 {
        return Some(a);
    }
    let Some(b) = digit_at(s, a.next) else {
        return Some(a);
    };
    let m = 10 * a.number + b.number;
    if m < 65 {
        return Some(Spelled {
            number: m,
            next: b.next,
        });
    }
    Some(a)
}
