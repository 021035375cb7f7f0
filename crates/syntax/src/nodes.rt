// Nodes as numbers: the number of each operation, and packing and unpacking a node. Nothing else spells one of them.
// A node is its operation and, in units above it, its left and its right index.
ghost use Rattle.std.specs.Prelude.{◌≡◌, ◌<◌};
ghost use Rattle.syntax.specs.Code.Arena.{has_two};
ghost use Rattle.syntax.specs.Code.Nodes.{ops_end, index_room, node_of, operation_of, left_of, right_of};

// The operations in groups. Each number is one more than the one before it, so that a row more moves those behind it.
// Bases.
pub const U: u32 = 0;

pub const R: u32 = U + 1;

pub const OP: u32 = R + 1;

pub const OBJ: u32 = OP + 1;

pub const P: u32 = OBJ + 1;

pub const S: u32 = P + 1;

pub const CR: u32 = S + 1;

pub const CP: u32 = CR + 1;

pub const CU: u32 = CP + 1;

// Calls of one term.
pub const FIRST_CALL: u32 = USER;

pub const USER: u32 = CU + 1;

pub const ROLES: u32 = USER + 1;

pub const ROLES_STAR: u32 = ROLES + 1;

pub const SESSIONS: u32 = ROLES_STAR + 1;

pub const PERMISSIONS: u32 = SESSIONS + 1;

pub const PERMISSIONS_STAR: u32 = PERMISSIONS + 1;

pub const OBJECT: u32 = PERMISSIONS_STAR + 1;

// `OE` and `AO`.
pub const OE: u32 = OBJECT + 1;

pub const AO: u32 = OE + 1;

// What makes one term of two: calls of two terms,
pub const FIRST_PAIR: u32 = OPERATIONS;

pub const OPERATIONS: u32 = AO + 1;

pub const DONE: u32 = OPERATIONS + 1;

// and then `&` and `+`.
pub const FIRST_JOIN: u32 = MEET;

pub const MEET: u32 = DONE + 1;

pub const JOIN: u32 = MEET + 1;

// Tests: `@`; `=` and `!=`; `={}` and `!={}`.
pub const MEMBER: u32 = JOIN + 1;

pub const IS: u32 = MEMBER + 1;

pub const ISNT: u32 = IS + 1;

pub const IS_EMPTY: u32 = ISNT + 1;

pub const ISNT_EMPTY: u32 = IS_EMPTY + 1;

// From `=` and `!=` to `={}` and `!={}`.
pub const TO_EMPTY: u32 = IS_EMPTY - IS;

// The comparisons of counts, in the order of their tests.
pub const LT: u32 = 0;

pub const LE: u32 = LT + 1;

pub const GT: u32 = LE + 1;

pub const GE: u32 = GT + 1;

pub const EQ: u32 = GE + 1;

pub const NE: u32 = EQ + 1;

// A count compared with a number, and with a count.
pub const FIRST_NUMBERED: u32 = ISNT_EMPTY + 1;

pub const FIRST_COUNTED: u32 = FIRST_NUMBERED + NE + 1;

// `=>` and `^`.
pub const WHEN: u32 = FIRST_COUNTED + NE + 1;

pub const ALSO: u32 = WHEN + 1;

pub const OPS_END: u32 = ALSO + 1;

// The beginnings of a term that are no operation: a bracket, and the name of a choice.
pub const BRACKET_HEAD: u32 = OPS_END;

pub const CHOICE_HEAD: u32 = BRACKET_HEAD + 1;

// The operation is below OP_ROOM, the left index below INDEX_ROOM; the right index counts in RIGHT_UNITs.
const OP_ROOM: u32 = 256;

const INDEX_ROOM: u32 = 4096;

const RIGHT_UNIT: u32 = 1048576;

// The node of an operation on two indexes.
pub fn pack(op: u32, i: usize, j: usize) -> u32
    requires { (op < ops_end) × (i < index_room) × (j < index_room) }
    ensures { result ≡ node_of op i j }
{
    op + OP_ROOM * (i as u32) + RIGHT_UNIT * (j as u32)
}

// Its parts again.
pub fn operation(node: u32) -> u32
    ensures { result ≡ operation_of node }
{
    node % OP_ROOM
}

pub fn left(node: u32) -> u32
    ensures { result ≡ left_of node }
{
    node / OP_ROOM % INDEX_ROOM
}

pub fn right(node: u32) -> u32
    ensures { result ≡ right_of node }
{
    node / RIGHT_UNIT
}

// Whether a node of the operation has two nodes below it.
pub fn has_two(op: u32) -> bool
    ensures { result ≡ has_two op }
{
    if op < FIRST_PAIR {
        return false;
    }
    if op < IS_EMPTY {
        return true;
    }
    op >= FIRST_COUNTED
}
