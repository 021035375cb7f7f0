// The leaves of an evaluation: all items of a sort, one item, comparisons.
ghost use Rattle.std.specs.Prelude.{◌≡◌, ◌<◌};
ghost use Rattle.tables.specs.Tables.{Tables};
ghost use Rattle.tables.specs.Accepted.{Fits};
ghost use Rattle.tables.specs.Code.Layout.{Whole};
ghost use Rattle.tables.specs.Flat.{flat};
ghost use Rattle.rules.specs.Kind.{Sort, base_kind};
ghost use Rattle.rules.specs.Code.Numbers.{first_set, kinds_fit, kind_of};
ghost use Rattle.values.specs.Items.{kind_items};
ghost use Rattle.values.specs.Values.{of_sort, one_value};
ghost use Rattle.values.specs.Truth.{compared};
ghost use Rattle.values.specs.Code.Nodes.{base_at, cmp_at, cmp_of, sort_at};
ghost use Rattle.syntax.specs.Code.Nodes.{first_call};

use rules::kinds::{FIRST_COLLECTION, FIRST_SET, NO_KIND};
use syntax::nodes::{EQ, GE, GT, LE, LT};
use tables::layout;

// Where the tables have the word of the users present, and where they count roles, operations, objects, permissions, sessions, and the
// words of CR, CP, CU.
const PLACES: [usize; 9] = [
    layout::PRESENT,
    layout::ROLE_COUNT,
    layout::OPERATION_COUNT,
    layout::OBJECT_COUNT,
    layout::PERMISSION_COUNT,
    layout::SESSION_COUNT,
    layout::CR_COUNT,
    layout::CP_COUNT,
    layout::CU_COUNT,
];

// U among them: its items are no first ones, so they are a word and no count.
const USERS: usize = 0;

// Where the words of CR, CP, CU start.
const COLLECTIONS: [usize; 3] = [layout::CR, layout::CP, layout::CU];

// All items of `U R OP OBJ P S`, all positions of `CR CP CU`.
pub fn base(t: &[u64], op: usize) -> u64
    requires { (Whole t.now) × (op < first_call) }
    ensures { (T : Tables) → t.now ≡ flat T → result ≡ kind_items T (base_kind (base_at op)) }
{
    let at = PLACES[op];
    let found = t[at];
    if op == USERS {
        return found;
    }
    words::all(found as usize)
}

// The item x of a set or a collection of that kind.
pub fn one(t: &[u64], kind: u8, x: usize) -> u64
    requires { Whole t.now }
    ensures { (T : Tables) → Fits T → t.now ≡ flat T → kind < kinds_fit → result ≡ one_value T (kind_of kind) x }
{
    if kind < FIRST_COLLECTION {
        return words::item(x);
    }
    if NO_KIND <= kind || layout::ROOM <= x {
        return 0;
    }
    let k = (kind - FIRST_COLLECTION) as usize;
    let at = COLLECTIONS[k] + x;
    t[at]
}

// Whether the kind is an element or a set of the sort, 0 to 5 for U, R, OP, OBJ, P, S.
#[tactic(auto, using(crate::proofs::ItemLaws::sort_yes, crate::proofs::ItemLaws::sort_no))]
pub fn is_sort(kind: u8, sort: u8) -> bool
    requires { sort < first_set }
    ensures { kind < kinds_fit → result ≡ of_sort (sort_at sort) (kind_of kind) }
{
    kind < FIRST_COLLECTION && kind % FIRST_SET == sort
}

// `<` `<=` `>` `>=` `=` `!=` of two counts.
#[derive(Clone, Copy)]
pub enum Comparison {
    Lt,
    Le,
    Gt,
    Ge,
    Eq,
    Ne,
}

impl Comparison {
    // The one of that number.
    #[tactic(auto, unfolding(crate::specs::Code::Nodes::cmp_at))]
    pub fn numbered(d: u32) -> Comparison
        requires { d < 6 }
        ensures { cmp_of result ≡ cmp_at d }
    {
        match d {
            LT => Comparison::Lt,
            LE => Comparison::Le,
            GT => Comparison::Gt,
            GE => Comparison::Ge,
            EQ => Comparison::Eq,
            _ => Comparison::Ne,
        }
    }

    #[tactic(auto, unfolding(crate::specs::Truth::compared))]
    pub fn holds(self, a: usize, b: usize) -> bool
        ensures { result ≡ compared (cmp_of self) a b }
    {
        match self {
            Comparison::Lt => a < b,
            Comparison::Le => a <= b,
            Comparison::Gt => a > b,
            Comparison::Ge => a >= b,
            Comparison::Eq => a == b,
            Comparison::Ne => a != b,
        }
    }
}
