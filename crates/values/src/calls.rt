// The functions of Figure 2 by the number of their operation and the kind of their argument.
ghost use Rattle.std.specs.Prelude.{◌≡◌, ◌<◌, ◌≤◌};
ghost use Rattle.tables.specs.Tables.{Tables};
ghost use Rattle.tables.specs.Accepted.{Fits};
ghost use Rattle.tables.specs.Code.Layout.{Whole};
ghost use Rattle.tables.specs.Flat.{flat};
ghost use Rattle.syntax.specs.Term.{user, roles, roles*};
ghost use Rattle.rules.specs.Code.Numbers.{kinds_fit, kind_of};
ghost use Rattle.values.specs.Values.{call_value, two_value};
ghost use Rattle.values.specs.Code.Nodes.{fn_at, pair_at};
ghost use Rattle.syntax.specs.Code.Nodes.{first_call, oe_op, first_pair, member_op};

use crate::items;
use rules::kinds;
use syntax::nodes::{
    DONE, MEET, OPERATIONS, PERMISSIONS, PERMISSIONS_STAR, ROLES, ROLES_STAR, SESSIONS, USER,
};

#[tactic(auto, unfolding(crate::specs::Values::call_value, crate::specs::Code::Nodes::sort_at))]
fn user(t: &[u64], kind: u8, w: u64) -> u64
    requires { Whole t.now }
    ensures { (T : Tables) → Fits T → t.now ≡ flat T → kind < kinds_fit → result ≡ call_value T user (kind_of kind) w }
{
    if items::is_sort(kind, kinds::ROLE) {
        functions::user_of_roles(t, w)
    } else {
        functions::user_of_sessions(t, w)
    }
}

#[tactic(auto, unfolding(crate::specs::Values::call_value, crate::specs::Code::Nodes::sort_at))]
fn roles(t: &[u64], kind: u8, w: u64) -> u64
    requires { Whole t.now }
    ensures { (T : Tables) → Fits T → t.now ≡ flat T → kind < kinds_fit → result ≡ call_value T roles (kind_of kind) w }
{
    if items::is_sort(kind, kinds::USER) {
        functions::roles_of_users(t, w)
    } else if items::is_sort(kind, kinds::PERMISSION) {
        functions::roles_of_permissions(t, w)
    } else {
        functions::roles_of_sessions(t, w)
    }
}

// `roles*`
#[tactic(auto, unfolding(crate::specs::Values::call_value, crate::specs::Code::Nodes::sort_at))]
fn ranked(t: &[u64], kind: u8, w: u64) -> u64
    requires { Whole t.now }
    ensures { (T : Tables) → Fits T → t.now ≡ flat T → kind < kinds_fit → result ≡ call_value T roles* (kind_of kind) w }
{
    if items::is_sort(kind, kinds::USER) {
        functions::juniors_of_users(t, w)
    } else if items::is_sort(kind, kinds::PERMISSION) {
        functions::seniors_of_permissions(t, w)
    } else {
        functions::juniors_of_sessions(t, w)
    }
}

// The function with the number op of a value of that kind.
#[tactic(auto, unfolding(crate::specs::Code::Nodes::fn_at, crate::specs::Values::call_value))]
pub fn call(t: &[u64], op: u32, kind: u8, w: u64) -> u64
    requires { (Whole t.now) × (first_call ≤ op) × (op < oe_op) }
    ensures { (T : Tables) → Fits T → t.now ≡ flat T → kind < kinds_fit → result ≡ call_value T (fn_at op) (kind_of kind) w }
{
    if op == USER {
        return user(t, kind, w);
    }
    if op == ROLES {
        return roles(t, kind, w);
    }
    if op == ROLES_STAR {
        return ranked(t, kind, w);
    }
    if op == SESSIONS {
        return functions::sessions_of_users(t, w);
    }
    if op == PERMISSIONS {
        return functions::permissions_of_roles(t, w);
    }
    if op == PERMISSIONS_STAR {
        return functions::permissions_of_juniors(t, w);
    }
    functions::objects_of_permissions(t, w)
}

// A call of two terms, `&` and `+`, of two values.
#[tactic(auto, unfolding(crate::specs::Code::Nodes::pair_at, crate::specs::Values::two_value, crate::specs::Values::call2_value, crate::specs::Values::op_value))]
pub fn two(t: &[u64], op: u32, v: u64, w: u64) -> u64
    requires { (Whole t.now) × (first_pair ≤ op) × (op < member_op) }
    ensures { (T : Tables) → Fits T → t.now ≡ flat T → result ≡ two_value T (pair_at op) v w }
{
    if op == OPERATIONS {
        return functions::operations_on(t, v, w);
    }
    if op == DONE {
        return functions::done_by(t, v, w);
    }
    if op == MEET {
        return words::meet(v, w);
    }
    words::join(v, w)
}
