// Check 12: how far brackets are open.
// The surplus may fall below zero, so it is a signed number.
ghost use Rattle.std.specs.Prelude.{◌≡◌, ◌≤◌, ◌<◌, length};
ghost use Rattle.std.specs.Int.Signed.{mag};
ghost use Rattle.rules.specs.Accept.{deep};
ghost use Rattle.rules.specs.Code.Surplus.{text_room, stepped};

// The surplus may be at most so large.
const DEPTH_LIMIT: i32 = 32;

// The count of `(` less the count of `)`, with one byte more.
#[tactic(auto, unfolding(crate::specs::Code::Surplus::stepped))]
fn surplus_after(b: u8, surplus: i32) -> i32
    requires { mag surplus ≤ text_room }
    ensures { result ≡ stepped b surplus }
{
    match b {
        b'(' => surplus + 1,
        b')' => surplus - 1,
        _ => surplus,
    }
}

// Whether the surplus passes the limit somewhere in the text, which is a rule's or a formula's.
pub fn too_deep(s: &[u8]) -> bool
    requires { length s.now ≤ text_room }
    ensures { result ≡ deep 0 0 s.now }
{
    let mut surplus: i32 = 0;
    for &b in s {
        surplus = surplus_after(b, surplus);
        if surplus > DEPTH_LIMIT {
            return true;
        }
    }
    false
}
