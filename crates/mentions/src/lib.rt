// Whether a rule mentions sessions (document 02, N9).
#![tactic(auto)]

ghost use Rattle.std.specs.Prelude.{◌≡◌};
ghost use Rattle.mentions.specs.Mention.{stands, mentions};

// Whether p stands somewhere in s.
fn stands_in(p: &[u8], s: &[u8]) -> bool
    ensures { result ≡ stands p.now s.now }
{
    for i in 0..s.len() {
        if syntax::names::stands(s, i, p) {
            return true;
        }
    }
    false
}

// Whether the rule mentions S or `sessions`.
#[tactic(auto, unfolding(crate::specs::Mention::mentions))]
pub fn sessions(rule: &[u8]) -> bool
    ensures { result ≡ mentions rule.now }
{
    stands_in(b"S", rule) || stands_in(b"sessions", rule)
}
