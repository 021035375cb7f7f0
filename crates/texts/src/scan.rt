// Where a byte stands.
ghost use Rattle.std.specs.Prelude.{◌≡◌, ◌≤◌, ◌+◌, length};
ghost use Rattle.texts.specs.Scan.{slice, index_of};

// The place of the first c in s from `from` to before `to`, or `to` where none stands there.
pub fn find(s: &[u8], from: usize, to: usize, c: u8) -> usize
    requires { (from ≤ to) × (to ≤ length s.now) }
    ensures is { result ≡ from + index_of c (slice from to s.now) }
    ensures within { result ≤ to }
{
    for at in from..to {
        if s[at] == c {
            return at;
        }
    }
    to
}
