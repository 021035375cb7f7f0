// The ceiling on full choices (document 02, N5): how many items the variables of a rule have, multiplied.
// It is known before any choice is made.
ghost use Rattle.std.specs.Prelude.{◌≡◌, ◌<◌, ◌≤◌, length};
ghost use Rattle.tables.specs.Tables.{Tables};
ghost use Rattle.tables.specs.Accepted.{Fits};
ghost use Rattle.tables.specs.Code.Layout.{Whole};
ghost use Rattle.tables.specs.Flat.{flat};
ghost use Rattle.rules.specs.Accept.{choices_limit};
ghost use Rattle.rules.specs.Code.Numbers.{kinds_fit, kind_of};
ghost use Rattle.values.specs.Ceiling.{count_of_kind};
ghost use Rattle.values.specs.Code.Multiplied.{CeilingBy};

use crate::items;
use rules::kinds::{FIRST_COLLECTION, FIRST_SET, NO_KIND, kind_at};

// How many items a variable has whose set is of that kind: those of its sort, or the words of the whole collection.
pub fn count(t: &[u64], kind: u8) -> usize
    requires { Whole t.now }
    ensures value { (T : Tables) → Fits T → t.now ≡ flat T → kind < kinds_fit → result ≡ count_of_kind T (kind_of kind) }
    ensures upper_bound { result ≤ 64 }
{
    if kind < FIRST_COLLECTION {
        return words::size(items::base(t, (kind % FIRST_SET) as usize));
    }
    if kind < NO_KIND {
        return words::size(items::base(t, (kind - FIRST_SET) as usize));
    }
    0
}

// The ceiling of a rule whose variables are at these nodes.
pub fn ceiling(t: &[u64], kinds: &[u8], vars: &[u32]) -> u64
    requires { Whole t.now × (length vars.now ≤ choices_limit) }
    ensures { CeilingBy t.now kinds.now vars.now result }
{
    let mut found = 1;
    for &node in vars {
        found *= count(t, kind_at(kinds, node as usize)) as u64;
    }
    found
}
