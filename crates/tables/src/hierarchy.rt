// The hierarchy test in the steps of source document 002: reflexive, then transitive, then antisymmetric, each over all role rows.
// Tables are refused by rank where a step fails.
ghost use Rattle.std.specs.Prelude.{◌≡◌, Some, true, ◌≤◌, ◌<◌, length};
ghost use Rattle.tables.specs.Checks.{reflexive as reflexive_of, transitive as transitive_of, antisymmetric as antisymmetric_of, rank_step};
ghost use Rattle.tables.specs.Accepted.{Below};
ghost use Rattle.tables.specs.Code.Reads.{closed_at, step_number};

use crate::twins::apart;
use words::{contains, image, item, less};

// The steps, each with its number.
#[derive(Clone, Copy)]
pub enum RankStep {
    Reflexive = 1,
    Transitive = 2,
    Antisymmetric = 3,
}

impl RankStep {
    pub fn number(self) -> u32
        ensures { result ≡ step_number (Some self) }
    {
        self as u32
    }
}

// Each role dominates itself.
pub fn reflexive(rows: &[u64]) -> bool
    requires { length rows.now ≤ 64 }
    ensures { result ≡ reflexive_of rows.now }
{
    rows.iter().enumerate().all(|(r, row)| contains(*row, r))
}

// What the other roles that r dominates dominate, r does too.
pub fn closed(rows: &[u64], r: usize) -> bool
    requires { r < length rows.now }
    ensures { result ≡ closed_at rows.now r }
{
    let dominates = rows[r];
    let below = image(rows, less(dominates, item(r)));
    less(below, dominates) == 0
}

// What a role dominates dominates nothing that the role does not.
pub fn transitive(rows: &[u64]) -> bool
    requires { length rows.now ≤ 64 }
    ensures { Below (length rows.now) rows.now → result ≡ transitive_of rows.now }
{
    (0..rows.len()).all(|r| closed(rows, r))
}

// No two roles dominate each other. Where the steps before hold, two that do have the same row.
pub fn antisymmetric(rows: &[u64]) -> bool
    ensures { Below (length rows.now) rows.now → reflexive_of rows.now ≡ true → transitive_of rows.now ≡ true → result ≡ antisymmetric_of rows.now }
{
    apart(rows)
}

// The first step that fails, if one does.
pub fn first_failing(rows: &[u64]) -> Option<RankStep>
    requires { length rows.now ≤ 64 }
    ensures { Below (length rows.now) rows.now → step_number result ≡ rank_step rows.now }
{
    if !reflexive(rows) {
        return Some(RankStep::Reflexive);
    }
    if !transitive(rows) {
        return Some(RankStep::Transitive);
    }
    if !antisymmetric(rows) {
        return Some(RankStep::Antisymmetric);
    }
    None
}
