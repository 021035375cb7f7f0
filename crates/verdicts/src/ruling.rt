// From a walk to a verdict: the order's test, the verdict's word, the share.
ghost use Rattle.std.specs.Prelude.{◌≡◌, ◌≤◌, ◌^◌};
ghost use Rattle.verdicts.specs.Verdict.{outcome_of, refused_by};
ghost use Rattle.judging.specs.Code.Lent.{LentBy};
ghost use Rattle.verdicts.specs.Code.Judging.{RulesOn, ruled_by};

use crate::{Outcome, Verdict};
use answers::Refusal;
use judging::walking;
use rules::Parsed;
use walks::Tally;

// A refusal has counts 0, share 255 and choice all 255.
pub fn refused(refusal: Refusal) -> Verdict
    ensures { result ≡ refused_by refusal }
{
    Verdict {
        outcome: Outcome::Refused(refusal),
        full: 0,
        breaking: 0,
        first: [255u8; 8],
        share: 255,
    }
}

#[tactic(auto, unfolding(crate::specs::Verdict::outcome_of))]
fn outcome(full: u64, breaking: u64) -> Outcome
    ensures { result ≡ outcome_of full breaking }
{
    if 0 < breaking {
        return Outcome::Broken;
    }
    if full == 0 {
        return Outcome::Idle;
    }
    Outcome::Held
}

pub fn ruled(tally: Tally) -> Verdict
    requires { (tally.breaking ≤ tally.full) × (tally.full ≤ 64 ^ 8) }
    ensures { result ≡ ruled_by tally }
{
    let first = tally.first;
    Verdict {
        outcome: outcome(tally.full, tally.breaking),
        full: tally.full,
        breaking: tally.breaking,
        first,
        share: walks::share(tally.full, tally.breaking),
    }
}

// The verdict along an order, 18 where it is none.
pub fn along(t: &[u64], parsed: Parsed, order: &[u8]) -> Verdict
    requires { LentBy t.now parsed }
    ensures { RulesOn t.now parsed order.now result }
{
    let count = parsed.count;
    if order.len() != count {
        return refused(Refusal::NotAnOrder);
    }
    let all = walks::variables(order);
    let listed = &all[..count];
    let nodes = parsed.nodes;
    let vars = parsed.vars;
    let names = values::names::names(&nodes, parsed.n, &vars[..count]);
    if walks::ordered(&names, listed, count) {
        return ruled(walking::whole(t, parsed, listed));
    }
    refused(Refusal::NotAnOrder)
}
