// The tallies of a page's lines: for each, full, breaking and the first breaking choice in the order 1, 2, ..
// Lines that share a quantifier part are counted together, as far as they fit; then each line is judged.
ghost use Rattle.std.specs.Prelude.{true, ◌≡◌, ◌<◌, length};
ghost use Rattle.verdicts.specs.Code.Judging.{Loaded, KnownCounts, JudgesInTurn};
ghost use Rattle.pages.specs.Page.{page_limit};
ghost use Rattle.pages.specs.Code.Parts.{Ready};
ghost use Rattle.pages.specs.Code.Tallies.{Lanes, TalliesOn};

use crate::{CHOICE, sheaves};
use verdicts::Verdict;

// The verdict on a line, whose counts may be known.
fn verdict(words: &[u64], line: &[u8], known: bool, full: u64, breaking: u64) -> Verdict
    requires loaded { Loaded words.now }
    requires known_counts { known ≡ true → KnownCounts words.now line.now full breaking }
    ensures { JudgesInTurn words.now line.now result }
{
    if known {
        verdicts::counted_in_turn(words, line, full, breaking)
    } else {
        verdicts::in_turn(words, line)
    }
}

// Judges the lines of a page, all of which are accepted; `groups` has for each the first one with its quantifier part.
pub fn tallied(
    words: &[u64],
    page: &[u8],
    groups: &[usize],
    many: usize,
    fulls: &mut [u64],
    breakings: &mut [u64],
    firsts: &mut [u8],
)
    requires loaded { Loaded words.now }
    requires ready { Ready page.now groups.now many }
    requires groups_len { length groups.now ≡ page_limit }
    requires lanes { Lanes fulls.old breakings.old firsts.old }
    ensures { TalliesOn words.now page.now many fulls.new breakings.new firsts.new }
{
    let known = sheaves::known(words, page, groups, many, fulls, breakings);
    for k in 0..many {
        let Some(line) = texts::line(page, k) else {
            return;
        };
        let shared = words::contains(known, k);
        let judged = verdict(
            words,
            &page[line.start..line.end],
            shared,
            fulls[k],
            breakings[k],
        );
        fulls[k] = judged.full;
        breakings[k] = judged.breaking;
        let first = judged.first;
        let at = k * CHOICE;
        texts::put(&first, &mut firsts[at..]);
    }
}
