// Lines with one quantifier part share one walk: they are gathered into one rule, and counted together.
// Lines that do not fit into it begin another one; a line by itself is not counted here.
ghost use Rattle.std.specs.Prelude.{◌≡◌, ◌+◌, ◌<◌, ◌≤◌, length};
ghost use Rattle.verdicts.specs.Code.Judging.{Loaded};
ghost use Rattle.pages.specs.Page.{page_limit};
ghost use Rattle.pages.specs.Code.Parts.{Ready};
ghost use Rattle.pages.specs.Code.Sheaves.{LinesOf, Wanted, Arrays, Gathers, Sizes, Spreads, Whole, CountsLines, Grows, KnownLines};

use crate::PAGE_LIMIT;
use rules::{CHOICES_LIMIT, Parsed};
use sharing::gathering::{ROOM, Size};
use sharing::{gathering, together};

// So many slots are kept for lines: one for each line and variable but the first.
const SLOTS: usize = 64;

// What was gathered: nodes, clauses, variables and lines.
#[derive(Clone, Copy)]
pub struct Gathered {
    pub size: Size,
    pub lines: usize,
}

// The lines from line k on that have its quantifier part and are not known yet.
fn alike(groups: &[usize], k: usize, many: usize, known: u64) -> u64
    requires { (many ≤ page_limit) × (length groups.now ≡ page_limit) }
    ensures { LinesOf result many }
{
    let mut found = 0;
    for j in k..many {
        if groups[j] == groups[k] && !words::contains(known, j) {
            found = words::join(found, words::item(j));
        }
    }
    found
}

// Whether a walk is to be tried with line k: it is not known yet, and it is the first line with its part, or one that did not fit in with it.
fn due(groups: &[usize], k: usize, known: u64) -> bool
    requires { (k < page_limit) × (length groups.now ≡ page_limit) }
    ensures { Unit {0} }
{
    !words::contains(known, k)
        && (groups[k] == k || words::meet(known, words::item(groups[k])) != 0)
}

// Whether one line more would have no slots of its own.
fn crowded(lines: usize, count: usize) -> bool
    requires { (lines ≤ page_limit + 1) × (count ≤ 8) }
    ensures { Unit {0} }
{
    SLOTS + lines < lines * count
}

// Gathers the lines of a word, one after the other, as long as they fit.
fn gather(
    page: &[u8],
    wanted: u64,
    nodes: &mut [u32],
    list: &mut [u32],
    vars: &mut [u32],
    starts: &mut [u64],
    members: &mut [usize],
) -> Gathered
    requires { Wanted page.now wanted × Arrays nodes.old list.old vars.old starts.old members.old }
    ensures { Gathers page.now wanted nodes.new list.new vars.new starts.new members.new result }
{
    let mut size = Size {
        n: 0,
        c: 0,
        count: 0,
    };
    let mut lines = 0;
    let mut rest = wanted;
    while rest != 0 {
        let j = words::lowest(rest);
        rest = words::less(rest, words::item(j));
        let Some(line) = texts::line(page, j) else {
            return Gathered { size, lines };
        };
        let Some(more) = gathering::add(&page[line.start..line.end], nodes, list, vars, size) else {
            return Gathered { size, lines };
        };
        size = more;
        members[lines] = j;
        lines += 1;
        starts[lines] = size.c as u64;
        if crowded(lines + 1, size.count) {
            rest = 0;
        }
    }
    Gathered { size, lines }
}

// Puts the counts of gathered lines in the lines' places; which lines those are.
fn spread(
    members: &[usize],
    lines: usize,
    full: u64,
    counts: &[u64],
    fulls: &mut [u64],
    breakings: &mut [u64],
) -> u64
    requires { Sizes members.now lines counts.now fulls.old breakings.old }
    ensures { Spreads members.now lines full counts.now fulls.old breakings.old fulls.new breakings.new result }
{
    let mut known = 0;
    for l in 0..lines {
        let j = members[l];
        fulls[j] = full;
        breakings[j] = counts[l];
        known = words::join(known, words::item(j));
    }
    known
}

// The counts of gathered lines, from the rule that they make together; which lines those are.
fn counted(
    words: &[u64],
    parsed: Parsed,
    starts: &[u64],
    members: &[usize],
    lines: usize,
    fulls: &mut [u64],
    breakings: &mut [u64],
) -> u64
    requires loaded { Loaded words.now × Whole parsed starts.now members.now lines }
    requires fulls_len { (length fulls.old ≡ page_limit) × (length breakings.old ≡ page_limit) }
    ensures { CountsLines words.now parsed starts.now members.now lines fulls.old breakings.old fulls.new breakings.new result }
{
    let mut counts = [0u64; PAGE_LIMIT];
    let Some(full) = together::counts(words, parsed, starts, lines, &mut counts) else {
        return 0;
    };
    spread(members, lines, full, &counts, fulls, breakings)
}

// The counts of as many lines of a word as fit into one walk; which lines those are.
fn sheaf(words: &[u64], page: &[u8], wanted: u64, fulls: &mut [u64], breakings: &mut [u64]) -> u64
    requires loaded { Loaded words.now × Wanted page.now wanted }
    requires fulls_len { (length fulls.old ≡ page_limit) × (length breakings.old ≡ page_limit) }
    ensures { Grows words.now page.now fulls.old breakings.old fulls.new breakings.new result }
{
    if words::size(wanted) < 2 {
        return 0;
    }
    let mut nodes = [0u32; ROOM];
    let mut list = [0u32; ROOM];
    let mut vars = [0u32; CHOICES_LIMIT];
    let mut starts = [0u64; PAGE_LIMIT + 1];
    let mut members = [0usize; PAGE_LIMIT];
    let found = gather(
        page,
        wanted,
        &mut nodes,
        &mut list,
        &mut vars,
        &mut starts,
        &mut members,
    );
    if found.lines < 2 {
        return 0;
    }
    let Some(parsed) = gathering::close(&nodes, &list, &vars, found.size) else {
        return 0;
    };
    counted(
        words,
        parsed,
        &starts,
        &members,
        found.lines,
        fulls,
        breakings,
    )
}

// The counts of all lines that share a walk with another; which lines those are.
pub fn known(
    words: &[u64],
    page: &[u8],
    groups: &[usize],
    many: usize,
    fulls: &mut [u64],
    breakings: &mut [u64],
) -> u64
    requires loaded { Loaded words.now × Ready page.now groups.now many × (length groups.now ≡ page_limit) }
    requires fulls_len { (length fulls.old ≡ page_limit) × (length breakings.old ≡ page_limit) }
    ensures { KnownLines words.now page.now fulls.new breakings.new result }
{
    let mut found = 0;
    for k in 0..many {
        if due(groups, k, found) {
            let wanted = alike(groups, k, many, found);
            let more = sheaf(words, page, wanted, fulls, breakings);
            found = words::join(found, more);
        }
    }
    found
}
