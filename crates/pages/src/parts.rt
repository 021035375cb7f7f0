// The quantifier parts of a page's lines: each line is reduced to its formula, and the lines are sorted by the formula through its first `:`.
// Short parts stand in slots while this goes on. The slots are small, because their room may stay on the stack during the walks.
ghost use Rattle.std.specs.Prelude.{◌≡◌, ◌≤◌, ◌<◌, ◌+◌, ◌*◌, cond, eqb, length};
ghost use Rattle.std.proofs.Math.Option.{none};
ghost use Rattle.texts.specs.Pieces.{lines};
ghost use Rattle.syntax.specs.Bytes.{same};
ghost use Rattle.rules.specs.Accept.{refusal};
ghost use Rattle.pages.specs.Page.{page_limit, part_of, parts_of};
ghost use Rattle.pages.specs.Code.Parts.{sheet_room, slot_room, line_at, first_with, EndsPart, PartSays, Slotted, SlotSays, Held, Room, SortSays};

use crate::{PAGE_LIMIT, Refused};
use answers::Refusal;

// No formula has more bytes.
const SHEET: usize = 4096;

// A part of at most as many bytes is held. Longer ones are rare, and are found again where two of one length are compared.
const SLOT: usize = 512;

// How long a formula is through its first `:`.
fn part_length(formula: &[u8]) -> usize
    ensures { EndsPart formula.now result }
{
    let at = texts::scan::find(formula, 0, formula.len(), b':');
    if at == formula.len() {
        return at;
    }
    at + 1
}

// Writes a line's formula, and finds where its quantifier part ends.
fn part_of(line: &[u8], out: &mut [u8]) -> Result<usize, Refusal>
    requires { sheet_room ≤ length out.old }
    ensures { PartSays line.now out.new result }
{
    let n = formulas::reduce(line, out)?;
    Ok(part_length(&out[..n]))
}

// The same for line k.
fn part_at(page: &[u8], k: usize, out: &mut [u8]) -> Result<usize, Refusal>
    requires k_in_bounds { k < length (lines page.now) }
    requires sheet_room_in_bounds { sheet_room ≤ length out.old }
    ensures { PartSays (line_at page.now k) out.new result }
{
    let Some(line) = texts::line(page, k) else {
        return Err(Refusal::NotARule);
    };
    part_of(&page[line.start..line.end], out)
}

// Puts a short part in slot k.
fn hold(part: &[u8], k: usize, slots: &mut [u8])
    requires { (k + 1) * slot_room ≤ length slots.old }
    ensures { Slotted part.now slots.old slots.new k }
{
    if part.len() <= SLOT {
        let start = k * SLOT;
        texts::put(part, &mut slots[start..]);
    }
}

// Finds line k's part, and puts it in slot k where it is short.
fn slot_of(page: &[u8], k: usize, slots: &mut [u8]) -> Result<usize, Refusal>
    requires k_in_bounds { k < length (lines page.now) }
    requires slot_room_in_bounds { (k + 1) * slot_room ≤ length slots.old }
    ensures { SlotSays (line_at page.now k) slots.old slots.new k result }
{
    let mut sheet = [0u8; SHEET];
    let n = part_at(page, k, &mut sheet)?;
    hold(&sheet[..n], k, slots);
    Ok(n)
}

// Whether two accepted lines have the same part, found again for both.
fn alike_again(page: &[u8], i: usize, j: usize) -> bool
    requires i_in_bounds { (i < length (lines page.now)) × (refusal (line_at page.now i) ≡ none) }
    requires j_in_bounds { (j < length (lines page.now)) × (refusal (line_at page.now j) ≡ none) }
    ensures { result ≡ same (part_of (line_at page.now i)) (part_of (line_at page.now j)) }
{
    let mut a = [0u8; SHEET];
    let mut b = [0u8; SHEET];
    let Ok(n) = part_at(page, i, &mut a) else {
        return false;
    };
    let Ok(m) = part_at(page, j, &mut b) else {
        return false;
    };
    a[..n] == b[..m]
}

// Whether lines k and j, before it, have the same part: only where they are of one length are their bytes compared.
fn alike(page: &[u8], slots: &[u8], lens: &[usize], k: usize, j: usize) -> bool
    requires room { Room slots.now lens.now (k + 1) }
    requires held { Held page.now slots.now lens.now (k + 1) }
    requires j_lt_k { j < k }
    ensures { result ≡ same (part_of (line_at page.now k)) (part_of (line_at page.now j)) }
{
    let n = lens[k];
    if n != lens[j] {
        return false;
    }
    if SLOT < n {
        return alike_again(page, k, j);
    }
    let a = k * SLOT;
    let b = j * SLOT;
    let a_end = a + n;
    let b_end = b + n;
    slots[a..a_end] == slots[b..b_end]
}

// The first line with the part of line k.
fn first_with(page: &[u8], slots: &[u8], lens: &[usize], k: usize) -> usize
    requires room { Room slots.now lens.now (k + 1) }
    requires held { Held page.now slots.now lens.now (k + 1) }
    ensures value { result ≡ first_with (part_of (line_at page.now k)) (parts_of (lines page.now)) }
    ensures upper_bound { result ≤ k }
{
    (0..k)
        .find(|j| alike(page, slots, lens, k, *j))
        .unwrap_or(k)
}

// Sorts the lines: `groups` gets for each line the first one with its quantifier part. How many different parts there are, or the first refused line.
pub fn sort(page: &[u8], many: usize, groups: &mut [usize]) -> Result<usize, Refused>
    requires page_len { length (lines page.now) ≡ many }
    requires many_le_page_limit { many ≤ page_limit }
    requires groups_len { length groups.old ≡ page_limit }
    ensures { SortSays page.now groups.new many result }
{
    let mut slots = [0u8; PAGE_LIMIT * SLOT];
    let mut lens = [0usize; PAGE_LIMIT];
    let mut walks = 0;
    for k in 0..many {
        let position = k + 1;
        let n = slot_of(page, k, &mut slots).map_err(|refusal| Refused { refusal, position })?;
        lens[k] = n;
        let first = first_with(page, &slots, &lens, k);
        groups[k] = first;
        walks += usize::from(first == k);
    }
    Ok(walks)
}
