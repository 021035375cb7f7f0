// Sets as u64 words, and the two ways to go from a set to another: image and preimage.
// Each function is told by bits; nothing here knows tables.
#![tactic(auto)]

ghost use Rattle.std.specs.Prelude.{◌≡◌, ◌<◌, ◌≤◌, ◌^◌, leb, get_or};
ghost use Rattle.words.specs.Words.{has, Lowest, size_of, all_of, item_of, meet_of, join_of, less_of, image_of, preimage_of};

// Whether item i is in the word.
pub fn contains(w: u64, i: usize) -> bool
    requires { i < 64 }
    ensures { result ≡ has w i }
{
    (w >> i) % 2 == 1
}

// The word of one item; the empty word where no word holds it.
pub fn item(i: usize) -> u64
    ensures { result ≡ item_of i }
{
    if i < 64 { 1 << i } else { 0 }
}

// The items 0 to n - 1.
pub fn all(n: usize) -> u64
    ensures { result ≡ all_of n }
{
    if n < 64 {
        (1 << n) - 1
    } else {
        0xffff_ffff_ffff_ffff
    }
}

pub fn meet(a: u64, b: u64) -> u64
    ensures { result ≡ meet_of a b }
{
    a & b
}

pub fn join(a: u64, b: u64) -> u64
    ensures { result ≡ join_of a b }
{
    a | b
}

pub fn less(a: u64, b: u64) -> u64
    ensures { result ≡ less_of a b }
{
    a & !b
}

// How many items the word has: the count of ones.
pub fn size(w: u64) -> usize
    ensures { result ≡ size_of w }
{
    w.count_ones() as usize
}

// A bit at or above n is set.
pub fn outside(w: u64, n: u64) -> bool
    requires { n ≤ 64 }
    ensures { result ≡ leb (2 ^ n) w }
{
    n < 64 && 0 < w >> n
}

// The smallest item, or 64.
pub fn lowest(w: u64) -> usize
    ensures { Lowest w result }
{
    w.trailing_zeros() as usize
}

// Row i; past the last row the empty word.
pub fn row(rows: &[u64], i: usize) -> u64
    ensures { result ≡ get_or rows.now i 0 }
{
    rows.get(i).copied().unwrap_or(0)
}

// The union of the rows of w's items. Only w's items are visited.
pub fn image(rows: &[u64], w: u64) -> u64
    ensures { result ≡ image_of rows.now w }
{
    let mut left = w;
    let mut found = 0;
    while left != 0 {
        let i = lowest(left);
        found = join(found, row(rows, i));
        left = less(left, item(i));
    }
    found
}

// The items whose row meets w. Only the rows that are there are visited, so a short slice costs little.
pub fn preimage(rows: &[u64], w: u64) -> u64
    ensures { result ≡ preimage_of rows.now w }
{
    let n = rows.len().min(64);
    let mut found = 0;
    for (i, row) in rows[..n].iter().enumerate() {
        if meet(*row, w) != 0 {
            found = join(found, item(i));
        }
    }
    found
}
