// Texts made of pieces. Each function that writes puts its piece over the beginning of the lent
// bytes and answers how long it is, so that the next piece goes to the rest of them.
#![tactic(auto)]

ghost use Rattle.std.specs.Prelude.{◌≡◌, ◌≤◌, ◌<◌, ◌+◌, length};
ghost use Rattle.std.proofs.Math.ListN.{get_elem?};
ghost use Rattle.texts.specs.Code.Overwritten.{Overwritten, Added};
ghost use Rattle.texts.specs.Decimal.{digits_to, decimal_of};
ghost use Rattle.texts.specs.Pieces.{lines, fields};
ghost use Rattle.texts.specs.Code.Spans.{Spans, Starts, Sought};

pub mod scan;

// Writes the bytes of w.
pub fn put(w: &[u8], out: &mut [u8]) -> usize
    requires { length w.now ≤ length out.old }
    ensures { Overwritten w.now out.old out.new result }
{
    out[..w.len()].copy_from_slice(w);
    w.len()
}

// Writes the bytes of w behind the first n: the place behind them.
pub fn add(n: usize, w: &[u8], out: &mut [u8]) -> usize
    requires { n + length w.now ≤ length out.old }
    ensures { Added n w.now out.old out.new result }
{
    let m = put(w, &mut out[n..]);
    n + m
}

// Writes n's decimal digits.
pub fn decimal(n: u64, out: &mut [u8]) -> usize
    requires { 20 ≤ length out.old }
    ensures { Overwritten (decimal_of n) out.old out.new result }
{
    digits(20, n, out)
}

fn digits(left: usize, n: u64, out: &mut [u8]) -> usize
    requires { left ≤ length out.old }
    ensures { Overwritten (digits_to left n) out.old out.new result }
{
    if left == 0 {
        return 0;
    }
    if n < 10 {
        out[0] = digit(n);
        return 1;
    }
    let k = digits(left - 1, n / 10, out);
    out[k] = digit(n % 10);
    k + 1
}

fn digit(d: u64) -> u8
    requires { d < 10 }
    ensures { result ≡ 48 + d }
{
    48 + d as u8
}

// A piece of a text: its first place and the place behind it.
#[derive(Clone, Copy)]
pub struct Span {
    pub start: usize,
    pub end: usize,
}

// Line k of s, from 0.
pub fn line(s: &[u8], k: usize) -> Option<Span>
    ensures { Spans s.now (get_elem? (lines s.now) k) result }
{
    let from = seek(s, b'\n', k)?;
    if from == s.len() {
        return None;
    }
    Some(Span {
        start: from,
        end: line_end(s, from),
    })
}

// Where the line that begins at `from` ends: at its byte 10, or where s ends.
pub fn line_end(s: &[u8], from: usize) -> usize
    requires { from ≤ length s.now }
    ensures { Sought 10 s.now from result }
{
    scan::find(s, from, s.len(), b'\n')
}

// Field k of s, from 0.
pub fn field(s: &[u8], k: usize) -> Option<Span>
    ensures { Spans s.now (get_elem? (fields s.now) k) result }
{
    let from = seek(s, b' ', k)?;
    Some(Span {
        start: from,
        end: scan::find(s, from, s.len(), b' '),
    })
}

// Where piece k of s starts, where the byte c separates pieces.
fn seek(s: &[u8], c: u8, k: usize) -> Option<usize>
    ensures { Starts c k s.now result }
{
    let mut at = 0;
    for _ in 0..k {
        let end = scan::find(s, at, s.len(), c);
        if end == s.len() {
            return None;
        }
        at = end + 1;
    }
    Some(at)
}
