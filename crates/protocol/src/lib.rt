// The fields of a command: bytes in hexadecimal, and numbers in decimal digits.
// A function that writes puts its text over the beginning of the lent bytes.
#![tactic(auto)]

ghost use Rattle.std.specs.Prelude.{◌≡◌, ◌≤◌, ◌<◌, ◌+◌, ◌*◌, length};
ghost use Rattle.texts.specs.Code.Overwritten.{Overwritten};
ghost use Rattle.protocol.specs.Hex.{hex_digit, hex_value, hex_of, field_of, pairs, from_hex};
ghost use Rattle.protocol.specs.Numbers.{value_of};
ghost use Rattle.protocol.specs.Code.Taken.{Bytes, Digit, took, AtMost};

// Writes the bytes that a field stands for, and says how many.
pub fn read_bytes(field: &[u8], out: &mut [u8]) -> Option<usize>
    requires { length field.now ≤ 2 * length out.old }
    ensures { Bytes (from_hex field.now) out.old out.new result }
{
    if field.len() == 0 {
        return None;
    }
    if field.len() == 1 {
        if field[0] == b'-' {
            return Some(0);
        }
        return None;
    }
    read_pairs(field, out)
}

fn read_pairs(field: &[u8], out: &mut [u8]) -> Option<usize>
    requires { length field.now ≤ 2 * length out.old }
    ensures { Bytes (pairs field.now) out.old out.new result }
{
    let count = field.len() / 2;
    for n in 0..count {
        let high = value(field[2 * n])?;
        let low = value(field[2 * n + 1])?;
        out[n] = 16 * high + low;
    }
    if 2 * count < field.len() {
        return None;
    }
    Some(count)
}

fn value(c: u8) -> Option<u8>
    ensures { Digit (hex_value c) result }
{
    match c {
        b'0'..=b'9' => Some(c - b'0'),
        b'a'..=b'f' => Some(c - b'a' + 10),
        _ => None,
    }
}

// Writes the field of the bytes b.
pub fn write_bytes(b: &[u8], out: &mut [u8]) -> usize
    requires { 2 * length b.now < length out.old }
    ensures { Overwritten (field_of b.now) out.old out.new result }
{
    if b.len() == 0 {
        out[0] = b'-';
        return 1;
    }
    write_pairs(b, out)
}

fn write_pairs(b: &[u8], out: &mut [u8]) -> usize
    requires { 2 * length b.now ≤ length out.old }
    ensures { Overwritten (hex_of b.now) out.old out.new result }
{
    for (i, x) in b.iter().enumerate() {
        out[2 * i] = digit(*x / 16);
        out[2 * i + 1] = digit(*x % 16);
    }
    2 * b.len()
}

fn digit(d: u8) -> u8
    requires { d < 16 }
    ensures { result ≡ hex_digit d }
{
    if d < 10 { 48 + d } else { 87 + d }
}

// The number that a field stands for, where it is at most so much.
pub fn read_number(field: &[u8], most: usize) -> Option<usize>
    requires { most ≤ 4294967295 }
    ensures { (result ≡ took (value_of most field.now)) × AtMost most result }
{
    if field.len() == 0 {
        return None;
    }
    let mut n = 0;
    for &c in field {
        if c < 48 || 57 < c {
            return None;
        }
        let more = 10 * n + (c - 48) as usize;
        if most < more {
            return None;
        }
        n = more;
    }
    Some(n)
}
