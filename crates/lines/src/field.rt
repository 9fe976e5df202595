// The fields of a line, bytes in hex and decimal numbers, and where its parts begin.
ghost use Rattle.std.specs.Prelude.{◌≡◌, ◌<◌, ◌≤◌, length, IfSome};
ghost use Rattle.lines.specs.Fields.{hex_value, hex_count, hex_left, digit, read_decimal, AtMost, number_after, part_from, Within};

use crate::place::find;

// A number, and where its field ends.
#[derive(Clone, Copy, Debug, PartialEq, Eq)]
pub struct Field {
    pub value: usize,
    pub end: usize,
}

// The value of a hexadecimal digit.
fn hex_value(b: u8) -> Option<u8>
    ensures value { result ≡ hex_value b }
    ensures upper_bound { IfSome result (λ v. v < 16) }
{
    match b {
        b'0'..=b'9' => Some(b - b'0'),
        b'A'..=b'F' => Some(b - b'A' + 10),
        b'a'..=b'f' => Some(b - b'a' + 10),
        _ => None,
    }
}

// Puts the bytes that a field gives in hex at the start of out, and says how many. Where a pair is bad, the bytes before it are put.
pub fn unhex(field: &[u8], out: &mut [u8]) -> Option<usize>
    ensures value { result ≡ hex_count field.now (length out.old) }
    ensures out_after { out.new ≡ hex_left field.now out.old }
    ensures at_most { AtMost (length out.new) result }
{
    let (pairs, []) = field.as_chunks::<2>() else {
        return None;
    };
    if out.len() < pairs.len() {
        return None;
    }
    for (i, [high, low]) in pairs.iter().enumerate() {
        let high = hex_value(*high)?;
        let low = hex_value(*low)?;
        out[i] = 16 * high + low;
    }
    Some(pairs.len())
}

// The number that a field gives in decimal, where it is at most `most`.
pub fn decimal(field: &[u8], most: u32) -> Option<usize>
    ensures value { result ≡ read_decimal most field.now }
    ensures at_most { AtMost most result }
{
    if field.is_empty() {
        return None;
    }
    let most = most as usize;
    let mut n: usize = 0;
    for b in field {
        n = 10 * n + digit(*b)?;
        if most < n {
            return None;
        }
    }
    Some(n)
}

// The value of a decimal digit.
fn digit(b: u8) -> Option<usize>
    ensures { result ≡ digit b }
{
    match b {
        b'0'..=b'9' => Some(usize::from(b - b'0')),
        _ => None,
    }
}

// The number of the field after the one that ends at `at`, where there is one. No program here asks for it: docs/PROMISES.md promises it.
pub fn number_after(line: &[u8], at: usize, most: u32) -> Option<Field>
    ensures value { result ≡ number_after most line.now at }
    ensures within { Within (length line.now) most result }
{
    if line.len() <= at {
        return None;
    }
    let from = at + 1;
    let end = find(line, from, line.len(), b'\t');
    let value = decimal(&line[from..end], most)?;
    Some(Field { value, end })
}

// Where part `number` of a line begins, counted from 0, at a mark each; the line's end where it has fewer parts. No program asks for it: docs/PROMISES.md promises it.
pub fn part_start(line: &[u8], number: u32, mark: u8) -> usize
    ensures value { result ≡ part_from mark number line.now 0 }
    ensures upper_bound { result ≤ length line.now }
{
    let mut at = 0;
    for _ in 0..number {
        let end = find(line, at, line.len(), mark);
        if end == line.len() {
            return end;
        }
        at = end + 1;
    }
    at
}
