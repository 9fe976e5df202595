// The place of a byte.
ghost use Rattle.std.specs.Prelude.{◌≡◌, ◌+◌, ◌≤◌};
ghost use Rattle.lines.specs.Bytes.{index_of, slice};

// Where a byte stands first in a text, from one place on and before another; where it does not stand there, the place where they end.
pub fn find(text: &[u8], from: usize, to: usize, b: u8) -> usize
    ensures value { result ≡ from + index_of b (slice from to text.now) }
    ensures lower_bound { from ≤ result }
    ensures upper_bound { from ≤ to → result ≤ to }
{
    match text.get(from..to.min(text.len())) {
        Some(part) => from + part.iter().position(|x| *x == b).unwrap_or(part.len()),
        None => from,
    }
}
