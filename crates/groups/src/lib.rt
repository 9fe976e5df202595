// Numbers in groups of seven bits, the lowest group first, in at most three bytes: a byte of 128 or more is a group that another follows.
// Definitions in specs/Groups.antt, and what is true of them in proofs/Laws.antt.
#![tactic(auto)]

ghost use Rattle.std.specs.Prelude.{◌≡◌};
ghost use Rattle.groups.specs.Groups.{number, ending};

// A number, and how many bytes it takes.
#[derive(Clone, Copy, Debug, PartialEq, Eq)]
pub struct Number {
    pub value: usize,
    pub size: usize,
}

// Groups that are cut short, not in their shortest form, or more than three.
#[derive(Clone, Copy, Debug, PartialEq, Eq)]
pub enum Fault {
    Cut,
    Padded,
    TooMany,
}

// The number at the front of the bytes.
#[tactic(auto, unfolding(crate::specs::Groups::number))]
pub fn read_number(bytes: &[u8]) -> Result<Number, Fault>
    ensures { result ≡ number bytes.now }
{
    match bytes {
        [a, ..] if *a < 128 => Ok(Number {
            value: usize::from(*a),
            size: 1,
        }),
        [a, b, ..] if *b < 128 => end(usize::from(*a) - 128 + 128 * usize::from(*b), *b, 2),
        [a, b, c, ..] if *c < 128 => end(
            usize::from(*a) - 128 + 128 * (usize::from(*b) - 128) + 16384 * usize::from(*c),
            *c,
            3,
        ),
        [_, _, _, ..] => Err(Fault::TooMany),
        _ => Err(Fault::Cut),
    }
}

// A number of several groups, by its last group: with 0 there the form is not the shortest.
fn end(value: usize, group: u8, size: usize) -> Result<Number, Fault>
    ensures { result ≡ ending value group size }
{
    if group == 0 {
        Err(Fault::Padded)
    } else {
        Ok(Number { value, size })
    }
}
