// Where a node's text starts: a string's at its opening quote, an array's at its bracket, another's at its name, or at its opener
// where it has none.
ghost use Rattle.std.specs.Prelude.{◌≡◌};
ghost use Rattle.report.specs.Node.{kind_at, arrays_before, bracket_at, start_of};

use crate::window::Mark;
use parser::Node;
use parser::row::read_row;

// A node's kind. The table is one that anyone may have filled, so no row is known to be there.
#[tactic(auto, unfolding(crate::specs::Node::kind_at))]
pub(crate) fn kind(table: &[u32], node: Node) -> u32
    ensures { result ≡ kind_at table.now node.0 }
{
    read_row(table, node).kind
}

// How many arrays stand before a node.
fn arrays_before(table: &[u32], node: Node) -> usize
    ensures { result ≡ arrays_before table.now node.0 }
{
    (0..node.0)
        .filter(|i| kind(table, Node(*i)) == parser::ARRAY)
        .count()
}

// The place of the bracket that so many stand before, or the text's end. Up to the end of the first value a `[` opens an array wherever
// it stands, and arrays are numbered in the order of their openers: so this is where the array opens that so many arrays stand before.
// Not by `filter` and `nth`, which is no plainer: the place must then be taken out of a pair, and the end put in where there is none.
fn bracket(text: &[u8], before: usize) -> usize
    ensures { result ≡ bracket_at text.now before }
{
    let mut left = before;
    for (i, b) in text.iter().enumerate() {
        if *b == b'[' {
            if left == 0 {
                return i;
            }
            left -= 1;
        }
    }
    text.len()
}

#[tactic(auto, using(crate::proofs::Walks::bracket_within), unfolding(crate::specs::Node::kind_at, crate::specs::Node::from_at, crate::specs::Node::start_of))]
pub(crate) fn start<'a>(text: &'a [u8], table: &[u32], node: Node) -> Mark<'a>
    ensures text { result.text.now ≡ text.now }
    ensures place { result.place.0 ≡ start_of text.now table.now node.0 }
{
    let row = read_row(table, node);
    let from = row.from.0;
    match row.kind {
        parser::ARRAY => Mark::within(text, bracket(text, arrays_before(table, node))),
        parser::STRING => Mark::within(text, from.saturating_sub(1)),
        _ => Mark::within(text, from),
    }
}
