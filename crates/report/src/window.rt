// The part of a text around a place, on one line, with a caret under the place.
ghost use Rattle.std.specs.Prelude.{◌≡◌, ◌≤◌, ◌<◌, ◌+◌, ◌^◌, min, length};
ghost use Rattle.std.specs.Iterator.{AlwaysYields, IsFinite};
ghost use Rattle.cel_text.specs.Byte.{Text};
ghost use Rattle.pieces.specs.Pieces.{Wrote};
ghost use Rattle.report.specs.Window.{back as Back, forth as Forth, forth_from, margin_text, end_text, caret_text, after_byte, spot_of, spot_text, place_text};
ghost use Rattle.report.specs.Window.{byte_place_text, node_place_text};

use crate::words::put_part;
use page::say;
use parser::{Node, Place};

// The most columns of the text that are shown; half of them are kept for what stands before the place.
const WIDE: usize = 72;

const HALF: usize = 36;

// The columns before the text: blank, or a mark that it begins earlier.
const MARGIN: usize = 4;

// One end of the part, and the columns between it and the place. Of bytes that were passed: how many they are, and their columns.
#[derive(Clone, Copy)]
struct Side {
    at: usize,
    columns: usize,
}

// Line and column, both counted from 1.
#[derive(Clone, Copy)]
struct Spot {
    line: usize,
    column: usize,
}

impl Spot {
    // The line and column after a byte.
    fn after(self, b: u8) -> Spot
        requires { (self.line + 1 < 2 ^ 64) × (self.column + 1 < 2 ^ 64) }
        ensures value { result ≡ after_byte self b }
        ensures line_bound { (result.line ≤ self.line + 1) × (result.column ≤ self.column + 1) }
    {
        if b == b'\n' {
            return Spot {
                line: self.line + 1,
                column: 1,
            };
        }
        Spot {
            column: self.column + 1,
            ..self
        }
    }

    // A line for it, where it is not in the first line.
    fn put(self, out: &mut [u8], at: usize) -> usize
        ensures { Wrote out.old out.new at result (spot_text self) }
    {
        if self.line == 1 {
            return at;
        }
        let end = say(out, at, b"    Line #, column ", self.line);
        say(out, end, b"#.\n", self.column)
    }
}

// A place in a text, no further than its end.
#[derive(Clone, Copy)]
pub(crate) struct Mark<'a> {
    pub text: &'a [u8],
    pub place: Place,
    ghost inside: { place.0 ≤ length text.now },
}

impl<'a> Mark<'a> {
    // The place, or the text's end where that comes first.
    pub(crate) fn within(text: &'a [u8], i: usize) -> Mark<'a>
        ensures text { result.text.now ≡ text.now }
        ensures place { result.place.0 ≡ min i (length text.now) }
    {
        Mark {
            text,
            place: Place(i.min(text.len())),
        }
    }

    // As far back from the place as this many columns reach.
    fn back(self, room: usize) -> Side
        ensures value { result ≡ Back self.entry.text.now self.entry.place.0 room }
        ensures columns_le_room { result.columns ≤ room }
    {
        let passed = pass(self.text[..self.place.0].iter().rev(), room);
        Side {
            at: self.place.0 - passed.at,
            ..passed
        }
    }

    // As far forth from the place as this many columns reach.
    fn forth(self, room: usize) -> Side
        ensures value { result ≡ Forth self.entry.text.now self.entry.place.0 room }
        ensures columns_le_room { result.columns ≤ room }
    {
        let passed = pass(self.text[self.place.0..].iter(), room);
        Side {
            at: self.place.0 + passed.at,
            ..passed
        }
    }

    // Its line and column.
    #[tactic(auto, unfolding(crate::specs::Window::spot_of))]
    fn spot(self) -> Spot
        ensures { result ≡ spot_of self.entry.text.now self.entry.place.0 }
    {
        let mut spot = Spot { line: 1, column: 1 };
        for b in &self.text[..self.place.0] {
            spot = spot.after(*b);
        }
        spot
    }

    fn put_place(self, out: &mut [u8], at: usize) -> usize
        ensures { Wrote out.old out.new at result (place_text self.entry.text.now self.entry.place.0) }
    {
        let end = say(out, at, b"byte #\n", self.place.0);
        self.spot().put(out, end)
    }

    // The text's line and the beginning of the caret's, up to what is said of the place.
    fn put_caret(self, out: &mut [u8], at: usize) -> usize
        ensures { Wrote out.old out.new at result (caret_text self.entry.text.now self.entry.place.0) }
    {
        let near = self.back(HALF);
        let last = self.forth(WIDE - near.columns);
        let first = self.back(WIDE - last.columns);
        let end = put_margin(out, at, first.at);
        let end = put_part(out, end, self.text, first.at, last.at);
        let end = put_end(out, end, last.at < self.text.len());
        let end = page::put_spaces(out, end, MARGIN + first.columns);
        say(out, end, b"^ ", 0)
    }

    // The part around a byte, which the place is.
    pub(crate) fn put_byte_place(self, out: &mut [u8], at: usize) -> usize
        ensures { Wrote out.old out.new at result (byte_place_text self.entry.text.now self.entry.place.0) }
    {
        let end = self.put_caret(out, at);
        self.put_place(out, end)
    }

    // The part around a node, whose text starts at the place.
    pub(crate) fn put_node_place(self, out: &mut [u8], at: usize, node: Node) -> usize
        ensures { Wrote out.old out.new at result (node_place_text self.entry.text.now node.0 self.entry.place.0) }
    {
        let end = self.put_caret(out, at);
        let end = say(out, end, b"node #, ", node.0);
        self.put_place(out, end)
    }
}

// How many of these bytes this many columns reach, and the columns that they take.
fn pass<'a, I: Iterator<Item = &'a u8> + Drop>(bytes: I, room: usize) -> Side
    requires can { I.can_next bytes }
    requires finite { IsFinite (I.remaining bytes) }
    ensures value { (all : Text) → AlwaysYields I.next_gives (λ b. b.now) bytes all → result ≡ forth_from all room 0 0 }
    ensures columns_le_room { result.columns ≤ room }
{
    // `at` counts: where the bytes end first, `enumerate` does not tell how many there were.
    let mut at = 0;
    let mut columns = 0;
    for b in bytes {
        let more = page::columns(*b);
        if room - columns < more {
            break;
        }
        columns += more;
        at += 1;
    }
    Side { at, columns }
}

// The beginning of the text's line: the margin.
#[tactic(auto, unfolding(crate::specs::Window::margin_text))]
fn put_margin(out: &mut [u8], at: usize, from: usize) -> usize
    ensures { Wrote out.old out.new at result (margin_text from) }
{
    if from == 0 {
        return say(out, at, b"\n    ", 0);
    }
    say(out, at, b"\n... ", 0)
}

// The end of the text's line, with a mark where the text goes on.
#[tactic(auto, unfolding(crate::specs::Window::end_text))]
fn put_end(out: &mut [u8], at: usize, more: bool) -> usize
    ensures { Wrote out.old out.new at result (end_text more) }
{
    if more {
        return say(out, at, b" ...\n", 0);
    }
    say(out, at, b"\n", 0)
}
