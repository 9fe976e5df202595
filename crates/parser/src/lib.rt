// Reading a tree: the port of parser.rs. `read_tree` says what a text reads as, and leaves the tree's rows in a lent table.
// Its contract cites the definitions of `cel_text`, for every text and every table, and asks nothing of the caller.
#![tactic(auto)]

pub mod row;
pub mod scan;
mod value;

ghost use Rattle.std.specs.Prelude.{◌≡◌, ◌≤◌, length};
ghost use Rattle.cel_text.specs.Reading.{max_depth, max_nodes};
ghost use Rattle.cel_text.specs.Table.{node_words, nodes_left};
ghost use Rattle.cel_text.specs.Answer.{max_text, refused_at, tree_answer, tree_table, tree_over};
ghost use Rattle.parser.specs.Faults.{number_of};
ghost use Rattle.parser.specs.Found.{told, Finds, Small, answer_of, accepted_with, stale_from};

// A place in the text: how many bytes stand before it.
#[derive(Clone, Copy, Debug, Default, PartialEq, Eq, PartialOrd, Ord)]
pub struct Place(pub usize);

// A node's number.
#[derive(Clone, Copy, Debug, Default, PartialEq, Eq, PartialOrd, Ord)]
pub struct Node(pub usize);

// What was read: where reading goes on, the number of the next node and the depth.
#[derive(Clone, Copy)]
pub(crate) struct Read {
    pub end: Place,
    pub next: Node,
    pub depth: usize,
}

// Why reading refuses a text.
#[derive(Clone, Copy)]
pub(crate) enum Fault {
    TextTooLong,
    NotAscii,
    Syntax,
    TooDeep,
    TooMany,
}

impl Fault {
    // The refusal's number. A method and no `From`: `u32::from(fault)` would not say which number is meant.
    fn number(self) -> u32
        ensures { result ≡ number_of self }
    {
        match self {
            Fault::TextTooLong => TEXT_TOO_LONG,
            Fault::NotAscii => NOT_ASCII,
            Fault::Syntax => SYNTAX,
            Fault::TooDeep => TOO_DEEP,
            Fault::TooMany => TOO_MANY,
        }
    }

    // The refusal for this reason, at this place.
    pub(crate) fn at(self, place: Place) -> Refused
        ensures { result ≡ record { fault = self; place = place } }
    {
        Refused { fault: self, place }
    }
}

// A refusal, and its place.
#[derive(Clone, Copy)]
pub(crate) struct Refused {
    pub fault: Fault,
    pub place: Place,
}

// The answer of reading a tree: SPEC.md's six numbers, which callers print, hand to C and compare, so no enum.
#[derive(Clone, Copy, Debug, PartialEq, Eq)]
pub struct Answer {
    pub refusal: u32,
    pub name: u32,
    pub kind: u32,
    pub place: u32,
    pub nodes: u32,
    pub depth: u32,
}

// Limits.
pub const MAX_TEXT: usize = 8192;

pub const MAX_DEPTH: usize = 32;

pub const MAX_NODES: usize = 256;

// The node table: the words that count, a row for each node that may be; and those of a row. Tables are fixed and lent: a rule of the project, no heap.
pub const NODE_WORDS: usize = ROW_WORDS * MAX_NODES;

pub const ROW_WORDS: usize = 8;

// Kinds, as a row's first word names them: numbers and no enum, since a row is words and a table may hold any.
pub const STRING: u32 = 1;

pub const ARRAY: u32 = 2;

pub const OBJECT: u32 = 3;

pub const FUNCTION: u32 = 4;

// An accepted text, and the refusals of reading a tree: SPEC.md's numbers, matched by ranges. Reading itself has `Fault`.
pub const ACCEPTED: u32 = 0;

pub const TABLE_TOO_SHORT: u32 = 1;

pub const TEXT_TOO_LONG: u32 = 2;

pub const NOT_ASCII: u32 = 3;

pub const SYNTAX: u32 = 4;

pub const TOO_DEEP: u32 = 5;

pub const TOO_MANY: u32 = 6;

// Refusals of the mapping, which keep the tree.
pub const UNEXPECTED_NODE_TYPE: u32 = 7;

pub const UNEXPECTED_NODE_NAME: u32 = 8;

pub const MISSING_FUNCTION_PARAMETER: u32 = 9;

pub const MISSING_OBJECT_PROPERTY: u32 = 10;

pub const EXTRANEOUS_VALIDATION_ARGS_PROPERTY: u32 = 11;

pub const MISSING_VALIDATION_ARGS_PROPERTY: u32 = 12;

pub const EXTRANEOUS_REQUEST_CERTIFICATION_PROPERTY: u32 = 13;

pub const MISSING_REQUEST_CERTIFICATION_PROPERTY: u32 = 14;

pub const EXTRANEOUS_RESPONSE_CERTIFICATION_PROPERTY: u32 = 15;

pub const MISSING_RESPONSE_CERTIFICATION_PROPERTY: u32 = 16;

// Reads the text. A table of under 2,048 words is refused and left alone; of a longer one the first 2,048 words count, and those
// after the rows are 0.
pub fn read_tree(text: &[u8], table: &mut [u32]) -> Answer
    ensures answer { told result ≡ tree_answer (length table.old) text.now }
    ensures table { table.new ≡ tree_table text.now table.old }
{
    if table.len() < NODE_WORDS {
        return too_short();
    }
    row::clear(&mut table[..NODE_WORDS], 0);
    read_over(text, table)
}

// The same, but the words after an accepted tree's rows stay as lent. Two functions: docs/PROMISES.md promises both, and the other is a clearing and this one.
pub fn read_over(text: &[u8], table: &mut [u32]) -> Answer
    ensures answer { told result ≡ tree_answer (length table.old) text.now }
    ensures table { table.new ≡ tree_over text.now table.old }
{
    // No `get_mut`: once its borrow is over a proof knows the table's length and none of its words.
    if table.len() < NODE_WORDS {
        return too_short();
    }
    let counted = &mut table[..NODE_WORDS];
    let found = find(text, counted);
    let answer = answer_of(found);
    row::clear(counted, stale(answer.refusal));
    answer
}

// The answer where a lent table is too short: nothing is read.
pub fn too_short() -> Answer
    ensures { told result ≡ refused_at 1 0 }
{
    without_tree(TABLE_TOO_SHORT, Place(0))
}

// Refusals 2 and 3, then the value that the text begins with.
fn find(text: &[u8], table: &mut [u32]) -> Result<Read, Refused>
    requires { length table.old ≡ node_words }
    ensures { Finds text.now table.old table.new result }
{
    if MAX_TEXT < text.len() {
        return Err(Fault::TextTooLong.at(Place(MAX_TEXT)));
    }
    let plain = scan::ascii_end(text);
    if plain.0 < text.len() {
        return Err(Fault::NotAscii.at(plain));
    }
    value::cel_value(text, table, value::root(), MAX_DEPTH)
}

// The answer about what was found. No `From`: the numbers have to be small enough for a word, which only a contract can ask.
fn answer_of(found: Result<Read, Refused>) -> Answer
    requires { Small found }
    ensures { told result ≡ answer_of found }
{
    match found {
        Ok(read) => accepted(read),
        Err(refused) => without_tree(refused.fault.number(), refused.place),
    }
}

// The answer about the tree that was read.
fn accepted(read: Read) -> Answer
    requires { (read.next.0 ≤ max_nodes) × (read.depth ≤ max_depth) }
    ensures { told result ≡ accepted_with read }
{
    Answer {
        refusal: ACCEPTED,
        name: 0,
        kind: 0,
        place: 0,
        nodes: read.next.0 as u32,
        depth: read.depth as u32,
    }
}

// The answer of a refusal without a tree.
fn without_tree(refusal: u32, place: Place) -> Answer
    requires { place.0 ≤ max_text }
    ensures { told result ≡ refused_at refusal place.0 }
{
    Answer {
        refusal,
        name: 0,
        kind: 0,
        place: place.0 as u32,
        nodes: 0,
        depth: 0,
    }
}

// The first of the counted words in which a read with this refusal may have left what does not belong there.
fn stale(refusal: u32) -> usize
    ensures { result ≡ stale_from (nodes_left refusal) }
{
    match refusal {
        ACCEPTED
        | TABLE_TOO_SHORT
        | UNEXPECTED_NODE_TYPE..=MISSING_RESPONSE_CERTIFICATION_PROPERTY => NODE_WORDS,
        _ => 0,
    }
}
