// Values: what opens one, strings, and the cycle of values and lists, the depth left falling.
ghost use Rattle.std.specs.Prelude.{◌≡◌, ◌+◌, ◌<◌, ◌≤◌, length};
ghost use Rattle.cel_text.specs.Tree.{closer};
ghost use Rattle.cel_text.specs.Reading.{max_nodes};
ghost use Rattle.cel_text.specs.Table.{node_words, kind_number};
ghost use Rattle.cel_text.specs.Answer.{max_text};
ghost use Rattle.parser.specs.Kinds.{kind_told, opener_kind, shown};
ghost use Rattle.parser.specs.Steps.{Begins, Opens, Labels, Limited, Valued, StringRead, ChildRead, Listed, no_key, root_slot};

use crate::row::Parent;
use crate::scan::{Class, Name};
use crate::{
    ARRAY, FUNCTION, Fault, MAX_NODES, Node, OBJECT, Place, Read, Refused, STRING, row, scan,
};

// The kinds of containers.
#[derive(Clone, Copy)]
pub(crate) enum Kind {
    Array,
    Object,
    Function,
}

impl Kind {
    // The kind as a row's first word names it. A method and no `From`: `u32::from(kind)` would not say which number is meant.
    fn number(self) -> u32
        ensures { result ≡ kind_number (kind_told self) }
    {
        match self {
            Kind::Array => ARRAY,
            Kind::Object => OBJECT,
            Kind::Function => FUNCTION,
        }
    }

    // The byte that closes such a container.
    fn closer(self) -> u8
        ensures { result ≡ closer (kind_told self) }
    {
        match self {
            Kind::Array => b']',
            Kind::Object => b'}',
            Kind::Function => b')',
        }
    }
}

// What opens a value: a string's first quote, or a container's opener.
#[derive(Clone, Copy)]
pub(crate) enum Opener {
    Quote,
    Container(Kind),
}

// A child's key and the place where its value is due. Ends of 0 and 0 and no Option where it has none: that is what the row shows.
#[derive(Clone, Copy)]
pub(crate) struct Key {
    pub from: Place,
    pub to: Place,
    pub due: Place,
}

impl Key {
    // No key: the value is due here.
    fn none(due: Place) -> Key
        ensures { result ≡ no_key due }
    {
        Key {
            from: Place(0),
            to: Place(0),
            due,
        }
    }
}

// What a value's row shows of where it stands: its node, its key and its parent.
#[derive(Clone, Copy)]
pub(crate) struct Slot {
    pub node: Node,
    pub key: Key,
    pub parent: Parent,
}

// What a value begins with: what opens it; the ends of its name; its opener's place.
#[derive(Clone, Copy)]
pub(crate) struct Head {
    pub opener: Opener,
    pub from: Place,
    pub to: Place,
    pub at: Place,
}

// The byte b as an opener, after an identifier that is empty or not.
fn opener_kind(b: u8, empty: bool) -> Option<Opener>
    ensures { result ≡ opener_kind empty b }
{
    match b {
        b'{' => Some(Opener::Container(Kind::Object)),
        b'(' => Some(Opener::Container(Kind::Function)),
        b'[' if empty => Some(Opener::Container(Kind::Array)),
        b'"' if empty => Some(Opener::Quote),
        _ => None,
    }
}

// An end of the name that a value's row shows: an array's row shows none.
fn shown(opener: Opener, end: Place) -> Place
    ensures { result.0 ≡ shown opener end.0 }
{
    match opener {
        Opener::Container(Kind::Array) => Place(0),
        _ => end,
    }
}

// What opens the value that is due here.
// That a place lies in the text stays a clause, here, in `label` and in `scan::spaces`: a struct of both would be made anew, with that clause, at each place.
fn opening(text: &[u8], at: Place) -> Result<Head, Refused>
    requires { at.0 ≤ length text.now }
    ensures { Begins text.now at.0 result }
{
    let Name { from, to, end: at } = scan::trimmed_ident(text, at);
    let Some(opener) = opener_kind(scan::peek(text, at), from.0 == to.0) else {
        return Err(Fault::Syntax.at(at));
    };
    Ok(Head {
        opener,
        from: shown(opener, from),
        to: shown(opener, to),
        at,
    })
}

// The limits, and the place after the opener. Of two refusals at one place 5 comes before 6.
#[tactic(auto, using(crate::proofs::Values::stopped_deep))]
fn enter(opener: Opener, at: Place, node: Node, left: usize) -> Result<Place, Refused>
    requires { (at.0 ≤ max_text) × (node.0 ≤ max_nodes) }
    ensures { Opens opener at.0 node.0 left result }
{
    if let Opener::Container(_) = opener {
        if left == 0 {
            return Err(Fault::TooDeep.at(at));
        }
    }
    if node.0 == MAX_NODES {
        return Err(Fault::TooMany.at(at));
    }
    Ok(Place(at.0 + 1))
}

// Where the value stands that a text begins with: no key, no parent.
pub(crate) fn root() -> Slot
    ensures { result ≡ root_slot }
{
    Slot {
        node: Node(0),
        key: Key::none(Place(0)),
        parent: Parent(0),
    }
}

// A value, with the key and the parent that its row shows.
// The text and the table stay two parameters: a struct that holds the `&mut [u32]` needs a clause on its ghost name in every contract.
#[cycle(cel_value_key_value_list)]
pub(crate) fn cel_value(
    text: &[u8],
    table: &mut [u32],
    slot: Slot,
    left: usize,
) -> Result<Read, Refused>
    requires limited { Limited text.now table.old slot.key.due.0 slot.node.0 left }
    requires keyfrom_le_max_text { (slot.key.from.0 ≤ max_text) × (slot.key.to.0 ≤ max_text) }
    ensures { Valued text.now table.old table.new slot left result }
{
    let head = opening(text, slot.key.due)?;
    let inner = enter(head.opener, head.at, slot.node, left)?;
    match head.opener {
        Opener::Quote => string(text, table, inner, slot),
        Opener::Container(kind) => {
            row::open_row(table, kind.number(), head.from, head.to, slot);
            list(text, table, inner, slot.node, kind, left - 1)
        }
    }
}

// A string, from the place after its first quote, and its row.
fn string(text: &[u8], table: &mut [u32], at: Place, slot: Slot) -> Result<Read, Refused>
    requires at_in_bounds { (at.0 ≤ length text.now) × (length text.now ≤ max_text) × (slot.node.0 < max_nodes) × (length table.old ≡ node_words) }
    requires keyfrom_le_max_text { (slot.key.from.0 ≤ max_text) × (slot.key.to.0 ≤ max_text) }
    ensures { StringRead text.now table.old table.new at.0 slot result }
{
    let to = scan::run_of(text, at, Class::StringByte);
    let end = scan::run_of(text, to, Class::Blank);
    if scan::peek(text, end) != b'"' {
        return Err(Fault::Syntax.at(end));
    }
    let node = slot.node;
    let next = Node(node.0 + 1);
    row::open_row(table, STRING, at, to, slot);
    row::close_row(table, node, 0, next);
    Ok(Read {
        end: Place(end.0 + 1),
        next,
        depth: 0,
    })
}

// The key of the child that is due here, in an object with its colon; no other container's children have one.
fn label(text: &[u8], at: Place, kind: Kind) -> Result<Key, Refused>
    requires { at.0 ≤ length text.now }
    ensures { Labels text.now at.0 (kind_told kind) result }
{
    let Kind::Object = kind else {
        return Ok(Key::none(at));
    };
    let Name { from, to, end } = scan::trimmed_ident(text, at);
    if scan::peek(text, end) != b':' {
        return Err(Fault::Syntax.at(end));
    }
    Ok(Key {
        from,
        to,
        due: Place(end.0 + 1),
    })
}

// A child of a container of this kind: an entry, which is key, colon and value, in an object; a value elsewhere. Both by one
// call of `cel_value`: two of them in the cycle would take more stack and time at every level.
#[cycle(cel_value_key_value_list)]
fn key_value(
    text: &[u8],
    table: &mut [u32],
    at: Place,
    node: Node,
    kind: Kind,
    left: usize,
    parent: Parent,
) -> Result<Read, Refused>
    requires { Limited text.now table.old at.0 node.0 left }
    ensures { ChildRead (kind_told kind) text.now table.old table.new at.0 node.0 left parent.0 result }
{
    let key = label(text, at, kind)?;
    cel_value(text, table, Slot { node, key, parent }, left)
}

// The children of the container with this number and its closer, from the place after its opener; and the two words of its
// row that are known then.
#[cycle(cel_value_key_value_list)]
fn list(
    text: &[u8],
    table: &mut [u32],
    at: Place,
    node: Node,
    kind: Kind,
    left: usize,
) -> Result<Read, Refused>
    requires { Limited text.now table.old at.0 (node.0 + 1) left }
    ensures { Listed text.now table.old table.new at.0 node.0 (kind_told kind) left result }
{
    let close = kind.closer();
    let mut from = scan::run_of(text, at, Class::Blank);
    let mut next = Node(node.0 + 1);
    if scan::peek(text, from) == close {
        row::close_row(table, node, 0, next);
        return Ok(Read {
            end: Place(from.0 + 1),
            next,
            depth: 1,
        });
    }
    let parent = row::under(node);
    let mut count = 0;
    let mut depth: usize = 0;
    loop {
        // Not `?`: the form in which a step hands its refusal straight up was asked for (docs/DECISIONS.md).
        let step = key_value(text, table, from, next, kind, left, parent);
        let Ok(read) = step else {
            return step;
        };
        count += 1;
        next = read.next;
        depth = depth.max(read.depth);
        let stop = scan::run_of(text, read.end, Class::Blank);
        let b = scan::peek(text, stop);
        if b == close {
            row::close_row(table, node, count, next);
            return Ok(Read {
                end: Place(stop.0 + 1),
                next,
                depth: depth + 1,
            });
        }
        if b != b',' {
            return Err(Fault::Syntax.at(stop));
        }
        from = Place(stop.0 + 1);
    }
}
