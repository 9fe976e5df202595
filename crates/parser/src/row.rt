// The rows of the lent table, eight words for each node.
ghost use Rattle.std.specs.Prelude.{◌≡◌, suc, ◌+◌, ◌-◌, ◌*◌, ◌^◌, ◌<◌, ◌≤◌, [], ◌∷◌, ◌++◌, length, take, replicate};
ghost use Rattle.std.proofs.lemmas.List.Edits.{sets};
ghost use Rattle.cel_text.specs.Reading.{max_nodes};
ghost use Rattle.cel_text.specs.Table.{row_words, row_at};
ghost use Rattle.parser.specs.Rows.{row_told};

use crate::value::Slot;
use crate::{Node, Place, ROW_WORDS};

// A parent's word: its number plus 1, 0 where there is none. A word and no Option<Node>: it is what the row holds.
#[derive(Clone, Copy, Debug, Default, PartialEq, Eq)]
pub struct Parent(pub u32);

// A node's row, word by word.
#[derive(Clone, Copy, Debug, Default, PartialEq, Eq)]
pub struct Row {
    pub kind: u32,
    pub from: Place,
    pub to: Place,
    pub keyfrom: Place,
    pub keyto: Place,
    pub parent: Parent,
    pub children: u32,
    pub past: Node,
}

// The row of this node, all 0 where the table has no such whole row.
pub fn read_row(table: &[u32], node: Node) -> Row
    ensures { row_told result ≡ row_at table.now node.0 }
{
    if table.len() / ROW_WORDS <= node.0 {
        return Row::default();
    }
    let at = ROW_WORDS * node.0;
    Row {
        kind: table[at],
        from: Place(table[at + 1] as usize),
        to: Place(table[at + 2] as usize),
        keyfrom: Place(table[at + 3] as usize),
        keyto: Place(table[at + 4] as usize),
        parent: Parent(table[at + 5]),
        children: table[at + 6],
        past: Node(table[at + 7] as usize),
    }
}

// The words that are known where a node opens: kind, name or content, key, parent.
// Word by word: with `copy_from_slice` they would be put together first, and deep texts take a sixth more time.
pub(crate) fn open_row(table: &mut [u32], kind: u32, from: Place, to: Place, slot: Slot)
    requires node_in_bounds { row_words * suc slot.node.0 ≤ length table.old }
    requires from_bound { (from.0 < 2 ^ 32) × (to.0 < 2 ^ 32) × (slot.key.from.0 < 2 ^ 32) × (slot.key.to.0 < 2 ^ 32) }
    ensures { table.new ≡ sets table.old (row_words * slot.node.0) (kind ∷ from.0 ∷ to.0 ∷ slot.key.from.0 ∷ slot.key.to.0 ∷ slot.parent.0 ∷ []) }
{
    let Slot { node, key, parent } = slot;
    let at = ROW_WORDS * node.0;
    table[at] = kind;
    table[at + 1] = from.0 as u32;
    table[at + 2] = to.0 as u32;
    table[at + 3] = key.from.0 as u32;
    table[at + 4] = key.to.0 as u32;
    table[at + 5] = parent.0;
}

// The words that are known where it closes: its children, and the first node after its subtree.
pub(crate) fn close_row(table: &mut [u32], node: Node, children: usize, past: Node)
    requires node_in_bounds { row_words * suc node.0 ≤ length table.old }
    requires children_bound { (children < 2 ^ 32) × (past.0 < 2 ^ 32) }
    ensures { table.new ≡ sets table.old (row_words * node.0 + 6) (children ∷ past.0 ∷ []) }
{
    let at = ROW_WORDS * node.0;
    table[at + 6] = children as u32;
    table[at + 7] = past.0 as u32;
}

// The word of a parent with this number.
pub(crate) fn under(node: Node) -> Parent
    requires { node.0 < max_nodes }
    ensures { result.0 ≡ suc node.0 }
{
    Parent((node.0 + 1) as u32)
}

// Sets every word from `from` on to 0.
pub fn clear(table: &mut [u32], from: usize)
    ensures { table.new ≡ take from table.old ++ replicate (length table.old - from) 0 }
{
    if from < table.len() {
        table[from..].fill(0);
    }
}
