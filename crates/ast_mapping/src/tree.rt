// A node of a tree whose rows are in the table, and its entries.
ghost use Rattle.ast_mapping.specs.View.{Held, Held-prop};

use crate::name;
use parser::row::{Row, read_row};
use parser::{Node, Place};

// A node, with the text and the table that it is read back from: the table has its row, and those of its subtree.
#[derive(Clone, Copy)]
pub(crate) struct TreeNode<'a> {
    pub text: &'a [u8],
    pub table: &'a [u32],
    pub number: Node,
    ghost held: { Held table.now text.now number.0 } by { Held-prop table.now text.now number.0 },
}

impl<'a> TreeNode<'a> {
    ghost use Rattle.std.specs.Prelude.{◌≡◌, ◌≤◌, length};
    ghost use Rattle.std.proofs.Math.Seq.{slice};
    ghost use Rattle.ast_mapping.specs.View.{RowRead};
    ghost use Rattle.ast_mapping.specs.Steps.{Looked};

    // Its row.
    pub(crate) fn row(&self) -> Row
        ensures { RowRead self.now.table.now self.now.number.0 result }
    {
        read_row(self.table, self.number)
    }

    // The bytes between two places of the text.
    pub(crate) fn part(&self, from: Place, to: Place) -> &'a [u8]
        requires { (from.0 ≤ to.0) × (to.0 ≤ length self.now.text.now) }
        ensures { result.now ≡ slice from.0 to.0 self.now.text.now }
    {
        &self.text[from.0..to.0]
    }

    // The last child of this object whose key is this name: it takes the place of what was found before. Inlined, so that the name is known.
    #[inline(always)]
    pub(crate) fn lookup(&self, name: u32) -> Option<TreeNode<'a>>
        ensures { Looked self.now name result }
    {
        let text = self.text;
        let table = self.table;
        let end = self.row().past;
        let mut next = Node(self.number.0 + 1);
        let mut found = None;
        // No `for`: the next child stands after this one's subtree, where its row says.
        while next.0 < end.0 {
            let child = TreeNode {
                text,
                table,
                number: next,
            };
            let row = child.row();
            next = row.past;
            if name::is_name(child.part(row.keyfrom, row.keyto), name) {
                found = Some(child);
            }
        }
        found
    }
}
