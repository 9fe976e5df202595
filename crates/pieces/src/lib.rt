// Pieces of output: each is written from a place of a lent buffer on, and the place after it is answered. What the programs print is made of these.
// The buffer and the place stay two parameters: a struct that holds the `&mut [u8]` needs a clause on its ghost name in every contract, so it is no plainer.
// Loops that put piece after piece stay in their functions: one over a closure would need clauses on what the closure writes, at each use.
#![tactic(auto)]

ghost use Rattle.std.specs.Prelude.{◌+◌, ◌≤◌, ◌<◌, length};
ghost use Rattle.pieces.specs.Pieces.{Wrote};

// Writes the piece from place `at` on, and answers the place after it. Of a piece that has not room enough the first bytes are written; from a
// place past the buffer's end on nothing is.
pub fn put(out: &mut [u8], at: usize, piece: &[u8]) -> usize
    ensures { Wrote out.old out.new at result piece.now }
{
    if out.len() < at {
        return at;
    }
    if out.len() - at < piece.len() {
        return put_first(out, at, piece);
    }
    let end = at + piece.len();
    out[at..end].copy_from_slice(piece);
    end
}

// The bytes of the piece for which there is room.
fn put_first(out: &mut [u8], at: usize, piece: &[u8]) -> usize
    requires { (at ≤ length out.old) × (length out.old < at + length piece.now) }
    ensures { Wrote out.old out.new at result piece.now }
{
    let room = out.len() - at;
    out[at..].copy_from_slice(&piece[..room]);
    at + room
}
