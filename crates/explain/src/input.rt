// The bytes of a text, from a file or from standard input.
ghost use Rattle.std.specs.Prelude.{suc, ◌≡◌, ◌≤◌, length, IfOk};
ghost use Rattle.cel_text.specs.Answer.{max_text};

use parser::MAX_TEXT;
use std::io;
use std::io::Read;

// The longest text and one byte more, which tells that a text is longer.
pub(crate) const ROOM: usize = MAX_TEXT + 1;

// Reads until the room is full, the input ends or a read fails, and answers how many bytes are held. A text that is too long has to be
// told from its first bytes: the room is for the longest text and one byte more.
pub(crate) fn read_text<R: Read>(reader: &mut R, room: &mut [u8]) -> io::Result<usize>
    requires { suc max_text ≡ length room.old }
    ensures { IfOk result (λ n. n ≤ length room.new) }
{
    let mut held = 0;
    // No range or iterator says how far this goes: what a read brings is not known before.
    while held < room.len() {
        let got = reader.read(&mut room[held..])?;
        if got == 0 {
            break;
        }
        held += got;
    }
    Ok(held)
}
