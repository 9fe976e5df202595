// A page of text for a person, whatever bytes it is about: what is put is escaped where it is not plain, and lines are ended by a page's own
// words alone. Each function writes a piece, as `pieces` has it, and answers the place after it.
// Loops that put piece after piece stay in their functions: the crate `pieces` says why.
#![tactic(auto)]

ghost use Rattle.std.specs.Prelude.{◌≡◌, [], ◌∷◌, ◌++◌, length, replicate};
ghost use Rattle.cel_text.specs.Byte.{bytes};
ghost use Rattle.lines.specs.Texts.{pair};
ghost use Rattle.pieces.specs.Pieces.{Wrote};
ghost use Rattle.page.specs.Page.{shown_byte, said_byte, shown, said};

// A backslash, `x` and the byte in hex.
fn put_hex(out: &mut [u8], at: usize, b: u8) -> usize
    ensures { Wrote out.old out.new at result (bytes "\\x" ++ pair b) }
{
    let end = pieces::put(out, at, b"\\x");
    lines::put_hex(out, end, &[b])
}

fn put_plain(out: &mut [u8], at: usize, b: u8) -> usize
    ensures { Wrote out.old out.new at result (b ∷ []) }
{
    pieces::put(out, at, &[b])
}

// A byte as it is shown.
#[tactic(auto, unfolding(crate::specs::Page::shown_byte))]
fn put_byte(out: &mut [u8], at: usize, b: u8) -> usize
    ensures { Wrote out.old out.new at result (shown_byte b) }
{
    match b {
        b'\t' => pieces::put(out, at, b"\\t"),
        b'\n' => pieces::put(out, at, b"\\n"),
        b'\r' => pieces::put(out, at, b"\\r"),
        b'\\' => pieces::put(out, at, b"\\\\"),
        b' '..=b'~' => put_plain(out, at, b),
        _ => put_hex(out, at, b),
    }
}

// How many columns a byte takes. The cases are those of `put_byte`, whose bytes this one does not write: to count what was put would need room for it.
#[tactic(auto, unfolding(crate::specs::Page::shown_byte, lines::specs::Texts::pair))]
pub fn columns(b: u8) -> usize
    ensures { result ≡ length (shown_byte b) }
{
    match b {
        b'\t' | b'\n' | b'\r' | b'\\' => 2,
        b' '..=b'~' => 1,
        _ => 4,
    }
}

// The bytes of a piece, each as it is shown.
#[tactic(auto, unfolding(crate::specs::Page::shown))]
pub fn put(out: &mut [u8], at: usize, piece: &[u8]) -> usize
    ensures { Wrote out.old out.new at result (shown piece.now) }
{
    let mut end = at;
    for b in piece {
        end = put_byte(out, end, *b);
    }
    end
}

pub fn put_spaces(out: &mut [u8], at: usize, n: usize) -> usize
    ensures { Wrote out.old out.new at result (replicate n 32) }
{
    let mut end = at;
    for _ in 0..n {
        end = put_plain(out, end, b' ');
    }
    end
}

// A byte of a page's own words.
#[tactic(auto, unfolding(crate::specs::Page::said_byte))]
fn say_byte(out: &mut [u8], at: usize, b: u8, n: usize) -> usize
    ensures { Wrote out.old out.new at result (said_byte n b) }
{
    match b {
        b'\n' => pieces::put(out, at, b"\n"),
        b'#' => lines::put_number(out, at, n as u64),
        _ => put_byte(out, at, b),
    }
}

// A page's own words: a line end ends the line, and `#` stands for the number, which is 0 where the words have none.
#[tactic(auto, unfolding(crate::specs::Page::said))]
pub fn say(out: &mut [u8], at: usize, words: &[u8], n: usize) -> usize
    ensures { Wrote out.old out.new at result (said words.now n) }
{
    let mut end = at;
    for b in words {
        end = say_byte(out, end, *b, n);
    }
    end
}
