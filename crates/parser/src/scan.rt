// Bytes of the text, one at a time and by runs of a class.
ghost use Rattle.std.specs.Prelude.{◌≡◌, ℕ, ◌<◌, ◌≤◌, length, slice_index};
ghost use Rattle.cel_text.specs.Byte.{blank, ident_byte, ascii};
ghost use Rattle.parser.specs.Set.{string_set};
ghost use Rattle.parser.specs.Run.{class_of, end_of, Spaces, NamedAt, letter, digit};

use crate::Place;

// Eight spaces as one number.
const EIGHT_SPACES: u64 = 0x2020202020202020;

// The classes of bytes that runs are made of. An enum and no closure: `run_of` is public and promised (docs/PROMISES.md).
#[derive(Clone, Copy, Debug, PartialEq, Eq)]
pub enum Class {
    Blank,
    Ident,
    StringByte,
    Ascii,
}

// A run of blanks, an identifier and a run of blanks: the identifier's ends and the place after them all.
#[derive(Clone, Copy)]
pub(crate) struct Name {
    pub from: Place,
    pub to: Place,
    pub end: Place,
}

// The byte at a place, 0 past the end. A byte and no Option: no byte that reading looks for is 0, and one comparison serves for both.
pub(crate) fn peek(text: &[u8], at: Place) -> u8
    ensures { result ≡ slice_index text.now at.0 }
{
    let i = at.0;
    if i < text.len() { text[i] } else { 0 }
}

// The end of the run of bytes of this class that begins here.
pub fn run_of(text: &[u8], at: Place, class: Class) -> Place
    ensures { result.0 ≡ end_of (class_of class) text.now at.0 }
{
    match class {
        Class::Blank => blanks(text, at),
        _ => run(text, at, class),
    }
}

// The same for blanks. At most places there is none, and the byte there is greater than all of them.
fn blanks(text: &[u8], at: Place) -> Place
    ensures { result.0 ≡ end_of blank text.now at.0 }
{
    if b' ' < peek(text, at) {
        return at;
    }
    blank_run(text, at)
}

// Blank by blank. No `for`: a turn passes a blank and the spaces after it, many in a row and eight at a time.
fn blank_run(text: &[u8], at: Place) -> Place
    ensures { result.0 ≡ end_of blank text.now at.0 }
{
    let mut end = at;
    while is_blank(peek(text, end)) {
        end = spaces(text, Place(end.0 + 1));
    }
    end
}

// A place up to which there are spaces, as far on as whole eights of bytes tell.
fn spaces(text: &[u8], at: Place) -> Place
    requires { at.0 ≤ length text.now }
    ensures { Spaces text.now at.0 result.0 }
{
    let (eights, _) = text[at.0..].as_chunks::<8>();
    for (i, eight) in eights.iter().enumerate() {
        let n = spaces_of_eight(eight);
        if n < 8 {
            return Place(at.0 + 8 * i + n as usize);
        }
    }
    Place(at.0 + 8 * eights.len())
}

// So many of eight bytes, the first ones, are spaces: with eight spaces taken off, as many bytes are 0.
fn spaces_of_eight(eight: &[u8; 8]) -> u32
    ensures { Spaces eight.now 0 result × (result ≤ 8) }
{
    let rest = u64::from_le_bytes(*eight).wrapping_sub(EIGHT_SPACES);
    rest.trailing_zeros() / 8
}

// The end of a run of the other classes, byte by byte.
fn run(text: &[u8], at: Place, class: Class) -> Place
    ensures { result.0 ≡ end_of (class_of class) text.now at.0 }
{
    for i in at.0..text.len() {
        if !has(class, text[i]) {
            return Place(i);
        }
    }
    Place(at.0.max(text.len()))
}

// The place of the first byte of 128 or more, or the text's length. Nearly every text has none, and the loop that finds the
// greatest byte has no early exit, so that it can be vectorised.
pub(crate) fn ascii_end(text: &[u8]) -> Place
    ensures { result.0 ≡ end_of ascii text.now 0 }
{
    if has(Class::Ascii, greatest(text)) {
        return Place(text.len());
    }
    run_of(text, Place(0), Class::Ascii)
}

// A byte that none of the text's is greater than.
fn greatest(text: &[u8]) -> u8
    ensures { (k : ℕ) → k < length text.now → slice_index text.now k ≤ result }
{
    text.iter().copied().max().unwrap_or(0)
}

// An identifier and the blanks around it. Inlined where a value and a key begin: a call hands its three places on in memory, and each value waits for them.
#[inline(always)]
pub(crate) fn trimmed_ident(text: &[u8], at: Place) -> Name
    ensures { NamedAt text.now at.0 result.from.0 result.to.0 result.end.0 }
{
    let from = run_of(text, at, Class::Blank);
    let to = run_of(text, from, Class::Ident);
    let end = run_of(text, to, Class::Blank);
    Name { from, to, end }
}

fn has(class: Class, b: u8) -> bool
    ensures { result ≡ class_of class b }
{
    match class {
        Class::Blank => is_blank(b),
        Class::Ident => is_ident(b),
        Class::StringByte => is_string_byte(b),
        Class::Ascii => b < 128,
    }
}

#[tactic(auto, unfolding(cel_text::specs::Byte::blank))]
fn is_blank(b: u8) -> bool
    ensures { result ≡ blank b }
{
    b == b' ' || b == b'\t' || b == b'\n' || b == b'\r'
}

// Early returns, here and in the three below: with `||`, `matches!` or std's classes letters are looked for last, and reading takes a quarter more time.
fn is_ident(b: u8) -> bool
    ensures { result ≡ ident_byte b }
{
    if is_letter(b) {
        return true;
    }
    if is_digit(b) {
        return true;
    }
    b == b'_'
}

fn is_string_byte(b: u8) -> bool
    ensures { result ≡ string_set b }
{
    if is_letter(b) {
        return true;
    }
    if is_digit(b) {
        return true;
    }
    b == b'-'
}

// A capital and its small letter differ in bit 5 alone.
fn is_letter(b: u8) -> bool
    ensures { result ≡ letter b }
{
    let small = b | 32;
    if small < b'a' {
        return false;
    }
    small <= b'z'
}

fn is_digit(b: u8) -> bool
    ensures { result ≡ digit b }
{
    if b < b'0' {
        return false;
    }
    b <= b'9'
}
