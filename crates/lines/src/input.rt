// Lines of an input. No contract can say what is read; these say that every line lies within its buffer.
ghost use Rattle.std.specs.Prelude.{◌≤◌, ◌≡◌, length, IfSome};
ghost use Rattle.lines.specs.Input.{Inside, brought_front};
ghost use Rattle.lines.specs.Input.{nothing as no_line};

use crate::place::find;
use std::io::Read;

// A line of the input, from `from` up to `to`; how many bytes of the buffer are held, and whether the line was cut because it fills the buffer.
// That it lies within its buffer stays a clause and no invariant: a line does not know its buffer, and `next` takes any (docs/PROMISES.md).
#[derive(Clone, Copy, Debug, PartialEq, Eq)]
pub struct Line {
    pub from: usize,
    pub to: usize,
    pub held: usize,
    pub cut: bool,
}

// Before the first line: no line, and nothing held. `None` under the name that docs/PROMISES.md promises.
pub fn none() -> Option<Line>
    ensures { result ≡ no_line }
{
    None
}

// One read after the bytes held; how many are held then, the same number at the end of the input, which a read that fails counts as.
// Reader and buffer stay two parameters: `next` is promised so, and a struct that holds a `&mut` needs a clause on it in every contract.
// No twin of the read in `replay`, where a read that fails is told and is no end.
fn read_more<R: Read>(reader: &mut R, input: &mut [u8], held: usize) -> usize
    requires { held ≤ length input.old }
    ensures { (held ≤ result) × (result ≤ length input.new) }
{
    match reader.read(&mut input[held..]) {
        Ok(got) => held + got,
        Err(_) => held,
    }
}

// Moves the bytes from `from` up to `to` to the front. All others stay as they are, and so do all where there are no such bytes.
pub fn to_front(buffer: &mut [u8], from: usize, to: usize)
    ensures { buffer.new ≡ brought_front buffer.old from to }
{
    if from <= to && to <= buffer.len() {
        buffer.copy_within(from..to, 0);
    }
}

// All that is held, as a line.
fn whole(held: usize, cut: bool) -> Option<Line>
    ensures { IfSome result (λ line. (line.from ≡ 0) × (line.to ≡ held) × (line.held ≡ held)) }
{
    (0 < held).then_some(Line {
        from: 0,
        to: held,
        held,
        cut,
    })
}

// Reads on until a line is whole, the input ends or the buffer is full; the bytes held have no line end.
fn fill<R: Read>(reader: &mut R, input: &mut [u8], kept: usize) -> Option<Line>
    requires { kept ≤ length input.old }
    ensures { IfSome result (λ line. Inside line (length input.new)) }
{
    let mut held = kept;
    // No range or iterator says how far this goes: what a read brings is not known before.
    while held < input.len() {
        let more = read_more(reader, input, held);
        if more == held {
            return whole(held, false);
        }
        let end = find(input, held, more, b'\n');
        if end < more {
            return Some(Line {
                from: 0,
                to: end,
                held: more,
                cut: false,
            });
        }
        held = more;
    }
    whole(held, true)
}

// The line after one that ends at `to`.
fn following<R: Read>(reader: &mut R, input: &mut [u8], to: usize, held: usize) -> Option<Line>
    requires { (to ≤ held) × (held ≤ length input.old) }
    ensures { IfSome result (λ line. Inside line (length input.new)) }
{
    if to == held {
        return fill(reader, input, 0);
    }
    let from = to + 1;
    let end = find(input, from, held, b'\n');
    if end < held {
        return Some(Line {
            from,
            to: end,
            held,
            cut: false,
        });
    }
    to_front(input, from, held);
    fill(reader, input, held - from)
}

// The line after one that was cut, whose rest is dropped. Nothing says that the input ends, so the turns are counted up to a number that no
// run reaches.
fn after_cut<R: Read>(reader: &mut R, input: &mut [u8]) -> Option<Line>
    ensures { IfSome result (λ line. Inside line (length input.new)) }
{
    for _ in 0..u64::MAX {
        let more = read_more(reader, input, 0);
        if more == 0 {
            return None;
        }
        let end = find(input, 0, more, b'\n');
        if end < more {
            return following(reader, input, end, more);
        }
    }
    None
}

// The line after the last one; a last line that does not lie within the buffer is as none, and nothing is held then. A line that fills the
// buffer is cut, and its rest is passed over. What is read is no value of the program, so this is the one function whose contract cannot say
// its whole answer: it says where the line lies.
pub fn next<R: Read>(reader: &mut R, input: &mut [u8], last: Option<Line>) -> Option<Line>
    ensures { IfSome result (λ line. Inside line (length input.new)) }
{
    match last {
        Some(last) if last.to <= last.held && last.held <= input.len() => {
            if last.cut {
                after_cut(reader, input)
            } else {
                following(reader, input, last.to, last.held)
            }
        }
        _ => fill(reader, input, 0),
    }
}
