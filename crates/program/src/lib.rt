// What the programs share: how many arguments there are, what a program says of itself, and what is said where the system refuses something.
#![tactic(auto)]

ghost use Rattle.std.specs.Prelude.{◌≤◌};

use std::env::{Env, FillError};
use std::io;
use std::io::Write;

// Whether there is an argument with this number, the program's name being argument 0.
fn has_argument(rt: &impl Env, number: usize) -> bool {
    let mut room = [0u8; 16];
    !matches!(rt.arg(number, &mut room), Err(FillError::NotPresent))
}

// How many arguments there are, the program's name among them; 3 where there are more.
pub fn arg_count(rt: &impl Env) -> usize
    ensures { result ≤ 3 }
{
    (0..3)
        .take_while(|number| has_argument(rt, *number))
        .count()
}

// The room for the words of an error; what has no room is left out. Fixed, since the project uses no heap.
const ROOM: usize = 128;

// Writes a line to standard error: what failed, as the caller names it, a colon and the system's words for it, without the error's number,
// which std puts in parentheses after them.
pub fn fail(errors: &impl Print, what: &[u8], error: &io::Error) {
    let mut words = [0; ROOM];
    let mut rest = &mut words[..];
    let _ = Write::write_fmt(&mut rest, format_args!("{error}"));
    let written = ROOM.saturating_sub(rest.len());
    let words = &words[..written];
    let end = words
        .iter()
        .position(|b| *b == b'(')
        .map_or(words.len(), |number| number.saturating_sub(1));
    let _ = errors.write_all(what);
    let _ = errors.write_all(b": ");
    let _ = errors.write_all(&words[..end]);
    let _ = errors.write_all(b"\n");
}

// Where a program writes, and what it says of itself: what failed where it cannot write, its help, and what it takes. What it writes is no value of the
// program, so its methods have no clauses.
#[derive(Clone, Copy)]
pub struct Console<'a, O: Print, E: Print> {
    pub output: &'a O,
    pub errors: &'a E,
    pub unwritten: &'a [u8],
    pub help: &'a [u8],
    pub misuse: &'a [u8],
}

impl<O: Print, E: Print> Console<'_, O, E> {
    // Writes to standard output; where that fails, says so and answers false. A bool: the error is told here, and the caller only stops.
    pub fn say(&self, text: &[u8]) -> bool {
        match self.output.write_all(text) {
            Ok(()) => true,
            Err(error) => {
                fail(self.errors, self.unwritten, &error);
                false
            }
        }
    }

    // Says what the program takes.
    pub fn misused(&self) {
        let _ = self.errors.write_all(self.misuse);
    }

    // Answers the one argument: `--help` gets the help, any other what the program takes.
    pub fn answer_argument(&self, rt: &impl Env) {
        let mut argument = [0u8; 4096];
        match rt.arg(1, &mut argument) {
            Ok(n) if argument[..n] == b"--help"[..] => {
                self.say(self.help);
            }
            _ => self.misused(),
        }
    }
}
