// Replays a recorded day: `replay < day.rec`. The records are answered by `recording`; here bytes are moved, from standard input to where `recording`
// looks at them, and from where it writes to standard output.
#![tactic(auto)]

mod window;

ghost use Rattle.std.specs.Prelude.{◌≡◌, ◌↔◌, IsTrue};

use program::Console;
use recording::{Turn, Why};
use std::io;
use std::io::Read;
use window::Held;

// The room for what is held of the input, and for what a turn writes: fixed, since the project uses no heap, however long a recording is.
const ROOM: usize = 65536;

const HELP: &[u8] = b"Usage: replay <RECORDING\n\
      \n\
      Reads the recorded expressions on standard input and writes a line for each: its number, the\n\
      answer (0, or the number of the refusal), none, skip, response or full, the nodes and the depth.\n\
      The last line counts the records and those refused. A record is a length and then that many\n\
      bytes; a length is written in groups of seven bits, the lowest first, 128 added to all bytes but\n\
      the last, in at most three bytes and no more than it needs. Where a length or a record's bytes\n\
      are cut short or wrong, the last line is broken length or broken body. A record of more than\n\
      8192 bytes is skipped, with the answer 2.\n";

// The heading, and then turn after turn, until one is the last. What a turn wrote is written out before more is read, since a read may wait.
// Nothing says that the input ends, so the turns are counted up to a number that no run reaches.
fn replay<R: Read, O: Print, E: Print>(console: &Console<'_, O, E>, reader: &mut R) {
    let mut input = [0u8; ROOM];
    let mut out = [0u8; ROOM];
    let heading = recording::put_heading(&mut out);
    if !console.say(&out[..heading]) {
        return;
    }
    let mut state = recording::start();
    let mut held = Held::default();
    for _ in 0..u64::MAX {
        let turn = recording::advance(state, &input[held.at..held.end], held.ended, &mut out);
        if !console.say(&out[..turn.written]) || is_last(turn) {
            return;
        }
        held = held.following(reader, &mut input, turn);
        if let Some(error) = held.failed {
            if !interrupted(console, &error) {
                return;
            }
        }
        state = turn.state;
    }
}

// Whether a turn is the last. A function, since a clause has to say which: what `replay` writes is no value of the program.
fn is_last(turn: Turn) -> bool
    ensures { IsTrue result ↔ (turn.why ≡ Why.Over) }
{
    turn.why == Why::Over
}

// After a read that failed: whether it was only interrupted. Where it was not, says so.
fn interrupted<O: Print, E: Print>(console: &Console<'_, O, E>, error: &io::Error) -> bool {
    if error.kind() == io::ErrorKind::Interrupted {
        return true;
    }
    program::fail(console.errors, b"replay: cannot read standard input", error);
    false
}

fn main(rt: HostRuntime) {
    let console = Console {
        output: &rt.stdout(),
        errors: &rt.stderr(),
        unwritten: b"replay: cannot write",
        help: HELP,
        misuse: b"replay: takes no argument but --help, and a recording on standard input\n",
    };
    match program::arg_count(&rt) {
        1 => replay(&console, &mut rt.stdin()),
        2 => console.answer_argument(&rt),
        _ => console.misused(),
    }
}
