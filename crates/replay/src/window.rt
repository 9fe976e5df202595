// The bytes held of standard input: they lie in a lent buffer, from a place up to another.
ghost use Rattle.std.specs.Prelude.{◌-◌, ◌≤◌, ◌<◌, length, take, drop};
ghost use Rattle.replay.specs.Window.{Inside, Reads, window_of, Read, Asks, Follows};

use recording::{Turn, Why};
use std::io;

// The bytes not yet used, from `at` up to `end`; whether the input has ended, and why the last read failed, if it did.
#[derive(Clone, Copy, Default)]
pub(crate) struct Held {
    pub at: usize,
    pub end: usize,
    pub ended: bool,
    pub failed: Option<io::Error>,
}

impl Held {
    // What is held for the next turn: where bytes are wanted, those that the last one left and, behind them, what a read brings.
    pub(crate) fn following<R: io::Read>(self, reader: &mut R, input: &mut [u8], turn: Turn) -> Held
        requires { Asks input.old self turn }
        ensures { Follows input.old self turn input.new result }
    {
        let at = self.at + turn.used;
        if turn.why == Why::Wanting {
            return refill(reader, input, at, self.end);
        }
        Held {
            at,
            failed: None,
            ..self
        }
    }
}

// Moves the bytes from `at` up to `end` to the front, and reads on behind them.
fn refill<R: io::Read>(reader: &mut R, input: &mut [u8], at: usize, end: usize) -> Held
    requires { (at ≤ end) × (end ≤ length input.old) × (end - at < length input.old) }
    ensures inside { Inside input.new result }
    ensures reads { Reads (take (end - at) (drop at input.old)) (window_of input.new result) result.ended result.failed }
{
    lines::to_front(input, at, end);
    read_more(reader, input, end - at)
}

// One read behind the bytes kept, for which there is room. At the end of the input it brings nothing; nor does one that fails, but that is no end.
fn read_more<R: io::Read>(reader: &mut R, input: &mut [u8], kept: usize) -> Held
    requires { kept < length input.old }
    ensures { Read kept input.old input.new result }
{
    match reader.read(&mut input[kept..]) {
        Ok(more) => Held {
            at: 0,
            end: kept + more,
            ended: more == 0,
            failed: None,
        },
        Err(error) => Held {
            at: 0,
            end: kept,
            ended: false,
            failed: Some(error),
        },
    }
}
