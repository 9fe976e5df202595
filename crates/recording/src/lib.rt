// Replaying a recording that arrives in pieces. `advance` answers the records that lie in the bytes held, and says how far it came, what it wrote
// and why it stopped. It reads no input and writes no output: a program moves the bytes. Definitions in specs/, what is true of them in proofs/Laws/.
#![tactic(auto)]

mod line;
mod reply;
mod window;

ghost use Rattle.std.specs.Prelude.{◌≡◌, ◌+◌, ◌≤◌, length};
ghost use Rattle.pieces.specs.Pieces.{Wrote};
ghost use Rattle.recording.specs.Replay.{heading};
ghost use Rattle.recording.specs.Window.{with_reply};
ghost use Rattle.recording.specs.Turn.{beginning, max_count, countable, turned, turn_of};
ghost use Rattle.recording.specs.Steps.{Counts, Answered, Stepped, Drained};

use ast_mapping::SPAN_WORDS;
use parser::{ACCEPTED, NODE_WORDS};
use reply::Reply;
use window::Event;

// How a recording ends: between two records, or in a fault.
#[derive(Clone, Copy, Debug, PartialEq, Eq)]
pub(crate) enum Ending {
    Complete,
    BrokenLength,
    BrokenBody,
}

// Where a run stands: the records that have their lines, those of them that were refused, and the bytes still to be skipped of a long record.
#[derive(Clone, Copy, Debug, Default, PartialEq, Eq)]
pub struct State {
    pub count: u64,
    pub refused: u64,
    pub skip: usize,
}

// Why a turn stopped: it wants more bytes; the output has no room for another line; the last line is written.
#[derive(Clone, Copy, Debug, PartialEq, Eq)]
pub enum Why {
    Wanting,
    Full,
    Over,
}

// A turn: where the run stands then, how many of the bytes held are used, how many bytes are written, and why it stopped.
#[derive(Clone, Copy, Debug, PartialEq, Eq)]
pub struct Turn {
    pub state: State,
    pub used: usize,
    pub written: usize,
    pub why: Why,
}

// Room for any line.
const LINE_ROOM: usize = 64;

// Before the first record: `State::default()`, under the name that docs/PROMISES.md promises.
pub fn start() -> State
    ensures { result ≡ beginning }
{
    State::default()
}

// Writes the heading, and answers its length.
pub fn put_heading(out: &mut [u8]) -> usize
    ensures { Wrote out.old out.new 0 result heading }
{
    pieces::put(out, 0, b"record answer kind nodes depth\n")
}

// Answers the records that lie in the bytes held, a line for each at the front of `out`, as long as there is room for a line. `ended` says that no
// bytes come after those held. From a state that counts so far that a record more might not be counted in 64 bits, nothing is written, and that is all.
pub fn advance(state: State, held: &[u8], ended: bool, out: &mut [u8]) -> Turn
    ensures answer { result ≡ turn_of (turned state held.now ended (length out.old)) }
    ensures output { Wrote out.old out.new 0 result.written (turned state held.now ended (length out.old)).wrote }
{
    if !state.countable(held.len()) {
        return Turn {
            state,
            used: 0,
            written: 0,
            why: Why::Over,
        };
    }
    drain(state, held, ended, out)
}

// One step after the other, until one stops the turn or there is no room for a line. `Full` is also that of a turn that goes on, as in the
// definition: it stops for want of room unless a step says otherwise. No `for`: how much room a step takes is known only after it.
fn drain(state: State, held: &[u8], ended: bool, out: &mut [u8]) -> Turn
    requires { Counts state 0 (length held.now) }
    ensures { Drained state held.now ended out.old out.new result }
{
    let mut nodes = [0; NODE_WORDS];
    let mut spans = [0; SPAN_WORDS];
    let mut turn = Turn {
        state,
        used: 0,
        written: 0,
        why: Why::Full,
    };
    while LINE_ROOM <= out.len() - turn.written {
        turn = turn.step(&held[turn.used..], ended, out, &mut nodes, &mut spans);
        if turn.why != Why::Full {
            return turn;
        }
    }
    turn
}

impl State {
    // Whether so many more can be counted.
    fn countable(self, more: usize) -> bool
        ensures { result ≡ countable self more }
    {
        let left = u64::MAX - more as u64;
        self.count <= left && self.refused <= left
    }

    // One record more.
    fn counting(self, reply: Reply) -> State
        requires { Counts self 0 1 }
        ensures { result ≡ with_reply self reply }
    {
        State {
            count: self.count + 1,
            refused: self.refused + u64::from(reply.answer != ACCEPTED),
            skip: 0,
        }
    }
}

impl Turn {
    // One event of the bytes not yet used.
    fn step(
        self,
        rest: &[u8],
        ended: bool,
        out: &mut [u8],
        nodes: &mut [u32; NODE_WORDS],
        spans: &mut [u32; SPAN_WORDS],
    ) -> Turn
        requires { Counts self.state self.used (length rest.now) }
        ensures { Stepped self rest.now ended out.old out.new result }
    {
        match window::next_event(rest, self.state.skip, ended) {
            Event::Body { from, to } => self.answered(
                to,
                Reply::to_body(&rest[from..to], nodes, spans),
                out,
            ),
            Event::Skipping { used, left } => Turn {
                state: State {
                    skip: left,
                    ..self.state
                },
                used: self.used + used,
                why: Why::Full,
                ..self
            },
            Event::Skipped { used } => self.answered(used, Reply::too_long(), out),
            Event::Wanting => Turn {
                why: Why::Wanting,
                ..self
            },
            Event::Last(ending) => Turn {
                written: line::put_last(out, self.written, self.state, ending),
                why: Why::Over,
                ..self
            },
        }
    }

    // After a record's line.
    fn answered(self, to: usize, reply: Reply, out: &mut [u8]) -> Turn
        requires counts { Counts self.state 0 1 }
        requires to_bound { self.used + to ≤ max_count }
        ensures { Answered self to reply out.old out.new result }
    {
        Turn {
            state: self.state.counting(reply),
            used: self.used + to,
            written: line::put_line(out, self.written, self.state.count, reply),
            why: Why::Full,
        }
    }
}
