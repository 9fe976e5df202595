// The lines of a replay. Each function writes from a place of a lent buffer on and answers the place after what it wrote, as `pieces::put` does.
ghost use Rattle.pieces.specs.Pieces.{Wrote};
ghost use Rattle.recording.specs.declared.Ending.TheVariants.{Complete};
ghost use Rattle.recording.specs.Replay.{form_field, number_field, line, last_line};

use crate::{Ending, Reply, State};
use cel_policy::{RESPONSE_ONLY, SKIP};

// The line of record `number`.
pub(crate) fn put_line(out: &mut [u8], at: usize, number: u64, reply: Reply) -> usize
    ensures { Wrote out.old out.new at result (line number reply) }
{
    let end = lines::put_number(out, at, number);
    let end = put_field(out, end, reply.answer);
    let end = put_form(out, end, reply.form);
    let end = put_field(out, end, reply.nodes);
    let end = put_field(out, end, reply.depth);
    pieces::put(out, end, b"\n")
}

// A number after a space.
fn put_field(out: &mut [u8], at: usize, n: u32) -> usize
    ensures { Wrote out.old out.new at result (number_field n) }
{
    let end = pieces::put(out, at, b" ");
    lines::put_number(out, end, u64::from(n))
}

// A form's word after a space.
fn put_form(out: &mut [u8], at: usize, form: u32) -> usize
    ensures { Wrote out.old out.new at result (form_field form) }
{
    match form {
        0 => pieces::put(out, at, b" none"),
        SKIP => pieces::put(out, at, b" skip"),
        RESPONSE_ONLY => pieces::put(out, at, b" response"),
        _ => pieces::put(out, at, b" full"),
    }
}

// The last line.
pub(crate) fn put_last(out: &mut [u8], at: usize, state: State, ending: Ending) -> usize
    ensures { Wrote out.old out.new at result (last_line state.count state.refused ending) }
{
    match ending {
        Ending::Complete => put_counts(out, at, state),
        Ending::BrokenLength => pieces::put(out, at, b"broken length\n"),
        Ending::BrokenBody => pieces::put(out, at, b"broken body\n"),
    }
}

// How many records there were, and how many of them were refused.
fn put_counts(out: &mut [u8], at: usize, state: State) -> usize
    ensures { Wrote out.old out.new at result (last_line state.count state.refused Complete) }
{
    let end = lines::put_number(out, at, state.count);
    let end = pieces::put(out, end, b" records ");
    let end = lines::put_number(out, end, state.refused);
    pieces::put(out, end, b" refused\n")
}
