// What the bytes held of a recording tell: one event at a time.
ghost use Rattle.std.specs.Prelude.{◌≡◌, ◌≤◌, Err};
ghost use Rattle.groups.specs.declared.Fault.TheVariants.{Cut};
ghost use Rattle.recording.specs.Window.{event, body_event, length_event, skip_event};

use crate::Ending;
use groups::{Fault, Number};
use parser::MAX_TEXT;

// A whole record: its body lies from a place up to another. A long record, or more of one: how many of the bytes held are used, and how many of the
// rest are to be skipped. The end of a long record, and how many bytes are used. A wish for more bytes. The end of the recording.
#[derive(Clone, Copy, Debug, PartialEq, Eq)]
pub(crate) enum Event {
    Body { from: usize, to: usize },
    Skipping { used: usize, left: usize },
    Skipped { used: usize },
    Wanting,
    Last(Ending),
}

// What the bytes held tell, where `skip` bytes of a record are still to be skipped, and bytes may still come unless the input has ended.
#[tactic(auto, using(crate::proofs::Events::size_fits), unfolding(crate::specs::Window::event))]
pub(crate) fn next_event(held: &[u8], skip: usize, ended: bool) -> Event
    ensures { result ≡ event skip held.now ended }
{
    if skip != 0 {
        return skip_event(skip, held.len(), ended);
    }
    match groups::read_number(held) {
        Ok(number) => body_event(number, held.len(), ended),
        Err(Fault::Cut) => cut_event(held.len(), ended),
        Err(Fault::Padded | Fault::TooMany) => Event::Last(Ending::BrokenLength),
    }
}

// After a length, which took some of the bytes held.
fn body_event(length: Number, held: usize, ended: bool) -> Event
    requires { length.size ≤ held }
    ensures { result ≡ body_event length.value length.size held ended }
{
    let Number { value, size } = length;
    if MAX_TEXT < value {
        Event::Skipping {
            used: size,
            left: value,
        }
    } else if value <= held - size {
        Event::Body {
            from: size,
            to: size + value,
        }
    } else if ended {
        Event::Last(Ending::BrokenBody)
    } else {
        Event::Wanting
    }
}

// Where the bytes held are no whole length.
fn cut_event(held: usize, ended: bool) -> Event
    ensures { result ≡ length_event held ended (Err Cut) }
{
    if !ended {
        Event::Wanting
    } else if held == 0 {
        Event::Last(Ending::Complete)
    } else {
        Event::Last(Ending::BrokenLength)
    }
}

// Inside a record to be skipped.
fn skip_event(skip: usize, held: usize, ended: bool) -> Event
    ensures { result ≡ skip_event skip held ended }
{
    if skip <= held {
        Event::Skipped { used: skip }
    } else if ended {
        Event::Last(Ending::BrokenBody)
    } else if held == 0 {
        Event::Wanting
    } else {
        Event::Skipping {
            used: held,
            left: skip - held,
        }
    }
}
