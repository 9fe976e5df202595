// What a record is answered with.
ghost use Rattle.std.specs.Prelude.{◌≡◌};
ghost use Rattle.recording.specs.Replay.{reply_to, too_long};

use ast_mapping::SPAN_WORDS;
use parser::{NODE_WORDS, TEXT_TOO_LONG};

// What a line says of a record: its answer, its form, its nodes and its depth, the numbers of SPEC.md.
#[derive(Clone, Copy, Debug, Default, PartialEq, Eq)]
pub(crate) struct Reply {
    pub answer: u32,
    pub form: u32,
    pub nodes: u32,
    pub depth: u32,
}

impl Reply {
    // To a body that is read as a policy. The tables are read over: no word of them is looked at. Two arrays, each lent by itself, their lengths in their types:
    // in a struct of both the compiler no longer sees that no span is ever read, and sets 2,048 bytes to 0 for every record that is refused.
    pub(crate) fn to_body(
        body: &[u8],
        nodes: &mut [u32; NODE_WORDS],
        spans: &mut [u32; SPAN_WORDS],
    ) -> Reply
        ensures { result ≡ reply_to body.now }
    {
        let read = ast_mapping::read_over(body, nodes, spans);
        Reply {
            answer: read.answer.refusal,
            form: read.policy.form,
            nodes: read.answer.nodes,
            depth: read.answer.depth,
        }
    }

    // To a body that is too long, whatever it holds.
    pub(crate) fn too_long() -> Reply
        ensures { result ≡ too_long }
    {
        Reply {
            answer: TEXT_TOO_LONG,
            ..Reply::default()
        }
    }
}
