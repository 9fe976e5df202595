// The host's entry: a text is read as a policy and the policy is printed, over tables of its own. One number answers: the printed
// length, or 65,536 plus the refusal. Its contract cites the definitions of `cel_policy`, for every text and every output.
#![tactic(auto)]

ghost use Rattle.std.specs.Prelude.{◌≡◌, length};
ghost use Rattle.cel_policy.specs.Answers.{canonical_answer, canonical_output};

use ast_mapping::SPAN_WORDS;
use parser::{ACCEPTED, NODE_WORDS};

// One number and no Result: it is what C gets, and SPEC.md's.
pub const REFUSED: u32 = 65536;

// Writes the canonical text to the front of `out`, or refuses and leaves `out` as it is.
pub fn canonicalise(text: &[u8], out: &mut [u8]) -> u32
    ensures answer { result ≡ canonical_answer text.now (length out.old) }
    ensures output { out.new ≡ canonical_output text.now out.old }
{
    let mut nodes = [0u32; NODE_WORDS];
    let mut spans = [0u32; SPAN_WORDS];
    // The entries answer numbers, as this one does: a Result would be made only to be taken apart again.
    let read = ast_mapping::read_over(text, &mut nodes, &mut spans);
    let answer = read.answer;
    if answer.refusal != ACCEPTED {
        return REFUSED + answer.refusal;
    }
    let printed = create_cel_expr::print_any(read.policy, text, &spans, out);
    if printed.refusal != ACCEPTED {
        return REFUSED + printed.refusal;
    }
    printed.length
}

// The same for a host in C, under the name that the crate `host_c` exports it by.
pub fn hilladok_canonicalise(text: &[u8], out: &mut [u8]) -> u32
    ensures answer { result ≡ canonical_answer text.now (length out.old) }
    ensures output { out.new ≡ canonical_output text.now out.old }
{
    canonicalise(text, out)
}
