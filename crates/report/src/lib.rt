// What a text means, for a person to read: the policy in words, or the refusal and the place that it is about. Whatever the text
// holds, a report has line ends and printable ASCII bytes alone, so nothing of the text reaches a terminal but as letters.
#![tactic(auto)]

mod node;
mod policy;
mod refusal;
mod window;
mod words;

ghost use Rattle.pieces.specs.Pieces.{Wrote};
ghost use Rattle.report.specs.Report.{reported};

use ast_mapping::SPAN_WORDS;
use parser::NODE_WORDS;
use policy::Accepted;

// Puts the report on a text at the start of `out`, and answers the place after it. Where there is less room than the report has
// bytes, its end is cut off.
pub fn report(text: &[u8], out: &mut [u8]) -> usize
    ensures { Wrote out.old out.new 0 result (reported text.now) }
{
    let mut nodes = [0u32; NODE_WORDS];
    let mut spans = [0u32; SPAN_WORDS];
    let read = ast_mapping::read_policy(text, &mut nodes, &mut spans);
    let answer = read.answer;
    if answer.refusal != parser::ACCEPTED {
        return refusal::put_refusal(out, 0, answer, text, &nodes);
    }
    let accepted = Accepted {
        policy: read.policy,
        text,
        spans: &spans,
    };
    accepted.put(out, 0, answer)
}
