// Reading a policy: the port of ast_mapping.rs. `read_policy` reads the tree of a text, maps it to a policy or a refusal, and leaves
// the tree's rows and the policy's strings in two lent tables; `read_over` leaves the words after them as they are. Both contracts cite the
// definitions of `cel_policy`, for every text and both lengths, and ask nothing of the caller.
#![tactic(auto)]

mod mapping;
pub mod name;
mod span;
mod tree;

ghost use Rattle.std.specs.Prelude.{◌≡◌, length};
ghost use Rattle.cel_policy.specs.Policy.{no_policy};
ghost use Rattle.cel_policy.specs.Spans.{span_words};
ghost use Rattle.cel_policy.specs.Answers.{unread, policy_answered, policy_answer, policy_nodes, policy_spans, policy_nodes_over, policy_spans_over};
ghost use Rattle.parser.specs.Found.{told};
ghost use Rattle.ast_mapping.specs.View.{Held};
ghost use Rattle.ast_mapping.specs.Spans.{policy_told, TreeMapped};

use cel_policy::Policy;
use parser::{ACCEPTED, Answer};

// The answer of reading a policy: the tree's six numbers, and the policy's five.
#[derive(Clone, Copy)]
pub struct PolicyAnswer {
    pub answer: Answer,
    pub policy: Policy,
}

// The words of the span table that count: fixed and lent, as the node table is (no heap).
pub const SPAN_WORDS: usize = 512;

// An answer of reading a tree that stands for itself.
impl From<Answer> for PolicyAnswer {
    ghost from_gives = { λ answer r. policy_told r ≡ record { answer = told answer; policy = no_policy } };

    fn from(answer: Answer) -> PolicyAnswer {
        PolicyAnswer {
            answer,
            policy: Policy::default(),
        }
    }
}

// Reads the text and maps its tree. Where a table is too short neither is touched; of longer ones the first 2,048 and 512 words count,
// and those after the rows and after the strings are 0.
pub fn read_policy(text: &[u8], nodes: &mut [u32], spans: &mut [u32]) -> PolicyAnswer
    ensures answer { policy_told result ≡ policy_answer (length nodes.old) (length spans.old) text.now }
    ensures nodes { nodes.new ≡ policy_nodes text.now nodes.old spans.old }
    ensures spans { spans.new ≡ policy_spans text.now nodes.old spans.old }
{
    if spans.len() < SPAN_WORDS {
        return too_short();
    }
    let tree = parser::read_tree(text, nodes);
    let read = map_tree(text, tree, nodes, &mut spans[..SPAN_WORDS]);
    let end = 2 * read.policy.strings();
    parser::row::clear(
        &mut spans[..SPAN_WORDS],
        span::spare(read.answer.refusal, end),
    );
    read
}

// The same, but the words after an accepted tree's rows and after the strings of an accepted policy stay as lent.
// Two functions: one over a reader that is passed in would state that reader's contract again, and choose between the two ends.
pub fn read_over(text: &[u8], nodes: &mut [u32], spans: &mut [u32]) -> PolicyAnswer
    ensures answer { policy_told result ≡ policy_answer (length nodes.old) (length spans.old) text.now }
    ensures nodes { nodes.new ≡ policy_nodes_over text.now nodes.old spans.old }
    ensures spans { spans.new ≡ policy_spans_over text.now nodes.old spans.old }
{
    if spans.len() < SPAN_WORDS {
        return too_short();
    }
    let tree = parser::read_over(text, nodes);
    let read = map_tree(text, tree, nodes, &mut spans[..SPAN_WORDS]);
    parser::row::clear(
        &mut spans[..SPAN_WORDS],
        span::spare(read.answer.refusal, SPAN_WORDS),
    );
    read
}

// From the tree's answer and its rows to the policy, whose strings are put into the counted words of the span table.
fn map_tree(text: &[u8], tree: Answer, nodes: &[u32], spans: &mut [u32]) -> PolicyAnswer
    requires held { tree.refusal ≡ 0 → Held nodes.now text.now 0 }
    requires spans_len { length spans.old ≡ span_words }
    ensures { TreeMapped text.now tree nodes.now spans.old spans.new result }
{
    if tree.refusal != ACCEPTED {
        return tree.into();
    }
    let mapped = mapping::map_cel_ast(text, nodes);
    span::settle(nodes, mapped, tree, spans)
}

// A refusal of 1: nothing was read.
fn too_short() -> PolicyAnswer
    ensures { policy_told result ≡ policy_answered (unread 1 0) }
{
    parser::too_short().into()
}
