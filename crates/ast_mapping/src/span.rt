// The span table: start and end of each string of a policy, request headers first, then query parameters, then response headers.
ghost use Rattle.std.specs.Prelude.{◌≡◌, ◌+◌, ◌*◌, ◌≤◌, length, MatchResult};
ghost use Rattle.cel_policy.specs.Policy.{Span, counted, numbers, all_strings};
ghost use Rattle.cel_policy.specs.Mapping.{skipped};
ghost use Rattle.cel_policy.specs.Spans.{spans_left};
ghost use Rattle.parser.specs.Found.{told};
ghost use Rattle.ast_mapping.specs.declared.mapping.Mapped.TheVariants.{ResponseOnly, Full};
ghost use Rattle.ast_mapping.specs.View.{strings_of, Tabled};
ghost use Rattle.ast_mapping.specs.Steps.{refusal_told, SmallNode, list_number, policy_as, mapped_as, MappedIn};
ghost use Rattle.ast_mapping.specs.Spans.{PutList, Put, strings_in, few, spare_from, refused_in, Settled};

use crate::mapping::{ListKind, Mapped, Refusal, Request, Response};
use crate::{PolicyAnswer, SPAN_WORDS};
use cel_policy::{EXCLUSIONS, FULL, INCLUSIONS, Policy, RESPONSE_ONLY, SKIP};
use parser::row::read_row;
use parser::{ACCEPTED, Answer, Node, TABLE_TOO_SHORT};

// Writes the strings of a list, the first as string `from`, and answers the number of the string after them.
// Nodes and a table, and no `TreeNode`: with those in `Response` and `Request` 247 headers took a little over the fifth of the Rust's time that is aimed at.
fn put_list(table: &[u32], list: Node, spans: &mut [u32], from: usize) -> usize
    requires tabled { Tabled table.now list.0 }
    requires list_in_bounds { 2 * (from + length (strings_of table.now list.0)) ≤ length spans.old }
    ensures { PutList table.now list.0 spans.old spans.new from result }
{
    let first = list.0 + 1;
    let count = read_row(table, list).past.0 - first;
    // By index: `as_chunks_mut` says nothing of what the slice ends as.
    for i in 0..count {
        let string = read_row(table, Node(first + i));
        let at = 2 * (from + i);
        spans[at] = string.from.0 as u32;
        spans[at + 1] = string.to.0 as u32;
    }
    from + count
}

// The policy without lists.
fn skip() -> Policy
    ensures { numbers result ≡ counted {A = Span} skipped }
{
    Policy {
        form: SKIP,
        ..Policy::default()
    }
}

impl ListKind {
    // The number that SPEC.md gives it. A method and no `From`: `u32::from(kind)` would not say which number is meant.
    fn number(self) -> u32
        ensures { result ≡ list_number self }
    {
        match self {
            ListKind::Inclusions => INCLUSIONS,
            ListKind::Exclusions => EXCLUSIONS,
        }
    }
}

fn put_response(table: &[u32], response: Response, spans: &mut [u32]) -> Policy
    requires tabled { Tabled table.now response.list.0 }
    requires few { few spans.old (strings_of table.now response.list.0) }
    ensures { Put (policy_as table.now (ResponseOnly response)) spans.old spans.new result }
{
    let count = put_list(table, response.list, spans, 0);
    Policy {
        form: RESPONSE_ONLY,
        kind: response.kind.number(),
        response: count as u32,
        ..Policy::default()
    }
}

fn put_full(table: &[u32], request: Request, response: Response, spans: &mut [u32]) -> Policy
    requires tabled { Tabled table.now request.headers.0 × Tabled table.now request.query.0 × Tabled table.now response.list.0 }
    requires few { few spans.old (all_strings (policy_as table.now (Full request response))) }
    ensures { Put (policy_as table.now (Full request response)) spans.old spans.new result }
{
    let first = put_list(table, request.headers, spans, 0);
    let second = put_list(table, request.query, spans, first);
    let third = put_list(table, response.list, spans, second);
    Policy {
        form: FULL,
        kind: response.kind.number(),
        request: first as u32,
        query: (second - first) as u32,
        response: (third - second) as u32,
    }
}

// The first of the counted words that a read with this refusal has to set to 0: after an accepted policy's strings that is `end`.
// By the refusal's number: a form that was asked for (docs/DECISIONS.md).
pub(crate) fn spare(refusal: u32, end: usize) -> usize
    ensures { result ≡ spare_from (spans_left refusal) end }
{
    match refusal {
        ACCEPTED => end,
        TABLE_TOO_SHORT => SPAN_WORDS,
        _ => 0,
    }
}

// A refusal at a node of the tree, with the tree's nodes and depth.
fn refused_in(tree: Answer, refusal: Refusal) -> Answer
    requires { SmallNode refusal }
    ensures { told result ≡ refused_in (told tree) (refusal_told refusal) }
{
    Answer {
        refusal: refusal.refusal,
        name: refusal.name,
        kind: refusal.kind,
        place: refusal.node.0 as u32,
        ..tree
    }
}

// The strings of a policy are put into the span table.
fn put_policy(table: &[u32], mapped: Mapped, spans: &mut [u32]) -> Policy
    requires mapped_in { MappedIn table.now mapped }
    requires few { few spans.old (all_strings (policy_as table.now mapped)) }
    ensures { Put (policy_as table.now mapped) spans.old spans.new result }
{
    match mapped {
        Mapped::Skip => skip(),
        Mapped::ResponseOnly(response) => put_response(table, response, spans),
        Mapped::Full(request, response) => put_full(table, request, response, spans),
    }
}

// The answer of a tree that was mapped. The strings of a policy are put into the span table.
pub(crate) fn settle(
    table: &[u32],
    mapped: Result<Mapped, Refusal>,
    tree: Answer,
    spans: &mut [u32],
) -> PolicyAnswer
    requires mapped_in { MatchResult mapped (MappedIn table.now) SmallNode }
    requires few { few spans.old (strings_in (mapped_as table.now mapped)) }
    ensures { Settled (mapped_as table.now mapped) tree spans.old spans.new result }
{
    match mapped {
        Ok(policy) => PolicyAnswer {
            answer: tree,
            policy: put_policy(table, policy, spans),
        },
        Err(refusal) => refused_in(tree, refusal).into(),
    }
}
