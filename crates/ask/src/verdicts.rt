// `verdicts`: the line that the judge, the original Rust, writes for a text; and `limit` with the refusal's number where a limit
// puts the text outside what the two are compared on. The numbers of an answer, which are SPEC.md's, are put into words here, each once.
use crate::reply::Reply;
use crate::{fields, room};
use ast_mapping::SPAN_WORDS;
use cel_policy::Policy;
use parser::{ACCEPTED, Answer, MAX_TEXT, NODE_WORDS};

// The judge's name for a refusal, which limits do not have.
fn error(refusal: u32) -> Option<&'static [u8]> {
    Some(match refusal {
        parser::SYNTAX => b"CelSyntaxException",
        parser::UNEXPECTED_NODE_TYPE => b"UnexpectedNodeType",
        parser::UNEXPECTED_NODE_NAME => b"UnexpectedNodeName",
        parser::MISSING_FUNCTION_PARAMETER => b"MissingFunctionParameter",
        parser::MISSING_OBJECT_PROPERTY => b"MissingObjectProperty",
        parser::EXTRANEOUS_VALIDATION_ARGS_PROPERTY => b"ExtraneousValidationArgsProperty",
        parser::MISSING_VALIDATION_ARGS_PROPERTY => b"MissingValidationArgsProperty",
        parser::EXTRANEOUS_REQUEST_CERTIFICATION_PROPERTY =>
            b"ExtraneousRequestCertificationProperty",
        parser::MISSING_REQUEST_CERTIFICATION_PROPERTY => b"MissingRequestCertificationProperty",
        parser::EXTRANEOUS_RESPONSE_CERTIFICATION_PROPERTY =>
            b"ExtraneousResponseCertificationProperty",
        parser::MISSING_RESPONSE_CERTIFICATION_PROPERTY => b"MissingResponseCertificationProperty",
        _ => return None,
    })
}

// What a node is, after a tab; nothing where it has no kind.
fn kind(kind: u32) -> &'static [u8] {
    match kind {
        parser::STRING => b"\tString",
        parser::ARRAY => b"\tArray",
        parser::OBJECT => b"\tObject",
        parser::FUNCTION => b"\tFunction",
        _ => b"",
    }
}

fn form(form: u32) -> &'static [u8] {
    match form {
        cel_policy::SKIP => b"\tSkip",
        cel_policy::RESPONSE_ONLY => b"\tResponseOnly",
        cel_policy::FULL => b"\tFull",
        _ => b"",
    }
}

fn list_kind(kind: u32) -> &'static [u8] {
    match kind {
        0 => b"\tnone",
        cel_policy::INCLUSIONS => b"\tinclusions",
        cel_policy::EXCLUSIONS => b"\texclusions",
        _ => b"",
    }
}

fn put_limit(out: &mut Reply, refusal: u32) {
    out.put(b"limit\t");
    out.put_number(refusal);
}

fn put_refused(out: &mut Reply, answer: Answer) {
    match error(answer.refusal) {
        Some(name) => out.put(name),
        None => put_limit(out, answer.refusal),
    }
    if answer.name != 0 {
        out.put(b"\t");
        out.put_name(answer.name);
    }
    out.put(kind(answer.kind));
}

// A field with the strings from string `first` up to string `last` of the span table, each in double quotes.
fn put_strings(out: &mut Reply, text: &[u8], spans: &[[u32; 2]], first: usize, last: usize) {
    out.put(b"\t");
    for (i, [from, to]) in spans.iter().take(last).skip(first).enumerate() {
        if i > 0 {
            out.put(b",");
        }
        out.put(b"\"");
        out.put(text.get(*from as usize..*to as usize).unwrap_or_default());
        out.put(b"\"");
    }
}

// Policy, text and spans stay three parameters: only two functions take them, and one calls the other.
// An accepted text: its policy, whose three lists stand one after the other in the span table, and the text that printing gives.
fn put_policy(out: &mut Reply, policy: Policy, text: &[u8], spans: &[u32], printed: &[u8]) {
    let (spans, _) = spans.as_chunks::<2>();
    let request = policy.request as usize;
    let query = policy.before_response();
    let response = policy.strings();
    out.put(b"ok");
    out.put(form(policy.form));
    out.put(list_kind(policy.kind));
    put_strings(out, text, spans, 0, request);
    put_strings(out, text, spans, request, query);
    put_strings(out, text, spans, query, response);
    out.put(b"\t");
    out.put(printed);
}

fn put_accepted(out: &mut Reply, policy: Policy, text: &[u8], spans: &[u32]) {
    let mut printed = [0u8; MAX_TEXT];
    let print = create_cel_expr::print_policy(policy, text, spans, &mut printed);
    if print.refusal == ACCEPTED {
        let printed = printed.get(..print.length as usize).unwrap_or_default();
        put_policy(out, policy, text, spans, printed);
    } else {
        put_limit(out, print.refusal);
    }
}

// The judge's line for a text, without its line end.
fn put_verdict(text: &[u8], out: &mut Reply) {
    let mut nodes = [0u32; NODE_WORDS];
    let mut spans = [0u32; SPAN_WORDS];
    let read = ast_mapping::read_policy(text, &mut nodes, &mut spans);
    if read.answer.refusal == ACCEPTED {
        put_accepted(out, read.policy, text, &spans);
    } else {
        put_refused(out, read.answer);
    }
}

// The answer to a text in hex.
pub(crate) fn answer(field: &[u8], out: &mut Reply) -> Option<()> {
    let mut room = room::LENT_BYTES;
    let text = fields::text(field, &mut room)?;
    put_verdict(text, out);
    out.put(b"\n");
    Some(())
}
