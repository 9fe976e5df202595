// The text, piece by piece. Each function writes from a place on and answers the place after what it wrote.
ghost use Rattle.std.specs.Prelude.{◌+◌, ◌<◌, ◌≤◌, ◌++◌};
ghost use Rattle.cel_policy.specs.Printed.{list_text, list_key, request_text, response_text, skip_text, response_only_text, full_text, printed};
ghost use Rattle.pieces.specs.Pieces.{Wrote, Fits};
ghost use Rattle.create_cel_expr.specs.Given.{count_of, string_of, strings_of, policy_of};

use crate::checked::Checked;
use cel_policy::{EXCLUSIONS, RESPONSE_ONLY, SKIP};

// A piece for which there is room. `pieces::put` has no such condition and would keep every literal in memory, to write its first bytes.
fn put(out: &mut [u8], at: usize, piece: &[u8]) -> usize
    requires { Fits out.old at piece.now }
    ensures { Wrote out.old out.new at result piece.now }
{
    let end = at + piece.len();
    out[at..end].copy_from_slice(piece);
    end
}

// String i, after what stands before it in its list.
#[tactic(auto, using(crate::proofs::Writing::writing))]
fn string(out: &mut [u8], at: usize, before: &[u8], given: &Checked, i: usize) -> usize
    requires within { i < count_of given.now }
    requires fits { Fits out.old at (before.now ++ string_of given.now i) }
    ensures { Wrote out.old out.new at result (before.now ++ string_of given.now i) }
{
    let past = put(out, at, before);
    put(out, past, given.string(i))
}

// The strings from string `begin` on, `count` of them.
fn list(out: &mut [u8], at: usize, given: &Checked, begin: usize, count: usize) -> usize
    requires within { begin + count ≤ count_of given.now }
    requires fits { Fits out.old at (list_text (strings_of given.now count begin)) }
    ensures { Wrote out.old out.new at result (list_text (strings_of given.now count begin)) }
{
    if count == 0 {
        return at;
    }
    let mut past = string(out, at, b"\"", given, begin);
    for i in 1..count {
        past = string(out, past, b"\",\"", given, begin + i);
    }
    put(out, past, b"\"")
}

// The request part, which only Full has.
#[tactic(auto, using(crate::proofs::Writing::writing), unfolding(cel_policy::specs::Printed::request_text))]
fn create_request_cel_expr(out: &mut [u8], at: usize, given: &Checked) -> usize
    requires { Fits out.old at (request_text (policy_of given.now)) }
    ensures { Wrote out.old out.new at result (request_text (policy_of given.now)) }
{
    let request = given.policy.request as usize;
    let query = given.policy.query as usize;
    let opened = put(
        out,
        at,
        b"request_certification:RequestCertification{certified_request_headers:[",
    );
    let headers = list(out, opened, given, 0, request);
    let between = put(out, headers, b"],certified_query_parameters:[");
    let parameters = list(out, between, given, request, query);
    put(out, parameters, b"]},")
}

// The key of the response list.
fn list_key(out: &mut [u8], at: usize, kind: u32) -> usize
    requires { Fits out.old at (list_key kind) }
    ensures { Wrote out.old out.new at result (list_key kind) }
{
    match kind {
        EXCLUSIONS => put(out, at, b"response_header_exclusions"),
        _ => put(out, at, b"certified_response_headers"),
    }
}

// The response part.
#[tactic(auto, using(crate::proofs::Writing::writing), unfolding(cel_policy::specs::Printed::response_text))]
fn create_response_cel_expr(out: &mut [u8], at: usize, given: &Checked) -> usize
    requires { Fits out.old at (response_text (policy_of given.now)) }
    ensures { Wrote out.old out.new at result (response_text (policy_of given.now)) }
{
    let begin = given.policy.before_response();
    let opened = put(out, at, b"response_certification:ResponseCertification{");
    let keyed = list_key(out, opened, given.policy.kind);
    let listed = put(out, keyed, b":ResponseHeaderList{headers:[");
    let headers = list(out, listed, given, begin, given.policy.response as usize);
    put(out, headers, b"]}}")
}

#[tactic(auto, unfolding(cel_policy::specs::Printed::skip_text))]
fn create_default_skip_cel_expr(out: &mut [u8]) -> usize
    requires { Fits out.old 0 skip_text }
    ensures { Wrote out.old out.new 0 result skip_text }
{
    put(
        out,
        0,
        b"default_certification(ValidationArgs{no_certification:Empty{}})",
    )
}

#[tactic(auto, using(crate::proofs::Writing::writing), unfolding(cel_policy::specs::Printed::response_only_text))]
fn create_default_response_only_cel_expr(out: &mut [u8], given: &Checked) -> usize
    requires { Fits out.old 0 (response_only_text (policy_of given.now)) }
    ensures { Wrote out.old out.new 0 result (response_only_text (policy_of given.now)) }
{
    let opened = put(
        out,
        0,
        b"default_certification(ValidationArgs{certification:Certification{no_request_certification:Empty{},",
    );
    let response = create_response_cel_expr(out, opened, given);
    put(out, response, b"}})")
}

#[tactic(auto, using(crate::proofs::Writing::writing), unfolding(cel_policy::specs::Printed::full_text))]
fn create_default_full_cel_expr(out: &mut [u8], given: &Checked) -> usize
    requires { Fits out.old 0 (full_text (policy_of given.now)) }
    ensures { Wrote out.old out.new 0 result (full_text (policy_of given.now)) }
{
    let opened = put(
        out,
        0,
        b"default_certification(ValidationArgs{certification:Certification{",
    );
    let request = create_request_cel_expr(out, opened, given);
    let response = create_response_cel_expr(out, request, given);
    put(out, response, b"}})")
}

// The whole text.
#[tactic(auto, using(crate::proofs::Writing::writing), unfolding(cel_policy::specs::Printed::printed))]
pub(crate) fn create_cel_expr(out: &mut [u8], given: &Checked) -> usize
    requires { Fits out.old 0 (printed (policy_of given.now)) }
    ensures { Wrote out.old out.new 0 result (printed (policy_of given.now)) }
{
    match given.policy.form {
        SKIP => create_default_skip_cel_expr(out),
        RESPONSE_ONLY => create_default_response_only_cel_expr(out, given),
        _ => create_default_full_cel_expr(out, given),
    }
}
