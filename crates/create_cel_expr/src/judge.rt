// What a policy is refused for before its text is measured: 20 to 22, each judged over all strings before the next.
ghost use Rattle.std.specs.Prelude.{◌≡◌, ◌<◌, ◌≤◌, IfOk};
ghost use Rattle.cel_policy.specs.Policy.{numbers};
ghost use Rattle.cel_policy.specs.Printed.{shaped, max_response_only};
ghost use Rattle.cel_policy.specs.Answers.{span_fits, bytes_fit, any_byte, first_fault, clean, unless_faulty, judgement};
ghost use Rattle.parser.specs.Set.{string_set};
ghost use Rattle.create_cel_expr.specs.Given.{count_of, IsOf};
ghost use Rattle.create_cel_expr.specs.Judged.{judged_as};

use crate::checked::Checked;
use crate::refusal::Refusal;
use crate::span;
use cel_policy::{EXCLUSIONS, FULL, INCLUSIONS, Policy, RESPONSE_ONLY, SKIP};
use parser::scan::Class;
use parser::{Place, scan};

const MAX_RESPONSE_ONLY: usize = 249;

const MAX_FULL: usize = 247;

// Whether form, list kind and counts go together.
#[tactic(auto, unfolding(cel_policy::specs::Printed::shaped))]
fn shape(policy: Policy) -> bool
    ensures { result ≡ shaped (numbers policy) }
{
    let count = policy.strings();
    let listed = policy.kind == INCLUSIONS || policy.kind == EXCLUSIONS;
    match policy.form {
        SKIP => policy.kind == 0 && count == 0,
        RESPONSE_ONLY => listed && policy.before_response() == 0 && count <= MAX_RESPONSE_ONLY,
        FULL => listed && count <= MAX_FULL,
        _ => false,
    }
}

// Whether string i's span is in its table, ordered and inside the text.
#[tactic(auto, unfolding(cel_policy::specs::Answers::span_fits))]
fn inside(text: &[u8], spans: &[u32], i: usize) -> bool
    ensures { result ≡ span_fits spans.now text.now i }
{
    if spans.len() / 2 <= i {
        return false;
    }
    let span = span::of(spans, i);
    span.start <= span.end && span.end <= text.len()
}

// 21: the first string whose span is not.
#[tactic(auto, using(crate::proofs::Faults::search_on))]
fn all_inside(text: &[u8], spans: &[u32], count: usize) -> Result<(), Refusal>
    requires { count ≤ max_response_only }
    ensures { judged_as result ≡ unless_faulty 21 (first_fault (span_fits spans.now text.now) count 0) clean }
{
    for i in 0..count {
        if !inside(text, spans, i) {
            return Err(Refusal::SpanOutside(i as u32));
        }
    }
    Ok(())
}

// Whether string i has string bytes only.
#[tactic(auto, using(crate::proofs::Faults::run_all), unfolding(cel_policy::specs::Answers::bytes_fit))]
fn plain(given: &Checked, i: usize) -> bool
    requires { i < count_of given.now }
    ensures { result ≡ bytes_fit string_set given.now.spans.now given.now.text.now i }
{
    let string = given.string(i);
    let end = scan::run_of(string, Place(0), Class::StringByte);
    end.0 == string.len()
}

// 22: the first string that has another byte. One loop for both would need clauses on what a closure asks and answers.
#[tactic(auto, using(crate::proofs::Faults::search_on))]
fn all_plain(given: &Checked) -> Result<(), Refusal>
    ensures { judged_as result ≡ unless_faulty 22 (first_fault (bytes_fit string_set given.now.spans.now given.now.text.now) (count_of given.now) 0) clean }
{
    for i in 0..given.policy.strings() {
        if !plain(given, i) {
            return Err(Refusal::NoStringByte(i as u32));
        }
    }
    Ok(())
}

// 20 and 21: all that is judged where any byte may stand in a string.
// Three parameters, as `print_policy` takes them: `Checked` has them once they are judged.
#[tactic(auto, using(crate::proofs::Judgings::judging))]
pub(crate) fn over_any<'a>(
    policy: Policy,
    text: &'a [u8],
    spans: &'a [u32],
) -> Result<Checked<'a>, Refusal>
    ensures judged { judged_as result ≡ judgement any_byte (numbers policy) spans.now text.now }
    ensures same { IfOk result (IsOf policy text.now spans.now) }
{
    if !shape(policy) {
        return Err(Refusal::WrongShape);
    }
    all_inside(text, spans, policy.strings())?;
    Ok(Checked {
        policy,
        text,
        spans,
    })
}

// And 22. No twin of `over_any`: it calls that one and judges one thing more.
#[tactic(auto, using(crate::proofs::Judgings::judging))]
pub(crate) fn over_set<'a>(
    policy: Policy,
    text: &'a [u8],
    spans: &'a [u32],
) -> Result<Checked<'a>, Refusal>
    ensures judged { judged_as result ≡ judgement string_set (numbers policy) spans.now text.now }
    ensures same { IfOk result (IsOf policy text.now spans.now) }
{
    let given = over_any(policy, text, spans)?;
    all_plain(&given)?;
    Ok(given)
}
