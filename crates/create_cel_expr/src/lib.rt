// Printing a policy: the port of create_cel_expr.rs. The policy is numbers from anyone, and so are the span table and the text; what is not
// printable is refused, and the output left alone then. The contracts cite the definitions of `cel_policy` and ask nothing of the caller.
#![tactic(auto)]

mod checked;
mod judge;
mod measure;
mod refusal;
mod span;
mod write;

ghost use Rattle.std.specs.Prelude.{◌≡◌, length};
ghost use Rattle.cel_policy.specs.Policy.{numbers};
ghost use Rattle.cel_policy.specs.Answers.{any_byte, judgement, print_answered, output, print_answer, print_output};
ghost use Rattle.parser.specs.Set.{string_set};
ghost use Rattle.create_cel_expr.specs.Given.{print_told};
ghost use Rattle.create_cel_expr.specs.Judged.{judged_as, printed_as, printing};

use cel_policy::Policy;
use checked::Checked;
use parser::MAX_TEXT;
pub use refusal::Refusal;

// The answer of printing: SPEC.md's five numbers, which callers print and compare; `Result<u32, Refusal>` says the same with an enum.
#[derive(Clone, Copy)]
pub struct Printed {
    pub refusal: u32,
    pub name: u32,
    pub kind: u32,
    pub place: u32,
    pub length: u32,
}

// Refusals of printing.
pub const WRONG_SHAPE: u32 = 20;

pub const SPAN_OUTSIDE: u32 = 21;

pub const NO_STRING_BYTE: u32 = 22;

pub const PRINTED_TOO_LONG: u32 = 23;

pub const OUTPUT_TOO_SHORT: u32 = 24;

// The printed length or the refusal, as numbers.
impl From<Result<u32, Refusal>> for Printed {
    ghost from_gives = { λ printed p. print_told p ≡ printed_as printed };

    fn from(printed: Result<u32, Refusal>) -> Printed {
        let (refusal, place, length) = match printed {
            Ok(length) => (0, 0, length),
            Err(refusal) => (refusal.number(), refusal.place(), 0),
        };
        Printed {
            refusal,
            name: 0,
            kind: 0,
            place,
            length,
        }
    }
}

// Judges a policy given by anyone: its shape, then every span, then every string's bytes.
pub fn judge_policy(policy: Policy, text: &[u8], spans: &[u32]) -> Result<(), Refusal>
    ensures { judged_as result ≡ judgement string_set (numbers policy) spans.now text.now }
{
    judge::over_set(policy, text, spans)?;
    Ok(())
}

// Writes the policy's text to the front of `out`, or refuses with 20 to 24 and leaves `out` as it is.
#[tactic(auto, using(crate::proofs::Judgings::printing_found), unfolding(cel_policy::specs::Answers::print_answer, cel_policy::specs::Answers::print_output))]
pub fn print_policy(policy: Policy, text: &[u8], spans: &[u32], out: &mut [u8]) -> Printed
    ensures answer { print_told result ≡ print_answer string_set (numbers policy) spans.now text.now (length out.old) }
    ensures output { out.new ≡ print_output string_set (numbers policy) spans.now text.now out.old }
{
    Printed::from(print(judge::over_set(policy, text, spans), out))
}

// The same where any byte may stand in a string, as for strings that were read: 22 falls away.
// Two functions: both are promised (docs/PROMISES.md), and they differ in what is judged.
#[tactic(auto, using(crate::proofs::Judgings::printing_found), unfolding(cel_policy::specs::Answers::print_answer, cel_policy::specs::Answers::print_output))]
pub fn print_any(policy: Policy, text: &[u8], spans: &[u32], out: &mut [u8]) -> Printed
    ensures answer { print_told result ≡ print_answer any_byte (numbers policy) spans.now text.now (length out.old) }
    ensures output { out.new ≡ print_output any_byte (numbers policy) spans.now text.now out.old }
{
    Printed::from(print(judge::over_any(policy, text, spans), out))
}

// What was judged over some set of string bytes: refused for its fault, or for its size with 23 or 24, or written.
#[tactic(auto, using(crate::proofs::Sizes::sizes))]
fn print(judged: Result<Checked, Refusal>, out: &mut [u8]) -> Result<u32, Refusal>
    ensures answer { printed_as result ≡ print_answered (printing judged.entry (length out.old)) }
    ensures output { out.new ≡ output (printing judged.entry (length out.old)) out.old }
{
    let given = judged?;
    let length = measure::printed_length(&given);
    if MAX_TEXT < length {
        return Err(Refusal::TooLong);
    }
    if out.len() < length {
        return Err(Refusal::OutputTooShort);
    }
    write::create_cel_expr(out, &given);
    Ok(length as u32)
}
