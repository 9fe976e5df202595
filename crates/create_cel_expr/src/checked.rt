// A policy that was judged, with the text and the span table of its strings.
ghost use Rattle.std.specs.Prelude.{◌≡◌, ℕ, ◌<◌, ◌≤◌, length};
ghost use Rattle.cel_policy.specs.Policy.{string_count, numbers};
ghost use Rattle.cel_policy.specs.Printed.{max_response_only};
ghost use Rattle.cel_policy.specs.Inside.{SpanInside};

use crate::span;
use cel_policy::Policy;

// Its strings are few, and the span of each lies in the text.
#[derive(Clone, Copy)]
pub(crate) struct Checked<'a> {
    pub(crate) policy: Policy,
    pub(crate) text: &'a [u8],
    pub(crate) spans: &'a [u32],
    pub(crate) ghost few: { string_count (numbers policy) ≤ max_response_only },
    pub(crate) ghost inside: { (i : ℕ) → i < string_count (numbers policy) → SpanInside spans.now text.now i },
}

impl<'a> Checked<'a> {
    ghost use Rattle.create_cel_expr.specs.Given.{count_of, string_of, word_size};

    // String i.
    #[tactic(auto, using(cel_text::proofs::Laws::Part::part_slice))]
    pub(crate) fn string(&self, i: usize) -> &'a [u8]
        requires { i < count_of self.now }
        ensures part { result.now ≡ string_of self.now i }
        ensures short { length result.now < word_size }
    {
        &self.text[span::of(self.spans, i)]
    }
}
