// The span table: string i has its words 2 i and 2 i + 1; the request's strings come first, then the query's, then the response's.
ghost use Rattle.std.specs.Prelude.{◌≡◌, suc, ◌*◌, ◌<◌, length};
ghost use Rattle.cel_policy.specs.Spans.{span_at};
ghost use Rattle.create_cel_expr.specs.Given.{word_size};

use std::ops::Range;

// Where string i begins, and the place after its end.
pub(crate) fn of(spans: &[u32], i: usize) -> Range<usize>
    requires { suc (2 * i) < length spans.now }
    ensures start { result.start ≡ (span_at spans.now i).from }
    ensures end { result.end ≡ (span_at spans.now i).to }
    ensures word { result.end < word_size }
{
    spans[2 * i] as usize..spans[2 * i + 1] as usize
}
