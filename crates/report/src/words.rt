// Words for the kinds of nodes, numbers as in the answer (parser::Answer is SPEC.md's), and a part of a text. What has no words is nothing.
ghost use Rattle.std.specs.Prelude.{◌≡◌};
ghost use Rattle.std.proofs.Math.Seq.{slice};
ghost use Rattle.pieces.specs.Pieces.{Wrote};
ghost use Rattle.page.specs.Page.{shown, said};
ghost use Rattle.report.specs.Words.{found_text, expected_text};

// What a node is.
#[tactic(auto, unfolding(crate::specs::Words::found_text, crate::specs::Words::part))]
pub(crate) fn found(kind: u32) -> &'static [u8]
    ensures { said result.now 0 ≡ found_text kind }
{
    match kind {
        parser::STRING => b"a string",
        parser::ARRAY => b"an array",
        parser::OBJECT => b"an object",
        parser::FUNCTION => b"a function",
        _ => b"",
    }
}

// What a node should be, up to the name.
#[tactic(auto, unfolding(crate::specs::Words::expected_text, crate::specs::Words::part))]
pub(crate) fn expected(kind: u32) -> &'static [u8]
    ensures { said result.now 0 ≡ expected_text kind }
{
    match kind {
        parser::STRING => b"Expected a string in the array for ",
        parser::ARRAY => b"Expected an array of strings for ",
        parser::OBJECT => b"Expected the object ",
        parser::FUNCTION => b"Expected the function ",
        _ => b"",
    }
}

// The bytes from `from` up to `to` of a text, as far as it has them.
pub(crate) fn put_part(out: &mut [u8], at: usize, text: &[u8], from: usize, to: usize) -> usize
    ensures { Wrote out.old out.new at result (shown (slice from to text.now)) }
{
    match text.get(from..to.min(text.len())) {
        Some(part) => page::put(out, at, part),
        None => at,
    }
}
