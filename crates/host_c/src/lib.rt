// The archive for a host in C: `host::hilladok_canonicalise` under the name that C knows. A pointer and a length stand for each slice.
#![tactic(auto)]

ghost use Rattle.std.specs.Prelude.{◌≡◌, length};
ghost use Rattle.cel_policy.specs.Answers.{canonical_answer, canonical_output};

#[unsafe(no_mangle)]
pub extern "C" fn hilladok_canonicalise(text: &[u8], out: &mut [u8]) -> u32
    ensures answer { result ≡ canonical_answer text.now (length out.old) }
    ensures output { out.new ≡ canonical_output text.now out.old }
{
    host::hilladok_canonicalise(text, out)
}
