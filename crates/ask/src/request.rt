// A line, taken for a request and answered.
ghost use Rattle.std.specs.Prelude.{length};
ghost use Rattle.lines.specs.Input.{Inside};

use crate::reply::Reply;
use crate::{answers, prints, reports, verdicts};
use lines::Line;

// The answer to a request; none to what is no request, of which nothing is written. A verb alone has no field, and each verb has one at least.
fn answered(line: &[u8], out: &mut Reply) -> Option<()> {
    let end = line.iter().position(|b| *b == b'\t')?;
    let fields = &line[end + 1..];
    match &line[..end] {
        b"answers" => answers::answer(fields, out),
        b"prints" => prints::answer(fields, out),
        b"verdicts" => verdicts::answer(fields, out),
        b"reports" => reports::answer(fields, out),
        _ => None,
    }
}

// Puts the answer to a line of the input in the place of the last one. A line that is cut is no request.
pub(crate) fn answer_line(input: &[u8], line: Line, out: &mut Reply)
    requires { Inside line (length input.now) }
{
    out.clear();
    if line.cut || answered(&input[line.from..line.to], out).is_none() {
        out.put(b"bad line\n");
    }
}
