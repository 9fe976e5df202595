// `prints`: a policy that anyone may have made, printed: the five numbers of `print_policy`, and the whole output in hex.
ghost use Rattle.std.specs.Prelude.{◌≤◌};
ghost use Rattle.ask.specs.Room.{most_bytes};

use crate::reply::Reply;
use crate::room::MOST_BYTES;
use crate::{fields, room};
use cel_policy::Policy;

// The numbers and the whole output of so many bytes, and the line end, where the list is a span table.
fn put_printed(text: &[u8], policy: Policy, list: &[u8], room: usize, out: &mut Reply) -> Option<()>
    requires { room ≤ most_bytes }
{
    let mut spans = room::LENT_WORDS;
    let words = fields::words(list, &mut spans)?;
    let mut lent = room::LENT_BYTES;
    let lent = &mut lent[..room];
    let a = create_cel_expr::print_policy(policy, text, &spans[..words], lent);
    out.put_words(&[a.refusal, a.name, a.kind, a.place, a.length]);
    out.put(b"\t");
    out.put_hex(lent);
    out.put(b"\n");
    Some(())
}

// The answer to a request's fields: the numbers and the whole output, and the line end. The other arrays are made once these were taken apart.
pub(crate) fn answer(line: &[u8], out: &mut Reply) -> Option<()> {
    let mut given = room::LENT_BYTES;
    let mut fields = line.split(|b| *b == b'\t');
    let text = fields::text(fields.next()?, &mut given)?;
    let policy = Policy {
        form: fields::word(fields.next()?)?,
        kind: fields::word(fields.next()?)?,
        request: fields::word(fields.next()?)?,
        query: fields::word(fields.next()?)?,
        response: fields::word(fields.next()?)?,
    };
    let list = fields.next()?;
    let room = lines::decimal(fields.next()?, MOST_BYTES)?;
    if fields.next().is_some() {
        return None;
    }
    put_printed(text, policy, list, room, out)
}
