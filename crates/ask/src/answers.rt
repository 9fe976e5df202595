// `answers`: what the entries answer on a text, for so many node words, span words and output bytes lent: the numbers of `read_tree`, the
// words of its rows, and whether every other word is as it is to be left; the same three of `read_policy`, its words being those of the strings'
// spans; the host entry's number, the printed bytes in hex, and whether every other byte is as lent.
use crate::reply::Reply;
use crate::room::{MOST_BYTES, MOST_WORDS};
use crate::{entry, fields, room};
use ast_mapping::SPAN_WORDS;
use parser::{MAX_TEXT, NODE_WORDS};

// What is lent where a line does not say: of each table some words more than count.
const NODES_LENT: usize = NODE_WORDS + 5;

const SPANS_LENT: usize = SPAN_WORDS + 5;

// The answer to a request's fields: nine fields, and the line end. Each entry makes what it is lent, so that a line that is no request pays for no table.
pub(crate) fn answer(line: &[u8], out: &mut Reply) -> Option<()> {
    let mut given = room::LENT_BYTES;
    let mut fields = line.split(|b| *b == b'\t');
    let text = fields::text(fields.next()?, &mut given)?;
    let nodes = fields::number_or(fields.next(), NODES_LENT, MOST_WORDS)?;
    let spans = fields::number_or(fields.next(), SPANS_LENT, MOST_WORDS)?;
    let room = fields::number_or(fields.next(), MAX_TEXT, MOST_BYTES)?;
    if fields.next().is_some() {
        return None;
    }
    entry::put_tree(text, nodes, out);
    out.put(b"\t");
    entry::put_policy(text, nodes, spans, out);
    out.put(b"\t");
    entry::put_canonical(text, room, out);
    out.put(b"\n");
    Some(())
}
