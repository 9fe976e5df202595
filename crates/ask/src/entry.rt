// The entries called on what a request lends, and their fields.
ghost use Rattle.std.specs.Prelude.{◌≡◌, ◌≤◌, length, take, drop};
ghost use Rattle.std.specs.List.{list_all};
ghost use Rattle.ask.specs.Room.{most_bytes, most_words};

use crate::reply::Reply;
use crate::room::{FILL_BYTE, FILL_WORD, LENT_BYTES, LENT_WORDS};

// Whether each item from place `from` up to `to` is this one.
fn all_are<T: PartialEq>(items: &[T], from: usize, to: usize, item: &T) -> bool
    ensures { result ≡ list_all (λ i. T.eq i item.now) (drop from (take to items.now)) }
{
    items.iter().take(to).skip(from).all(|i| i == item)
}

// Whether the words after the used ones are as they are to be left: 0 up to the counted words, the others as lent.
fn is_clean(table: &[u32], used: usize, most: usize, refusal: u32) -> bool {
    let counted = if refusal == parser::TABLE_TOO_SHORT {
        0
    } else {
        most
    };
    counted <= table.len()
        && all_are(table, used, counted, &0)
        && all_are(table, counted, table.len(), &FILL_WORD)
}

fn put_clean(out: &mut Reply, clean: bool) {
    out.put(if clean { b"clean" } else { b"dirty" });
}

// The words of that many rows, as far as the table has them.
fn rows_in(table: &[u32], nodes: u32) -> usize
    ensures { result ≤ length table.now }
{
    (parser::ROW_WORDS * nodes as usize).min(table.len())
}

// The three fields of `read_tree` on a text and a table of so many words.
pub(crate) fn put_tree(text: &[u8], words: usize, out: &mut Reply)
    requires { words ≤ most_words }
{
    let mut lent = LENT_WORDS;
    let table = &mut lent[..words];
    let a = parser::read_tree(text, table);
    out.put_words(&[a.refusal, a.name, a.kind, a.place, a.nodes, a.depth]);
    out.put(b"\t");
    let rows = rows_in(table, a.nodes);
    out.put_words(&table[..rows]);
    out.put(b"\t");
    put_clean(out, is_clean(table, rows, parser::NODE_WORDS, a.refusal));
}

// The three fields of `read_policy` on a text and two tables of so many words.
pub(crate) fn put_policy(text: &[u8], nodewords: usize, spanwords: usize, out: &mut Reply)
    requires { (nodewords ≤ most_words) × (spanwords ≤ most_words) }
{
    let mut nodes = LENT_WORDS;
    let nodes = &mut nodes[..nodewords];
    let mut spans = LENT_WORDS;
    let spans = &mut spans[..spanwords];
    let read = ast_mapping::read_policy(text, nodes, spans);
    let a = read.answer;
    let p = read.policy;
    out.put_words(&[
        a.refusal, a.name, a.kind, a.place, a.nodes, a.depth, p.form, p.kind, p.request, p.query,
        p.response,
    ]);
    out.put(b"\t");
    let used = (2 * p.strings()).min(spans.len());
    out.put_words(&spans[..used]);
    out.put(b"\t");
    let rows = rows_in(nodes, a.nodes);
    let clean = is_clean(nodes, rows, parser::NODE_WORDS, a.refusal)
        && is_clean(spans, used, ast_mapping::SPAN_WORDS, a.refusal);
    put_clean(out, clean);
}

// The three fields of the host's entry on a text and an output of so many bytes. Where it refuses, no bytes are printed.
pub(crate) fn put_canonical(text: &[u8], room: usize, out: &mut Reply)
    requires { room ≤ most_bytes }
{
    let mut lent = LENT_BYTES;
    let lent = &mut lent[..room];
    let answer = host::canonicalise(text, lent);
    out.put_number(answer);
    out.put(b"\t");
    let used = if answer >= host::REFUSED {
        0
    } else {
        lent.len().min(answer as usize)
    };
    out.put_hex(&lent[..used]);
    out.put(b"\t");
    put_clean(out, all_are(lent, used, lent.len(), &FILL_BYTE));
}
