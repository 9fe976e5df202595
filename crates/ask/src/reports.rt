// `reports`: the whole report on a text, and a blank line.
use crate::reply::Reply;
use crate::{fields, room};

// The answer to a text in hex.
pub(crate) fn answer(field: &[u8], out: &mut Reply) -> Option<()> {
    let mut room = room::LENT_BYTES;
    let text = fields::text(field, &mut room)?;
    out.put_report(text);
    out.put(b"\n");
    Some(())
}
