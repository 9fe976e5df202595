// The fields of a line: numbers, a text in hex, a list of words.
ghost use Rattle.std.specs.Prelude.{◌≤◌, length};
ghost use Rattle.lines.specs.Fields.{AtMost};

// A field's number; where the line has no such field, the default.
pub(crate) fn number_or(field: Option<&[u8]>, default: usize, most: u32) -> Option<usize>
    requires { default ≤ most }
    ensures { AtMost most result }
{
    match field {
        Some(field) => lines::decimal(field, most),
        None => Some(default),
    }
}

// The text that a field gives in hex, put at the start of the room.
pub(crate) fn text<'a>(field: &[u8], room: &'a mut [u8]) -> Option<&'a [u8]> {
    let n = lines::unhex(field, room)?;
    Some(&room[..n])
}

pub(crate) fn word(field: &[u8]) -> Option<u32> {
    u32::try_from(lines::decimal(field, u32::MAX)?).ok()
}

// Puts the words of a list at the start of the table, and says how many; an empty field has none. `n` is counted, since `enumerate` does not tell it at the end.
pub(crate) fn words(field: &[u8], table: &mut [u32]) -> Option<usize>
    ensures { AtMost (length table.new) result }
{
    if field.is_empty() {
        return Some(0);
    }
    let mut n = 0;
    for number in field.split(|b| *b == b',') {
        *table.get_mut(n)? = word(number)?;
        n += 1;
    }
    Some(n)
}
