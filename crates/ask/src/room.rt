// What a request gives and is lent. All of it is fixed room: a rule of the project, no heap and the same memory for every line.

// The most bytes of a line and of its answer.
pub(crate) const LINE: usize = 65536;

// The most bytes of a text or an output, the most words of a table.
pub(crate) const BYTES: usize = 16384;

pub(crate) const WORDS: usize = 4096;

// The same as the largest numbers that a field may have.
pub(crate) const MOST_BYTES: u32 = BYTES as u32;

pub(crate) const MOST_WORDS: u32 = WORDS as u32;

// What lent bytes and words hold before the call.
pub(crate) const FILL_BYTE: u8 = 0xA5;

pub(crate) const FILL_WORD: u32 = 0xA5A5_A5A5;

// Room for a text or an output.
pub(crate) const LENT_BYTES: [u8; BYTES] = [FILL_BYTE; BYTES];

// Room for a table.
pub(crate) const LENT_WORDS: [u32; WORDS] = [FILL_WORD; WORDS];
