// The numbers and bytes of an answer. Each function writes from a place of a lent buffer on and answers the place after what it wrote, as
// `pieces::put` does. Loops that put piece after piece stay in their functions: the crate `pieces` says why.
ghost use Rattle.pieces.specs.Pieces.{Wrote};
ghost use Rattle.lines.specs.Texts.{numeral, after_commas, numerals, pair, pairs};

// A number in decimal.
pub fn put_number(out: &mut [u8], at: usize, n: u64) -> usize
    ensures { Wrote out.old out.new at result (numeral n) }
{
    let mut digits = [0u8; 20];
    let k = io::decimal(n, &mut digits);
    pieces::put(out, at, &digits[..k])
}

// Words in decimal, with commas between them.
pub fn put_words(out: &mut [u8], at: usize, words: &[u32]) -> usize
    ensures { Wrote out.old out.new at result (numerals words.now) }
{
    let [first, rest @ ..] = words else {
        return at;
    };
    let end = put_number(out, at, u64::from(*first));
    put_after_commas(out, end, rest)
}

// Words in decimal, each after a comma.
fn put_after_commas(out: &mut [u8], at: usize, words: &[u32]) -> usize
    ensures { Wrote out.old out.new at result (after_commas words.now) }
{
    let mut end = at;
    for word in words {
        end = pieces::put(out, end, b",");
        end = put_number(out, end, u64::from(*word));
    }
    end
}

// Bytes in hex.
pub fn put_hex(out: &mut [u8], at: usize, row: &[u8]) -> usize
    ensures { Wrote out.old out.new at result (pairs row.now) }
{
    let mut end = at;
    for b in row {
        end = put_byte(out, end, *b);
    }
    end
}

fn put_byte(out: &mut [u8], at: usize, b: u8) -> usize
    ensures { Wrote out.old out.new at result (pair b) }
{
    let mut digits = [0u8; 16];
    let k = io::hex(u64::from(b), 2, &mut digits);
    pieces::put(out, at, &digits[..k])
}
