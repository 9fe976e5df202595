// The answer to a line, as far as there is room for it.
ghost use Rattle.std.specs.Prelude.{◌≡◌, ◌≤◌, ℕ, List, [], ◌++◌, take};
ghost use Rattle.cel_policy.specs.Names.{spelling};
ghost use Rattle.lines.specs.Texts.{numeral, numerals, pairs};
ghost use Rattle.report.specs.Report.{reported};

use crate::room::LINE;
use std::marker::Model;

#[derive(Drop)]
pub(crate) struct Reply {
    bytes: [u8; LINE],
    held: usize,
}

// The bytes that it holds.
impl Model for Reply {
    ghost Value = { List ℕ };

    ghost view = { λ r. take r.held r.bytes };

    ghost invariant = { λ r. r.held ≤ 65536 };
}

impl Reply {
    pub(crate) fn new() -> Reply
        ensures { result ≡ [] }
    {
        Reply {
            bytes: [0; LINE],
            held: 0,
        }
    }

    pub(crate) fn text(&self) -> &[u8]
        ensures { result.now ≡ self.now }
    {
        &self.bytes[..self.held]
    }

    pub(crate) fn clear(&mut self)
        ensures { self.new ≡ [] }
    {
        self.held = 0;
    }

    pub(crate) fn put(&mut self, piece: &[u8])
        ensures { self.new ≡ take 65536 (self.old ++ piece.now) }
    {
        self.held = pieces::put(&mut self.bytes, self.held, piece);
    }

    pub(crate) fn put_number(&mut self, n: u32)
        ensures { self.new ≡ take 65536 (self.old ++ numeral n) }
    {
        self.held = lines::put_number(&mut self.bytes, self.held, u64::from(n));
    }

    pub(crate) fn put_words(&mut self, words: &[u32])
        ensures { self.new ≡ take 65536 (self.old ++ numerals words.now) }
    {
        self.held = lines::put_words(&mut self.bytes, self.held, words);
    }

    pub(crate) fn put_hex(&mut self, row: &[u8])
        ensures { self.new ≡ take 65536 (self.old ++ pairs row.now) }
    {
        self.held = lines::put_hex(&mut self.bytes, self.held, row);
    }

    // The name of the mapping with this number; nothing where there is none.
    pub(crate) fn put_name(&mut self, name: u32)
        ensures { self.new ≡ take 65536 (self.old ++ spelling name) }
    {
        self.held = ast_mapping::name::spell(&mut self.bytes, self.held, name);
    }

    // The whole report on a text, in place of what is held.
    pub(crate) fn put_report(&mut self, text: &[u8])
        ensures { self.new ≡ take 65536 (reported text.now) }
    {
        self.held = report::report(text, &mut self.bytes);
    }
}
