// What a tree means: names, the mapping to a policy, the printed text, and the answers of the entries that read and print policies.
// Definitions in specs/, and what is true of them in proofs/Laws/: the crates above cite these definitions in their contracts. The only code here
// is a policy's numbers.
#![tactic(auto)]

ghost use Rattle.std.specs.Prelude.{◌≡◌, ◌+◌};

// A policy as numbers: form, list kind, and how many strings each list has. The default is no policy.
// Numbers and no enums: a caller may give any, and refusal 20 judges them.
#[derive(Clone, Copy, Default)]
pub struct Policy {
    pub form: u32,
    pub kind: u32,
    pub request: u32,
    pub query: u32,
    pub response: u32,
}

impl Policy {
    ghost use Rattle.cel_policy.specs.Policy.{string_count, numbers};

    // How many strings stand before the response's.
    pub fn before_response(self) -> usize
        ensures { result ≡ self.request + self.query }
    {
        self.request as usize + self.query as usize
    }

    // How many strings there are.
    pub fn strings(self) -> usize
        ensures { result ≡ string_count (numbers self) }
    {
        self.before_response() + self.response as usize
    }
}

// The forms, and the kinds of the response list; 0 is none.
pub const SKIP: u32 = 1;

pub const RESPONSE_ONLY: u32 = 2;

pub const FULL: u32 = 3;

pub const INCLUSIONS: u32 = 1;

pub const EXCLUSIONS: u32 = 2;
