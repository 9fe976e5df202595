// The sixteen names of the mapping, by their numbers, and how they are spelled.
ghost use Rattle.std.specs.Prelude.{◌≡◌};
ghost use Rattle.cel_policy.specs.Names.{same, spelling};
ghost use Rattle.pieces.specs.Pieces.{Wrote};

// Numbers and no enum: a caller of `spell` may give any, and an answer's name is such a number.
pub const DEFAULT_CERTIFICATION: u32 = 1;

pub const VALIDATION_ARGS: u32 = 2;

pub const NO_CERTIFICATION: u32 = 3;

pub const CERTIFICATION: u32 = 4;

pub const CERTIFICATION_OBJECT: u32 = 5;

pub const NO_REQUEST_CERTIFICATION: u32 = 6;

pub const REQUEST_CERTIFICATION: u32 = 7;

pub const REQUEST_CERTIFICATION_OBJECT: u32 = 8;

pub const CERTIFIED_REQUEST_HEADERS: u32 = 9;

pub const CERTIFIED_QUERY_PARAMETERS: u32 = 10;

pub const RESPONSE_CERTIFICATION: u32 = 11;

pub const RESPONSE_CERTIFICATION_OBJECT: u32 = 12;

pub const CERTIFIED_RESPONSE_HEADERS: u32 = 13;

pub const RESPONSE_HEADER_EXCLUSIONS: u32 = 14;

pub const RESPONSE_HEADER_LIST: u32 = 15;

pub const HEADERS: u32 = 16;

// How the name with this number is spelled. The number 0, and those past 16, name nothing, and are spelled with no byte.
#[tactic(auto, unfolding(cel_policy::specs::Names::spelling))]
fn spelling(name: u32) -> &'static [u8]
    ensures { result.now ≡ spelling name }
{
    match name {
        DEFAULT_CERTIFICATION => b"default_certification",
        VALIDATION_ARGS => b"ValidationArgs",
        NO_CERTIFICATION => b"no_certification",
        CERTIFICATION => b"certification",
        CERTIFICATION_OBJECT => b"Certification",
        NO_REQUEST_CERTIFICATION => b"no_request_certification",
        REQUEST_CERTIFICATION => b"request_certification",
        REQUEST_CERTIFICATION_OBJECT => b"RequestCertification",
        CERTIFIED_REQUEST_HEADERS => b"certified_request_headers",
        CERTIFIED_QUERY_PARAMETERS => b"certified_query_parameters",
        RESPONSE_CERTIFICATION => b"response_certification",
        RESPONSE_CERTIFICATION_OBJECT => b"ResponseCertification",
        CERTIFIED_RESPONSE_HEADERS => b"certified_response_headers",
        RESPONSE_HEADER_EXCLUSIONS => b"response_header_exclusions",
        RESPONSE_HEADER_LIST => b"ResponseHeaderList",
        HEADERS => b"headers",
        _ => b"",
    }
}

// Whether these bytes are the name with this number.
#[tactic(auto, using(crate::proofs::Names::same_bytes))]
pub(crate) fn is_name(part: &[u8], name: u32) -> bool
    ensures { result ≡ same part.now (spelling name) }
{
    part == spelling(name)
}

// Writes the name with this number from place `at` on, and answers the place after it.
pub fn spell(out: &mut [u8], at: usize, name: u32) -> usize
    ensures { Wrote out.old out.new at result (spelling name) }
{
    pieces::put(out, at, spelling(name))
}
