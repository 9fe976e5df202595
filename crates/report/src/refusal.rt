// A refusal in words: its number, what it means, and the part of the text around its place. Refusals, kinds and names stay the numbers of
// the answer (parser::Answer is SPEC.md's): each is looked at only to be put into words.
ghost use Rattle.std.specs.Prelude.{◌≡◌, ◌≤◌};
ghost use Rattle.parser.specs.Found.{told};
ghost use Rattle.pieces.specs.Pieces.{Wrote};
ghost use Rattle.page.specs.Page.{said};
ghost use Rattle.report.specs.Refusal.{reading_text, instead_text, wrong_text, no_argument_text, no_property_text, choice_text};
ghost use Rattle.report.specs.Refusal.{owner as ownerOf, mapping_text, refusal_text};

use crate::window::Mark;
use crate::{node, words};
use ast_mapping::name;
use page::say;
use parser::{Answer, Node};

// What refusals 1 to 6 mean, at a place of a text of this length. Of the syntax there are two more messages: at the text's end, and at its
// first byte.
#[tactic(auto, unfolding(crate::specs::Refusal::reading_text, crate::specs::Words::part))]
fn reading(refusal: u32, i: usize, long: usize) -> &'static [u8]
    requires { refusal ≤ 6 }
    ensures { said result.now i ≡ reading_text refusal i long }
{
    match refusal {
        parser::TABLE_TOO_SHORT => b"a table that was lent is too short.\n",
        parser::TEXT_TOO_LONG =>
            b"too long. At most # bytes are allowed; what follows is not read.\n",
        parser::NOT_ASCII => b"not ASCII. Byte # is 128 or more.\n",
        parser::SYNTAX if i == long =>
            b"syntax. The text ends at byte #, where more must follow.\n",
        parser::SYNTAX if i == 0 => b"syntax. Byte 0 cannot begin an expression.\n",
        parser::SYNTAX => b"syntax. Byte # cannot follow what stands before it.\n",
        parser::TOO_DEEP =>
            b"too deep. Byte # opens a container at depth 33; at most 32 is allowed.\n",
        parser::TOO_MANY => b"too many values. Byte # opens value 257; at most 256 are allowed.\n",
        _ => b"",
    }
}

// What is expected instead.
fn put_instead(out: &mut [u8], at: usize, kind: u32, name: u32) -> usize
    ensures { Wrote out.old out.new at result (instead_text kind name) }
{
    let end = say(out, at, words::expected(kind), 0);
    let end = name::spell(out, end, name);
    say(out, end, b".\n", 0)
}

// A node of another kind or name: what it is, in what way it is wrong, and what it should be.
fn put_wrong(out: &mut [u8], at: usize, answer: Answer, found: u32, way: &[u8], kind: u32) -> usize
    ensures { Wrote out.old out.new at result (wrong_text answer.place found way.now kind answer.name) }
{
    let end = say(out, at, b"node # is ", answer.place as usize);
    let end = say(out, end, words::found(found), 0);
    let end = say(out, end, way, 0);
    put_instead(out, end, kind, answer.name)
}

fn put_no_argument(out: &mut [u8], at: usize, name: u32) -> usize
    ensures { Wrote out.old out.new at result (no_argument_text name) }
{
    let end = say(out, at, b"default_certification has no argument.\n", 0);
    put_instead(out, end, parser::OBJECT, name)
}

// The object that must have this property.
fn owner(name: u32) -> u32
    ensures { result ≡ ownerOf name }
{
    if name == name::RESPONSE_CERTIFICATION {
        return name::CERTIFICATION_OBJECT;
    }
    name::REQUEST_CERTIFICATION_OBJECT
}

fn put_no_property(out: &mut [u8], at: usize, name: u32) -> usize
    ensures { Wrote out.old out.new at result (no_property_text name) }
{
    let end = name::spell(out, at, owner(name));
    let end = say(out, end, b" lacks the property ", 0);
    let end = name::spell(out, end, name);
    say(out, end, b".\n", 0)
}

// What is wrong with two properties of which an object must have exactly one: refusals 11 to 16. A list object without headers counts as
// absent, so of the lists the headers are spoken of.
#[tactic(auto, unfolding(crate::specs::Refusal::choice_text, crate::specs::Words::part))]
fn choice(refusal: u32) -> &'static [u8]
    requires { (11 ≤ refusal) × (refusal ≤ 16) }
    ensures { said result.now 0 ≡ choice_text refusal }
{
    match refusal {
        parser::EXTRANEOUS_VALIDATION_ARGS_PROPERTY => {
            b"both no_certification and certification are given.\nExpected exactly one of them in ValidationArgs.\n"
        }
        parser::MISSING_VALIDATION_ARGS_PROPERTY => {
            b"neither no_certification nor certification is given.\nExpected exactly one of them in ValidationArgs.\n"
        }
        parser::EXTRANEOUS_REQUEST_CERTIFICATION_PROPERTY => {
            b"both no_request_certification and request_certification are given.\nExpected exactly one of them in Certification.\n"
        }
        parser::MISSING_REQUEST_CERTIFICATION_PROPERTY => {
            b"neither no_request_certification nor request_certification is given.\nExpected exactly one of them in Certification.\n"
        }
        parser::EXTRANEOUS_RESPONSE_CERTIFICATION_PROPERTY => {
            b"both certified_response_headers and response_header_exclusions give headers.\nExpected exactly one of them in ResponseCertification.\n"
        }
        parser::MISSING_RESPONSE_CERTIFICATION_PROPERTY => {
            b"neither certified_response_headers nor response_header_exclusions gives headers.\nExpected exactly one of them in ResponseCertification.\n"
        }
        _ => b"",
    }
}

// What refusals 7 to 16 mean.
#[tactic(auto, unfolding(crate::specs::Refusal::mapping_text))]
fn put_mapping(out: &mut [u8], at: usize, answer: Answer, found: u32) -> usize
    requires { (7 ≤ answer.refusal) × (answer.refusal ≤ 16) }
    ensures { Wrote out.old out.new at result (mapping_text (told answer) found) }
{
    match answer.refusal {
        parser::UNEXPECTED_NODE_TYPE => put_wrong(out, at, answer, found, b".\n", answer.kind),
        parser::UNEXPECTED_NODE_NAME => {
            put_wrong(out, at, answer, found, b" with another name.\n", found)
        }
        parser::MISSING_FUNCTION_PARAMETER => put_no_argument(out, at, answer.name),
        parser::MISSING_OBJECT_PROPERTY => put_no_property(out, at, answer.name),
        _ => say(out, at, choice(answer.refusal), 0),
    }
}

// The text and the table stay two parameters: only this function and `node::start` take both, and a struct for two uses is no plainer.
pub(crate) fn put_refusal(
    out: &mut [u8],
    at: usize,
    answer: Answer,
    text: &[u8],
    table: &[u32],
) -> usize
    requires { answer.refusal ≤ 16 }
    ensures { Wrote out.old out.new at result (refusal_text text.now table.now (told answer)) }
{
    let end = say(out, at, b"Refused (#): ", answer.refusal as usize);
    if answer.refusal <= parser::TOO_MANY {
        let mark = Mark::within(text, answer.place as usize);
        let place = mark.place.0;
        let end = say(out, end, reading(answer.refusal, place, text.len()), place);
        return mark.put_byte_place(out, end);
    }
    let node = Node(answer.place as usize);
    let end = put_mapping(out, end, answer, node::kind(table, node));
    node::start(text, table, node).put_node_place(out, end, node)
}
