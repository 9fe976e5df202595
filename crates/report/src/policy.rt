// An accepted text in words: its form, its lists, its nodes and depth, and its canonical text.
ghost use Rattle.std.specs.Prelude.{◌≡◌, ◌<◌, ◌+◌, ◌^◌, cond, get_or, eqb};
ghost use Rattle.cel_text.specs.Byte.{string_byte};
ghost use Rattle.cel_text.specs.Answer.{max_text};
ghost use Rattle.cel_policy.specs.Policy.{numbers, exclusions};
ghost use Rattle.cel_policy.specs.Spans.{spans_at};
ghost use Rattle.cel_policy.specs.Answers.{find_print, written};
ghost use Rattle.parser.specs.Found.{told};
ghost use Rattle.pieces.specs.Pieces.{Wrote};
ghost use Rattle.page.specs.Page.{said};
ghost use Rattle.report.specs.Policy.{number_of, form_text, string_text, strings_text, title_text, list_lines, request_lines, lists_lines, size_text};
ghost use Rattle.report.specs.Policy.{canonical_lines, policy_text};

use crate::words::put_part;
use cel_policy::Policy;
use page::say;
use parser::{Answer, MAX_TEXT};

// The most bytes of a string that are shown.
const MOST_SHOWN: usize = 72;

// The lists.
#[derive(Clone, Copy)]
enum List {
    RequestHeaders,
    QueryParameters,
    ResponseInclusions,
    ResponseExclusions,
}

impl List {
    // The list of response headers of this kind.
    fn response(kind: u32) -> List
        ensures { number_of result ≡ cond (eqb kind exclusions) 3 2 }
    {
        match kind {
            cel_policy::EXCLUSIONS => List::ResponseExclusions,
            _ => List::ResponseInclusions,
        }
    }

    // Its title: there are two for each, the second for a list that has strings.
    #[tactic(auto, unfolding(crate::specs::Policy::title_text, crate::specs::Words::part))]
    fn title(self, count: usize) -> &'static [u8]
        ensures { said result.now count ≡ title_text (number_of self) count }
    {
        match (self, count) {
            (List::RequestHeaders, 0) =>
                b"    Certified request headers: none, the list is empty.\n",
            (List::RequestHeaders, _) => b"    Certified request headers (#):\n",
            (List::QueryParameters, 0) =>
                b"    Certified query parameters: none, the list is empty.\n",
            (List::QueryParameters, _) => b"    Certified query parameters (#):\n",
            (List::ResponseInclusions, 0) =>
                b"    Certified response headers: none, the list is empty.\n",
            (List::ResponseInclusions, _) => b"    Certified response headers: only these (#):\n",
            (List::ResponseExclusions, 0) =>
                b"    Certified response headers: all, the list of exclusions is empty.\n",
            (List::ResponseExclusions, _) =>
                b"    Certified response headers: all except these (#):\n",
        }
    }
}

// A policy that was read, with the text and the span table in which its strings stand. Not the printer's `Checked`, which is judged and stays there.
#[derive(Clone, Copy)]
pub(crate) struct Accepted<'a> {
    pub policy: Policy,
    pub text: &'a [u8],
    pub spans: &'a [u32],
}

impl Accepted<'_> {
    // A word of the span table, 0 past it.
    fn word(self, i: usize) -> u32
        ensures { result ≡ get_or self.entry.spans.now i 0 }
    {
        self.spans.get(i).copied().unwrap_or(0)
    }

    // So many strings of the span table, from string `first` on.
    fn put_strings(self, out: &mut [u8], at: usize, first: usize, count: usize) -> usize
        requires { first + count < 2 ^ 40 }
        ensures { Wrote out.old out.new at result (strings_text self.entry.text.now (spans_at self.entry.spans.now count first)) }
    {
        let mut end = at;
        for i in 0..count {
            let from = self.word(2 * (first + i));
            let to = self.word(2 * (first + i) + 1);
            end = put_string(out, end, self.text, from, to);
        }
        end
    }

    // A list, its strings being so many of the span table, from string `first` on.
    fn put_list(self, out: &mut [u8], at: usize, list: List, first: usize, count: usize) -> usize
        requires { first + count < 2 ^ 40 }
        ensures { Wrote out.old out.new at result (list_lines self.entry.text.now self.entry.spans.now (number_of list) first count) }
    {
        let end = say(out, at, list.title(count), count);
        self.put_strings(out, end, first, count)
    }

    // The lists of the request, which only Full has.
    fn put_request(self, out: &mut [u8], at: usize) -> usize
        ensures { Wrote out.old out.new at result (request_lines self.entry.text.now self.entry.spans.now (numbers self.entry.policy)) }
    {
        if self.policy.form != cel_policy::FULL {
            return at;
        }
        let request = self.policy.request as usize;
        let query = self.policy.query as usize;
        let end = self.put_list(out, at, List::RequestHeaders, 0, request);
        self.put_list(out, end, List::QueryParameters, request, query)
    }

    // The lists, one after the other in the span table; Skip has none.
    fn put_lists(self, out: &mut [u8], at: usize) -> usize
        ensures { Wrote out.old out.new at result (lists_lines self.entry.text.now self.entry.spans.now (numbers self.entry.policy)) }
    {
        if self.policy.form == cel_policy::SKIP {
            return at;
        }
        let first = self.policy.before_response();
        let count = self.policy.response as usize;
        let list = List::response(self.policy.kind);
        let end = say(out, at, b"\n", 0);
        let end = self.put_request(out, end);
        self.put_list(out, end, list, first, count)
    }

    // The canonical text, or that there is none.
    fn put_canonical(self, out: &mut [u8], at: usize) -> usize
        ensures { Wrote out.old out.new at result (canonical_lines (find_print string_byte (numbers self.entry.policy) self.entry.spans.now self.entry.text.now max_text)) }
    {
        let mut printed = [0u8; MAX_TEXT];
        let print = create_cel_expr::print_policy(self.policy, self.text, self.spans, &mut printed);
        if print.refusal != parser::ACCEPTED {
            return say(
                out,
                at,
                b"No canonical text (#): it would have more than 8192 bytes.\n",
                print.refusal as usize,
            );
        }
        put_printed(out, at, &printed[..print.length as usize])
    }

    // The whole, with the answer that it was accepted by.
    pub(crate) fn put(self, out: &mut [u8], at: usize, answer: Answer) -> usize
        ensures { Wrote out.old out.new at result (policy_text self.entry.text.now self.entry.spans.now (told answer) (numbers self.entry.policy)) }
    {
        let end = say(out, at, form(self.policy.form), 0);
        let end = self.put_lists(out, end);
        let end = put_size(out, end, answer);
        self.put_canonical(out, end)
    }
}

// A policy's form: a number, as `Policy` has it for whoever calls.
#[tactic(auto, unfolding(crate::specs::Policy::form_text, crate::specs::Words::part))]
fn form(form: u32) -> &'static [u8]
    ensures { said result.now 0 ≡ form_text form }
{
    match form {
        cel_policy::SKIP => b"Accepted: Skip. Nothing is certified.\n",
        cel_policy::RESPONSE_ONLY =>
            b"Accepted: ResponseOnly. The response is certified, the request is not.\n",
        cel_policy::FULL => b"Accepted: Full. The request and the response are certified.\n",
        _ => b"",
    }
}

// A string in double quotes, on a line of its own; a long one is cut, and its length said.
fn put_string(out: &mut [u8], at: usize, text: &[u8], from: u32, to: u32) -> usize
    ensures { Wrote out.old out.new at result (string_text text.now from to) }
{
    let first = from as usize;
    let last = to as usize;
    let end = say(out, at, b"        \"", 0);
    if last <= first + MOST_SHOWN {
        let end = put_part(out, end, text, first, last);
        return say(out, end, b"\"\n", 0);
    }
    let end = put_part(out, end, text, first, first + MOST_SHOWN);
    say(out, end, b"...\", # bytes\n", last - first)
}

fn put_size(out: &mut [u8], at: usize, answer: Answer) -> usize
    ensures { Wrote out.old out.new at result (size_text (told answer)) }
{
    let end = say(out, at, b"\n# nodes, depth ", answer.nodes as usize);
    say(out, end, b"#. ", answer.depth as usize)
}

// The canonical text is not cut: it stands on the last line, to be copied from there.
fn put_printed(out: &mut [u8], at: usize, printed: &[u8]) -> usize
    ensures { Wrote out.old out.new at result (canonical_lines (written printed.now)) }
{
    let end = say(out, at, b"Canonical text, # bytes:\n\n", printed.len());
    let end = page::put(out, end, printed);
    say(out, end, b"\n", 0)
}
