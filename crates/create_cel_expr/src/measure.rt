// How long the printed text is, before any of it is written. A span's ends are words, so the few strings of a policy never come to more than a number holds.
ghost use Rattle.std.specs.Prelude.{◌≡◌, ◌+◌, ◌*◌, ◌≤◌};
ghost use Rattle.cel_policy.specs.Printed.{total, list_length, printed_length};
ghost use Rattle.create_cel_expr.specs.Given.{count_of, strings_of, policy_of, word_size};

use crate::checked::Checked;
use cel_policy::{RESPONSE_ONLY, SKIP};

// The lengths of the three texts without their lists.
const SKIP_LENGTH: usize = 63;

const RESPONSE_ONLY_LENGTH: usize = 204;

const FULL_LENGTH: usize = 274;

// The strings from string `begin` on, `count` of them.
// Two numbers and no range, which may end before it starts; and no struct: making one for each list takes as many clauses as the three that it saves.
fn strings(given: &Checked, begin: usize, count: usize) -> usize
    requires { begin + count ≤ count_of given.now }
    ensures long { result ≡ total (strings_of given.now count begin) }
    ensures few { result ≤ word_size * count }
{
    let mut length = 0;
    for i in 0..count {
        length += given.string(begin + i).len();
    }
    length
}

// A list's text.
#[tactic(auto, using(crate::proofs::Lists::list_some))]
fn list(given: &Checked, begin: usize, count: usize) -> usize
    requires { begin + count ≤ count_of given.now }
    ensures long { result ≡ list_length (strings_of given.now count begin) }
    ensures few { result ≤ (word_size + 3) * count }
{
    if count == 0 {
        return 0;
    }
    strings(given, begin, count) + 3 * count - 1
}

// The whole text.
#[tactic(auto, unfolding(cel_policy::specs::Printed::printed_length))]
pub(crate) fn printed_length(given: &Checked) -> usize
    ensures { result ≡ printed_length (policy_of given.now) }
{
    let policy = given.policy;
    let request = policy.request as usize;
    let query = policy.query as usize;
    let response = list(given, policy.before_response(), policy.response as usize);
    match policy.form {
        SKIP => SKIP_LENGTH,
        RESPONSE_ONLY => RESPONSE_ONLY_LENGTH + response,
        _ => FULL_LENGTH + list(given, 0, request) + list(given, request, query) + response,
    }
}
