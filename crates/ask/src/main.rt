// Answers requests, one a line, for tests, for support and for the models: a verb, then its fields, each after a tab. `ask --help` says
// which verbs there are and what their fields are.
#![tactic(auto)]

mod answers;
mod entry;
mod fields;
mod help;
mod prints;
mod reply;
mod reports;
mod request;
mod room;
mod verdicts;

use program::Console;
use reply::Reply;
use std::io::Read;

// Nothing says that the input ends, so the turns are counted up to a number that no run reaches.
fn serve<R: Read, O: Print, E: Print>(reader: &mut R, console: &Console<'_, O, E>) {
    let mut input = [0u8; room::LINE];
    let mut reply = Reply::new();
    let mut last = lines::none();
    for _ in 0..u64::MAX {
        last = lines::next(reader, &mut input, last);
        let Some(line) = last else {
            return;
        };
        request::answer_line(&input, line, &mut reply);
        if !console.say(reply.text()) {
            return;
        }
    }
}

fn main(rt: HostRuntime) {
    let console = Console {
        output: &rt.stdout(),
        errors: &rt.stderr(),
        unwritten: b"ask: cannot write",
        help: help::HELP,
        misuse: b"ask: takes no argument but --help, and requests on standard input\n",
    };
    match program::arg_count(&rt) {
        1 => serve(&mut rt.stdin(), &console),
        2 => console.answer_argument(&rt),
        _ => console.misused(),
    }
}
