// Explains a text to a person: `explain` the one on standard input, `explain FILE` the one in a file. No more of it is read than
// settles that it is too long.
#![tactic(auto)]

mod input;

ghost use Rattle.std.specs.Prelude.{◌++◌, ◌≤◌, length, IfOk};
ghost use Rattle.cel_text.specs.Byte.{bytes};
ghost use Rattle.pieces.specs.Pieces.{Wrote};
ghost use Rattle.page.specs.Page.{shown, said};

use program::{Console, fail};
use std::env::{Env, FillError};
use std::io::Read;
use std::rt::Files;
use std::{fs, io};

// The numbers of the system's words for an argument that is too long, for one that is not there, and for a name that is no text.
// Numbers, since only an error made from its number has the system's words.
const TOO_LONG: i32 = 36;

const NOT_THERE: i32 = 22;

const NO_TEXT: i32 = 84;

// Room for any report, and for a line with any argument: fixed, since the project uses no heap.
const PAGE: usize = 65536;

const HELP: &[u8] = b"Usage: explain [FILE]\n\
    \n\
    Explains the certification expression in the file, or on standard input: the policy that it\n\
    stands for, or why and where it is refused. What follows the expression only has to be ASCII.\n\
    Bytes and nodes are counted from 0, lines and columns from 1.\n";

// Puts the beginning of a line that says that a file cannot be read, and answers its length. The name is shown like a text.
fn unreadable(name: &[u8], out: &mut [u8]) -> usize
    ensures { Wrote out.old out.new 0 result (said (bytes "explain: cannot read \"") 0 ++ (shown name.now ++ said (bytes "\"") 0)) }
{
    let end = page::say(out, 0, b"explain: cannot read \"", 0);
    let end = page::put(out, end, name);
    page::say(out, end, b"\"", 0)
}

// Says why the file with this name cannot be read. A function of its own: one with this page and the page for a report takes stack for both in every run.
fn refuse<O: Print, E: Print>(console: &Console<'_, O, E>, path: &[u8], error: &io::Error) {
    let mut out = [0u8; PAGE];
    let n = unreadable(path, &mut out);
    fail(console.errors, &out[..n], error);
}

// Explains what a reader gives, or answers why it cannot be read.
fn explain_from<R: Read, O: Print, E: Print>(
    reader: &mut R,
    console: &Console<'_, O, E>,
) -> io::Result<()> {
    let mut room = [0u8; input::ROOM];
    let mut out = [0u8; PAGE];
    let n = input::read_text(reader, &mut room)?;
    let end = report::report(&room[..n], &mut out);
    console.say(&out[..end]);
    Ok(())
}

fn explain_input<R: Read, O: Print, E: Print>(reader: &mut R, console: &Console<'_, O, E>) {
    if let Err(error) = explain_from(reader, console) {
        fail(
            console.errors,
            b"explain: cannot read standard input",
            &error,
        );
    }
}

// Explains the file with this name, or answers why it cannot be read. A name has to be UTF-8.
fn explain_named<O: Print, E: Print>(
    files: &impl Files,
    console: &Console<'_, O, E>,
    path: &[u8],
) -> io::Result<()> {
    let Ok(name) = std::str::from_utf8(path) else {
        return Err(io::Error::from_raw_os_error(NO_TEXT));
    };
    explain_from(&mut fs::open(files, name)?, console)
}

// The same, or says why the file cannot be read.
fn explain_file<O: Print, E: Print>(files: &impl Files, console: &Console<'_, O, E>, path: &[u8]) {
    if let Err(error) = explain_named(files, console, path) {
        refuse(console, path, &error);
    }
}

// Puts the one argument into the room, and answers its length.
fn argument(rt: &impl Env, room: &mut [u8]) -> io::Result<usize>
    ensures { IfOk result (λ n. n ≤ length room.new) }
{
    rt.arg(1, room).map_err(|error| {
        io::Error::from_raw_os_error(match error {
            FillError::TooLong => TOO_LONG,
            FillError::NotPresent => NOT_THERE,
        })
    })
}

// Explains the file that the argument names; `--help` gets the help.
// Not `Console::answer_argument`: another argument is a file's name here, and a help that cannot be written is passed over.
fn explain_argument<O: Print, E: Print>(rt: &(impl Env + Files), console: &Console<'_, O, E>) {
    let mut room = [0u8; 4096];
    match argument(rt, &mut room) {
        Ok(n) if room[..n] == b"--help"[..] => {
            let _ = console.output.write_all(console.help);
        }
        Ok(n) => explain_file(rt, console, &room[..n]),
        Err(error) => fail(console.errors, b"explain: the file's name", &error),
    }
}

fn main(rt: HostRuntime) {
    let console = Console {
        output: &rt.stdout(),
        errors: &rt.stderr(),
        unwritten: b"explain: cannot write",
        help: HELP,
        misuse: b"explain: takes one file at most; explain --help says more\n",
    };
    match program::arg_count(&rt) {
        1 => explain_input(&mut rt.stdin(), &console),
        2 => explain_argument(&rt, &console),
        _ => console.misused(),
    }
}
