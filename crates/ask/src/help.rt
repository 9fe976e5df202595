// What a request looks like, for a person.
pub(crate) const HELP: &[u8] = b"Usage: ask <REQUESTS\n\
    \n\
    Each line of standard input is a request: a verb, then its fields, with a tab before each. Bytes are\n\
    in hex, numbers in decimal, and the numbers of a list have commas between them. A field in [ ] may\n\
    be left out with all after it. Each request gets its answer, fields with tabs between them.\n\
    \n\
    answers text [node-words [span-words [output-bytes]]]\n\
    \x20   What the entries answer on the text, so much being lent (2053, 517 and 8192 if left out): the\n\
    \x20   numbers of read_tree, its rows, clean or dirty; the numbers of read_policy, the strings' spans,\n\
    \x20   clean or dirty; the host entry's number, the printed bytes, clean or dirty. What is lent is\n\
    \x20   filled with 0xA5 bytes; clean says that all that is not shown is as it is to be left.\n\
    \x20   printf 'answers\\t78\\t2053\\n' | ask\n\
    \n\
    prints text form list-kind request query response span-words output-bytes\n\
    \x20   The policy with these numbers, its strings in the text at these spans, printed: the numbers of\n\
    \x20   print_policy, and all of the output.\n\
    \x20   printf 'prints\\t\\t1\\t0\\t0\\t0\\t0\\t\\t64\\n' | ask\n\
    \n\
    verdicts text\n\
    \x20   The line that the original Rust writes for the text; for one beyond a limit, its number.\n\
    \x20   printf 'verdicts\\t78\\n' | ask\n\
    \n\
    reports text\n\
    \x20   What explain says of the text, and a blank line.\n\
    \x20   printf 'reports\\t78\\n' | ask\n\
    \n\
    Any other line gets: bad line. A line has fewer than 65536 bytes, a text or an output at most 16384,\n\
    a list at most 4096 numbers.\n";
