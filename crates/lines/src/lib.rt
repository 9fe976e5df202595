// Lines of an input, the fields and parts of a line, and the numbers and bytes of an answer.
#![tactic(auto)]

mod field;
mod input;
mod place;
mod write;

pub use field::{Field, decimal, number_after, part_start, unhex};
pub use input::{Line, next, none, to_front};
pub use place::find;
pub use write::{put_hex, put_number, put_words};
