// Why a policy is not printed. Judging alone gives the first three.
ghost use Rattle.std.specs.Prelude.{◌≡◌};

use crate::{NO_STRING_BYTE, OUTPUT_TOO_SHORT, PRINTED_TOO_LONG, SPAN_OUTSIDE, WRONG_SHAPE};

#[derive(Clone, Copy, Debug, PartialEq, Eq)]
pub enum Refusal {
    WrongShape,
    SpanOutside(u32),
    NoStringByte(u32),
    TooLong,
    OutputTooShort,
}

impl Refusal {
    ghost use Rattle.create_cel_expr.specs.Judged.{number_of, place_of};

    // Its number. A method and no `From`: `u32::from(refusal)` would not say which of the two numbers is meant.
    pub fn number(self) -> u32
        ensures { result ≡ number_of self }
    {
        match self {
            Refusal::WrongShape => WRONG_SHAPE,
            Refusal::SpanOutside(_) => SPAN_OUTSIDE,
            Refusal::NoStringByte(_) => NO_STRING_BYTE,
            Refusal::TooLong => PRINTED_TOO_LONG,
            Refusal::OutputTooShort => OUTPUT_TOO_SHORT,
        }
    }

    // The string that it names, 0 where it names none.
    pub fn place(self) -> u32
        ensures { result ≡ place_of self }
    {
        match self {
            Refusal::SpanOutside(string) | Refusal::NoStringByte(string) => string,
            Refusal::WrongShape | Refusal::TooLong | Refusal::OutputTooShort => 0,
        }
    }
}
