//! Numbers of the text form.

use std::fmt;

/// The number of a sample.
#[derive(Clone, Copy, Debug, PartialEq, Eq)]
pub enum Number {
    /// A whole number.
    Whole(u64),
    /// A time in microseconds. The text shows seconds, with six decimals.
    Micros(u64),
}

/// How many microseconds a second has.
const MICROS_PER_SECOND: u64 = 1_000_000;

impl fmt::Display for Number {
    ghost use Rattle.std.specs.Prelude.{Some};
    ghost use Rattle.metrics.specs.Numbers.{number_text};

    ghost output = { λ number. Some (number_text number) };

    fn fmt<W: fmt::Write>(&self, f: &mut fmt::Formatter<W>) -> fmt::Result {
        match self {
            Number::Whole(number) => write!(f, "{number}"),
            Number::Micros(micros) => {
                let seconds = *micros / MICROS_PER_SECOND;
                let rest = *micros % MICROS_PER_SECOND;
                write!(f, "{seconds}.{rest:06}")
            }
        }
    }
}
