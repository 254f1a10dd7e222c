//! Log lines for the operator, each with its time.

use httpdate::HttpDate;
use log::kv::Source;
use log::span::Spans;
use log::{Log, Metadata, Record};
use std::fmt;
use std::fmt::{Display, Formatter};
use std::time::Clock;

/// The names of the months, as `HttpDate` writes them.
const MONTHS: &str = "JanFebMarAprMayJunJulAugSepOctNovDec";

/// Writes each log record as a line on standard error: the time in UTC, the level and the text.
#[derive(Clone, Copy, Drop)]
pub struct StampedLog<R>(pub R);

impl<R: Eprint + Clock> Log for StampedLog<R> {
    fn enabled(&self, _metadata: &Metadata<'_>) -> bool {
        true
    }

    fn log<D: Display, K: Source, S: Spans>(&self, record: &Record<'_, D, K, S>) {
        let (time, level, text) = (Time::now(&self.0), record.level().as_str(), record.args());
        let _ = eprintln!(self.0; "{time} {level} {text}");
    }

    fn flush(&self) {}

    fn target(&self) -> &str {
        ""
    }
}

/// A time in UTC. It is displayed as `2026-01-31T12:00:00Z`, or as `-` if it is not known.
#[derive(Clone, Copy)]
struct Time {
    date: Option<[u8; 29]>,
}

impl Time {
    /// The current time.
    fn now<R: Clock>(rt: &R) -> Time {
        let Ok(since) = rt.since_1970() else {
            return Time { date: None };
        };
        match HttpDate::from_unix_secs(since.as_secs()) {
            Ok(date) => Time {
                date: Some(date.to_bytes()),
            },
            Err(_) => Time { date: None },
        }
    }
}

/// The number of the month of this name, from 1.
fn month_of(name: &[u8]) -> usize {
    let mut number: usize = 1;
    for month in MONTHS.as_bytes().chunks(3) {
        if month == name {
            return number;
        }
        number = number.saturating_add(1);
    }
    number
}

impl Display for Time {
    fn fmt<W: fmt::Write>(&self, f: &mut Formatter<W>) -> fmt::Result {
        // The format is `Sat, 31 Jan 2026 12:00:00 GMT`.
        let Some(date) = &self.date else {
            return write!(f, "-");
        };
        let month = month_of(&date[8..11]);
        match (
            str::from_utf8(&date[12..16]),
            str::from_utf8(&date[5..7]),
            str::from_utf8(&date[17..25]),
        ) {
            (Ok(year), Ok(day), Ok(time)) => write!(f, "{year}-{month:02}-{day}T{time}Z"),
            _ => write!(f, "-"),
        }
    }
}
