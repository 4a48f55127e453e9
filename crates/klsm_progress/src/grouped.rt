//! Numbers that are easy to read.

use std::fmt;

/// A number that is shown in groups of three digits, as 1,000,000.
#[derive(Clone, Copy, Debug, PartialEq, Eq)]
pub struct Grouped(pub u64);

/// The unit of each group, the greatest that a number can have first: 2^64 is 18 of these.
const UNITS: [u64; 7] = [
    1_000_000_000_000_000_000,
    1_000_000_000_000_000,
    1_000_000_000_000,
    1_000_000_000,
    1_000_000,
    1_000,
    1,
];

impl fmt::Display for Grouped {
    fn fmt<W: fmt::Write>(&self, f: &mut fmt::Formatter<W>) -> fmt::Result {
        let mut is_begun = false;
        for unit in &UNITS {
            let group = self.0 / *unit % 1000;
            if is_begun {
                write!(f, ",{group:03}")?;
            } else if group > 0 || *unit == 1 {
                write!(f, "{group}")?;
                is_begun = true;
            }
        }
        Ok(())
    }
}
