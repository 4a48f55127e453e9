//! What a terminal says with a refusal.

use std::{fmt, str};

/// The most bytes of a field that are shown.
const SHOWN: usize = 60;

/// One line for a user who watches: which row and field are meant, what that holds, and what was
/// expected.
#[derive(Clone, Copy, Debug)]
pub struct Hint<'a> {
    /// The number of the row, from 1, or 0 where the hint is about none.
    pub row: u64,
    /// The number of the field, from 1, or 0 where the hint is about the whole row.
    pub field: u32,
    /// What the field holds.
    pub holds: &'a [u8],
    /// What was expected, or what to do.
    pub advice: &'static str,
}

impl Hint<'_> {
    /// A hint that is about no row.
    pub fn of(advice: &'static str) -> Hint<'static> {
        Hint {
            row: 0,
            field: 0,
            holds: b"",
            advice,
        }
    }
}

impl fmt::Display for Hint<'_> {
    fn fmt<W: fmt::Write>(&self, f: &mut fmt::Formatter<W>) -> fmt::Result {
        if self.row > 0 {
            write!(f, "row {}", self.row)?;
            if self.field > 0 {
                write!(f, ", field {} is ", self.field)?;
                self.show_field(f)?;
            }
            f.write_str(": ")?;
        }
        f.write_str(self.advice)
    }
}

impl Hint<'_> {
    // What the field holds, with escapes for what a terminal would obey.
    fn show_field<W: fmt::Write>(&self, f: &mut fmt::Formatter<W>) -> fmt::Result {
        if self.holds.len() > SHOWN {
            return write!(f, "{} bytes long", self.holds.len());
        }
        match str::from_utf8(self.holds) {
            Ok(text) => write!(f, "{text:?}"),
            Err(_) => f.write_str("not UTF-8"),
        }
    }
}
