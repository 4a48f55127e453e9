//! Why no further row is answered, and the line that says so.
ghost use Rattle.std.specs.Prelude.{◌≡◌, ◌≤◌, length};
ghost use Rattle.klsm_text.specs.AnswerText.{row_text};
ghost use Rattle.klsm_text.specs.LineText.{BeginsWithin, made};

use crate::line_text::LineText;
use crate::report::End;
use crate::request::Refusal;

/// Why no further row is answered.
#[derive(Clone, Copy, PartialEq, Eq)]
pub enum Stop {
    /// There is no further row.
    AtEnd,
    /// The next row is refused.
    Refused(Refusal),
    /// A growth was refused.
    NoMemory,
    /// The reader failed.
    ReadFault,
    /// The writer failed.
    WriteFault,
}

impl Stop {
    ghost use Rattle.std.specs.Prelude.{◌≡◌};
    ghost use Rattle.klsm_text.specs.Reports.{end_of};

    /// The end of a run that stopped so.
    pub fn end(self) -> End
        ensures { result ≡ end_of self }
    {
        match self {
            Stop::AtEnd => End::Done,
            Stop::Refused(_) => End::Refused,
            Stop::NoMemory => End::NoMemory,
            Stop::ReadFault => End::ReadFault,
            Stop::WriteFault => End::WriteFault,
        }
    }
}

/// The line that says that memory is wanted.
pub const NO_MEMORY: &[u8] = b"no memory\n";

/// The line of a row that is refused, with the word for what is wrong with it.
pub(crate) fn refused_row(row: u64, word: &[u8]) -> LineText
    requires { length word.now ≤ 20 }
    ensures within { BeginsWithin result }
    ensures text { made result ≡ row_text row word.now }
{
    let mut text = LineText::new();
    text.prepend(b"\n");
    text.prepend(word);
    text.prepend(b": ");
    text.prepend_number(row);
    text.prepend(b"refused row ");
    text
}

/// The last line of a text.
#[derive(Clone, Copy)]
pub struct Closing {
    /// Why there is no further answer.
    pub stop: Stop,
    /// The number of the row that is not answered.
    pub row: u64,
    /// The greatest number of items that a deletion skipped.
    pub most: usize,
    /// What that number may not exceed.
    pub bound: usize,
}

impl Closing {
    ghost use Rattle.std.specs.Prelude.{◌≡◌};
    ghost use Rattle.klsm_text.specs.AnswerText.{closing_text};
    ghost use Rattle.klsm_text.specs.LineText.{BeginsWithin, made};

    /// That of a run which prints no skips.
    pub fn at(stop: Stop, row: u64) -> Closing
        ensures stop { result.stop ≡ stop }
        ensures row { result.row ≡ row }
    {
        Closing {
            stop,
            row,
            most: 0,
            bound: 0,
        }
    }

    /// The line as it goes out.
    pub fn text(&self) -> LineText
        ensures within { BeginsWithin result }
        ensures text { made result
            ≡ closing_text self.now.row self.now.most self.now.bound self.now.stop }
    {
        let mut text = LineText::new();
        match self.stop {
            Stop::AtEnd => {
                text.prepend(b"\n");
                text.prepend_number(self.bound as u64);
                text.prepend(b" bound ");
                text.prepend_number(self.most as u64);
                text.prepend(b"max skip ");
            }
            Stop::Refused(why) => return refused_row(self.row, why.word()),
            Stop::NoMemory => text.prepend(NO_MEMORY),
            Stop::ReadFault => text.prepend(b"read fault\n"),
            Stop::WriteFault => {}
        }
        text
    }
}
