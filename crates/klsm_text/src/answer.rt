//! The answers to a script's rows, and their text.
ghost use Rattle.std.specs.Prelude.{◌≡◌};
ghost use Rattle.klsm_text.specs.AnswerText.{answer_text};
ghost use Rattle.klsm_text.specs.LineText.{BeginsWithin, made};

use crate::line_text::LineText;
use klsm_run::Item;

/// What the queue answers to a row.
#[derive(Clone, Copy)]
pub enum Answer {
    /// This item was accepted.
    Inserted(Item),
    /// This item was deleted.
    Deleted(Item),
    /// There was nothing to delete.
    Nothing,
}

/// An answer, and the thread whose row it answers.
#[derive(Clone, Copy)]
pub struct Line {
    pub thread: u32,
    pub answer: Answer,
}

/// A line as it is printed: with the number of smaller live items that its deletion skipped.
#[derive(Clone, Copy)]
pub struct Printed {
    pub line: Line,
    pub skip: usize,
}

impl Printed {
    /// The line as it goes out.
    pub fn text(&self) -> LineText
        ensures within { BeginsWithin result }
        ensures text { made result
            ≡ answer_text self.now.line.thread self.now.line.answer self.now.skip }
    {
        let mut text = LineText::new();
        match self.line.answer {
            Answer::Inserted(item) => {
                text.prepend(b"\n");
                text.prepend_stamp(item.stamp);
                text.prepend(b" ");
                text.prepend_number(item.key);
                text.prepend(b" i ");
            }
            Answer::Deleted(item) => {
                text.prepend(b"\n");
                text.prepend_number(self.skip as u64);
                text.prepend(b" skip ");
                text.prepend_number(item.load);
                text.prepend(b" load ");
                text.prepend_stamp(item.stamp);
                text.prepend(b" ");
                text.prepend_number(item.key);
                text.prepend(b" d ");
            }
            Answer::Nothing => text.prepend(b" d none\n"),
        }
        text.prepend_number(self.line.thread as u64);
        text
    }
}
