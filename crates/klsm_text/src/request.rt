//! What a row of a script asks for, and why it may be refused.

/// What a row asks its thread to do.
#[derive(Clone, Copy)]
pub enum Operation {
    Insert { key: u64, load: u64 },
    Delete,
}

/// A row that is not refused.
#[derive(Clone, Copy)]
pub struct Request {
    pub thread: u32,
    pub operation: Operation,
}

/// What is wrong with a row, in the order in which it is judged.
#[derive(Clone, Copy, PartialEq, Eq)]
pub enum Refusal {
    /// It is one row too many.
    Rows,
    /// It has not four fields.
    Fields,
    /// The first field is no thread's number.
    Thread,
    /// The second field is neither `i` nor `d`.
    Operation,
    /// The third field is no key, or not empty.
    Key,
    /// The fourth field is no load, or not empty.
    Load,
}

impl Refusal {
    ghost use Rattle.std.specs.Prelude.{◌≡◌};
    ghost use Rattle.klsm_text.specs.AnswerText.{refusal_word};

    /// The word that stands for it in the text.
    pub(crate) fn word(self) -> &'static [u8]
        ensures { result.now ≡ refusal_word self }
    {
        match self {
            Refusal::Rows => b"rows",
            Refusal::Fields => b"fields",
            Refusal::Thread => b"thread",
            Refusal::Operation => b"operation",
            Refusal::Key => b"key",
            Refusal::Load => b"load",
        }
    }
}
