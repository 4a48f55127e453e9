//! The totals of a script that was run by threads, and their line.
ghost use Rattle.std.specs.Prelude.{◌≡◌};
ghost use Rattle.klsm_text.specs.TotalsText.{totals_text};
ghost use Rattle.klsm_text.specs.LineText.{BeginsWithin, made};

use crate::line_text::LineText;

/// How many items were inserted, how many of them deleted, and how many are left.
#[derive(Clone, Copy)]
pub struct Totals {
    pub inserted: u64,
    pub deleted: u64,
    pub left: u64,
}

impl Totals {
    /// The line as it goes out.
    pub fn text(&self) -> LineText
        ensures within { BeginsWithin result }
        ensures text { made result ≡ totals_text self.now }
    {
        let mut text = LineText::new();
        text.prepend(b"\n");
        text.prepend_number(self.left);
        text.prepend(b" left ");
        text.prepend_number(self.deleted);
        text.prepend(b" deleted ");
        text.prepend_number(self.inserted);
        text.prepend(b"inserted ");
        text
    }
}
