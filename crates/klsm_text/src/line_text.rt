//! The text of a line.
ghost use Rattle.std.specs.Prelude.{◌≡◌, ◌+◌, ◌≤◌, ◌++◌, [], length};
ghost use Rattle.std.specs.Fmt.{decimal};
ghost use Rattle.klsm_text.specs.AnswerText.{stamp_text};
ghost use Rattle.klsm_text.specs.LineText.{BeginsWithin, made};

use itoa::write_digits;
use klsm_run::Stamp;

/// The longest line has fewer bytes.
const LINE_ROOM: usize = 160;

/// A text that is made from its end on, as the digits of a number come out the last one first. So
/// each piece is written where it stays.
#[derive(Drop)]
pub struct LineText {
    bytes: [u8; LINE_ROOM],
    /// Where the text begins, which goes up to the end of the bytes.
    start: usize,
}

impl LineText {
    #[inline]
    pub(crate) fn new() -> Self
        ensures empty { made result ≡ [] }
        ensures start { result.start ≡ 160 }
    {
        LineText {
            bytes: [0; LINE_ROOM],
            start: LINE_ROOM,
        }
    }

    /// What was made so far.
    #[inline]
    pub fn as_bytes(&self) -> &[u8]
        requires { BeginsWithin self.now }
        ensures text { result.now ≡ made self.now }
        ensures short { length result.now ≤ 160 }
    {
        &self.bytes[self.start..]
    }

    /// Puts a piece of text before the text.
    #[inline]
    pub(crate) fn prepend(&mut self, piece: &[u8])
        requires { (length piece.now ≤ self.old.start) × (self.old.start ≤ 160) }
        ensures start { self.new.start + length piece.now ≡ self.old.start }
        ensures text { made self.new ≡ piece.now ++ made self.old }
    {
        let start = self.start - piece.len();
        self.bytes[start..self.start].copy_from_slice(piece);
        self.start = start;
    }

    /// Puts a number before the text.
    #[inline]
    pub(crate) fn prepend_number(&mut self, number: u64)
        requires { (20 ≤ self.old.start) × (self.old.start ≤ 160) }
        ensures start { (self.old.start ≤ self.new.start + 20) × (self.new.start ≤ self.old.start) }
        ensures text { made self.new ≡ decimal number ++ made self.old }
    {
        self.start = write_digits(number, &mut self.bytes, self.start);
    }

    /// Puts a stamp before the text: the owner, a dot and the number.
    #[inline]
    pub(crate) fn prepend_stamp(&mut self, stamp: Stamp)
        requires { (41 ≤ self.old.start) × (self.old.start ≤ 160) }
        ensures start { (self.old.start ≤ self.new.start + 41) × (self.new.start ≤ self.old.start) }
        ensures text { made self.new ≡ stamp_text stamp ++ made self.old }
    {
        self.prepend_number(stamp.number);
        self.prepend(b".");
        self.prepend_number(stamp.owner as u64);
    }
}
