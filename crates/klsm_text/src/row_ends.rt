//! A reader that knows how far the whole rows among its bytes go.
ghost use Rattle.std.specs.Prelude.{◌≡◌};

use std::io;
use std::io::Read;

const QUOTE: u8 = b'"';

/// Hands on the bytes of a reader as they are, and remembers where the last whole row among them
/// ends.
#[derive(Drop)]
pub(crate) struct RowEnds<R> {
    inner: R,
    /// How many bytes were handed on.
    given: u64,
    /// How many of them there are up to the last one that belongs to a row and that a line end follows.
    whole_rows_end: u64,
    /// Where the next of them stands.
    place: Place,
}

impl<R> RowEnds<R> {
    pub(crate) fn new(inner: R) -> Self
        ensures { result.inner ≡ inner }
    {
        RowEnds {
            inner,
            given: 0,
            whole_rows_end: 0,
            place: Place {
                in_row: false,
                field: Field::Outside,
            },
        }
    }

    /// Up to which byte the rows are whole at least.
    pub(crate) fn whole_rows_end(&self) -> u64
        ensures { result ≡ self.now.whole_rows_end }
    {
        self.whole_rows_end
    }

    // Looks at the bytes that are handed on next.
    fn note(&mut self, chunk: &[u8])
        ensures { self.new.inner ≡ self.old.inner }
    {
        if let Some(end) = self.place.go_on(chunk) {
            self.whole_rows_end = self.given.saturating_add(end as u64);
        }
        self.given = self.given.saturating_add(chunk.len() as u64);
    }
}

impl<R: Read> Read for RowEnds<R> {
    ghost remaining = { λ ends. R.remaining ends.inner };

    fn read(&mut self, buf: &mut [u8]) -> io::Result<usize> {
        let count = self.inner.read(buf)?;
        self.note(&buf[..count]);
        Ok(count)
    }
}

/// Where a byte stands among rows and fields.
#[derive(Clone, Copy)]
struct Place {
    /// Whether the byte before it belongs to a row, and is no line end.
    in_row: bool,
    field: Field,
}

/// Where a byte stands in a field, for what a quote and a line end mean there.
#[derive(Clone, Copy, PartialEq, Eq)]
enum Field {
    /// At its start, or right behind a quote that ended quotes: a quote here begins quotes.
    Outside,
    /// In one that began without a quote, where a quote is a byte like any other.
    Plain,
    /// Within quotes, where a line end belongs to the field.
    Quoted,
}

impl Place {
    // Goes on behind a chunk, and answers how many bytes of it there are up to the last one that
    // belongs to a row and that a line end follows.
    fn go_on(&mut self, chunk: &[u8]) -> Option<usize> {
        if self.field == Field::Quoted || chunk.contains(&QUOTE) {
            self.follow(chunk)
        } else {
            self.skip(chunk)
        }
    }

    // Byte by byte.
    fn follow(&mut self, chunk: &[u8]) -> Option<usize> {
        let mut end = None;
        for index in 0..chunk.len() {
            let byte = chunk[index];
            let ends_row = self.field != Field::Quoted && is_line_end(byte);
            if ends_row && self.in_row {
                end = Some(index);
            }
            self.in_row = !ends_row;
            self.field = self.field.behind(byte);
        }
        end
    }

    // Without a look at more than the last row. No byte of the chunk is in quotes.
    fn skip(&mut self, chunk: &[u8]) -> Option<usize> {
        let end = last_row_end(chunk, self.in_row);
        if let Some(last) = chunk.last() {
            self.in_row = !is_line_end(*last);
            self.field = self.field.behind(*last);
        }
        end
    }
}

impl Field {
    // Where the byte behind this one stands, by the rules of the library `csv`.
    fn behind(self, byte: u8) -> Field {
        match (self, byte) {
            (Field::Quoted, QUOTE) => Field::Outside,
            (Field::Quoted, _) => Field::Quoted,
            (Field::Outside, QUOTE) => Field::Quoted,
            (_, b',' | b'\r' | b'\n') => Field::Outside,
            _ => Field::Plain,
        }
    }
}

// How many bytes of the chunk there are up to the last one that is no line end and that a line end
// follows. `in_row` says whether the byte before the chunk is no line end.
fn last_row_end(chunk: &[u8], in_row: bool) -> Option<usize> {
    let mut is_followed = false;
    for index in (0..chunk.len()).rev() {
        let is_end = is_line_end(chunk[index]);
        if is_followed && !is_end {
            return Some(index + 1);
        }
        is_followed = is_end;
    }
    if is_followed && in_row { Some(0) } else { None }
}

fn is_line_end(byte: u8) -> bool {
    matches!(byte, b'\r' | b'\n')
}
