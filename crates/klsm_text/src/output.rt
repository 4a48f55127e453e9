//! The text that goes out: kept line by line, and sent many lines at a time.
ghost use Rattle.std.specs.Prelude.{◌≡◌, ◌+◌, ◌<◌, ◌≤◌, ◌^◌, length, take};
ghost use Rattle.std.specs.Io.KnownBytes.{Appends};
ghost use Rattle.std.specs.Vec.{vec_capacity};
ghost use Rattle.klsm_text.specs.Reports.{GoesOrFails};

use crate::report::{End, Report};
use crate::stop::{Closing, Stop};
use std::alloc::{AllocError, Global};
use std::io::Write;

/// So many bytes at most are pending.
const ROOM: usize = 65_536;

/// How much was written so far, and what is still to go out.
#[derive(Drop)]
pub struct Output {
    pub written: u64,
    buffer: Vec<u8>,
    ghost room: { 65536 ≤ vec_capacity buffer },
}

impl Output {
    ghost use Rattle.std.specs.Prelude.{◌≡◌, ◌+◌, ◌<◌, ◌≤◌, ◌^◌, [], length, IfOk};
    ghost use Rattle.klsm_text.specs.Output.{PutsText, FlushesText, Closes, pending, put_count};

    /// Room for the lines is reserved here, so that no line takes memory.
    pub fn new(alloc: Global) -> Result<Self, AllocError>
        ensures written { IfOk result (λ output. output.written ≡ 0) }
        ensures empty { IfOk result (λ output. pending output ≡ []) }
    {
        Ok(Output {
            written: 0,
            buffer: Vec::with_capacity(alloc, ROOM)?,
        })
    }

    /// Adds a line to what is pending, all of which is sent before where both have no room.
    pub fn put<W: Write>(&mut self, writer: &mut W, line: &[u8]) -> Result<(), Stop>
        requires count { put_count self.old + length line.now < 2 ^ 64 }
        requires short { length line.now ≤ 65536 }
        ensures { PutsText (W.contents writer.old) (W.contents writer.new) line.now self.old self.new
            result }
    {
        if self.buffer.len() + line.len() > ROOM {
            self.flush(writer)?;
        }
        if self.buffer.extend_from_slice(line).is_err() {
            unreachable!();
        }
        Ok(())
    }

    /// Sends all that is pending. Where the writer fails, the rest is dropped.
    pub fn flush<W: Write>(&mut self, writer: &mut W) -> Result<(), Stop>
        requires { put_count self.old < 2 ^ 64 }
        ensures { FlushesText (W.contents writer.old) (W.contents writer.new) self.old self.new
            result }
    {
        let out = write_text(writer, self.buffer.as_slice());
        let whole = out == self.buffer.len();
        self.written += out as u64;
        self.buffer.clear();
        if whole { Ok(()) } else { Err(Stop::WriteFault) }
    }

    /// Sends all that is pending and then the last line, and says how the run ended. After a write
    /// fault nothing more is written.
    pub fn close<W: Write>(&mut self, writer: &mut W, closing: Closing) -> Report
        requires { put_count self.old < 2 ^ 63 }
        ensures closes { Closes (W.contents writer.old) (W.contents writer.new) closing self.old
            result }
        ensures few { result.written ≤ put_count self.old + 160 }
    {
        if closing.stop == Stop::WriteFault {
            return Report {
                end: End::WriteFault,
                written: self.written,
            };
        }
        if let Err(stop) = self.flush(writer) {
            return Report {
                end: stop.end(),
                written: self.written,
            };
        }
        write_last(
            writer,
            closing.text().as_bytes(),
            self.written,
            closing.stop.end(),
        )
    }
}

/// Writes all of `text`, or stops at the first write that fails or takes nothing. Answers how many
/// bytes went out.
pub fn write_text<W: Write>(writer: &mut W, text: &[u8]) -> usize
    ensures within { result ≤ length text.now }
    ensures bytes { Appends (W.contents writer.old) (W.contents writer.new) (take result text.now) }
{
    let mut out = 0;
    while out < text.len() {
        match writer.write(&text[out..]) {
            Ok(0) | Err(_) => break,
            Ok(taken) => out += taken,
        }
    }
    out
}

/// Writes the last text of a run that ends so, after what was written before, and says how the run
/// ended.
pub fn write_last<W: Write>(writer: &mut W, text: &[u8], written: u64, end: End) -> Report
    requires { written + length text.now < 2 ^ 64 }
    ensures goes { GoesOrFails (W.contents writer.old) (W.contents writer.new) text.now written
        result.written end result.end }
    ensures few { result.written ≤ written + length text.now }
{
    let out = write_text(writer, text);
    let end = if out < text.len() {
        End::WriteFault
    } else {
        end
    };
    Report {
        end,
        written: written + out as u64,
    }
}
