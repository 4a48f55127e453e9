//! Inputs and outputs that give and take little at a time, and may fail.

use std::alloc::Global;
use std::io;
use std::io::{Error, ErrorKind, Read, Write};

/// Gives its bytes, so many at a time, and then ends or fails.
#[derive(Drop)]
pub struct Input<'a> {
    pub left: &'a [u8],
    pub at_a_time: usize,
    pub fails: bool,
}

impl<'a> Input<'a> {
    /// These bytes, many at a time, and then a failure.
    pub fn failing(bytes: &'a [u8]) -> Self {
        Input {
            fails: true,
            ..Input::whole(bytes)
        }
    }

    /// These bytes, many at a time, and then the end.
    pub fn whole(bytes: &'a [u8]) -> Self {
        Input {
            left: bytes,
            at_a_time: 4096,
            fails: false,
        }
    }
}

impl Read for Input<'_> {
    fn read(&mut self, buf: &mut [u8]) -> io::Result<usize> {
        if self.left.is_empty() && self.fails {
            return Err(Error::from(ErrorKind::Other));
        }
        let count = self.left.len().min(buf.len()).min(self.at_a_time);
        let (front, rest) = self.left.split_at(count);
        buf[..count].copy_from_slice(front);
        self.left = rest;
        Ok(count)
    }
}

/// Takes so many bytes, a few at a time, and then fails, or else takes nothing.
#[derive(Drop)]
pub struct Output {
    pub taken: Vec<u8>,
    pub room: usize,
    pub at_a_time: usize,
    pub fails: bool,
    /// How many writes were refused.
    pub refused: u32,
}

impl Output {
    /// One that takes all, many at a time.
    pub fn ample(alloc: Global) -> Self {
        Output {
            taken: Vec::new(alloc),
            room: usize::MAX,
            at_a_time: 4096,
            fails: true,
            refused: 0,
        }
    }

    /// One that takes five bytes at a time, and refuses after so many.
    pub fn refusing(alloc: Global, room: usize, fails: bool) -> Self {
        Output {
            taken: Vec::new(alloc),
            room,
            at_a_time: 5,
            fails,
            refused: 0,
        }
    }

    /// Whether it has as many bytes as there was room for, the first of them those of a text.
    pub fn is_filled_by(&self, text: &[u8]) -> bool {
        let first = text.get(..self.room).unwrap_or(text);
        self.taken.len() == self.room && self.taken.as_slice().starts_with(first)
    }
}

impl Write for Output {
    fn write(&mut self, buf: &[u8]) -> io::Result<usize> {
        let left = self.room.saturating_sub(self.taken.len());
        let count = buf.len().min(left).min(self.at_a_time);
        if count == 0 && !buf.is_empty() {
            self.refused = self.refused.saturating_add(1);
            if self.fails {
                return Err(Error::from(ErrorKind::Other));
            }
            return Ok(0);
        }
        self.taken.extend_from_slice(&buf[..count])?;
        Ok(count)
    }

    fn flush(&mut self) -> io::Result<()> {
        Ok(())
    }
}
