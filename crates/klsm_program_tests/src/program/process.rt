//! A process with words of its own.

use std::env::FillError;
use std::io;
use std::rt::Env;
use std::sync::Wait;
use std::thread::Threads;
use std::time::{Clock, Duration};

/// A process that was given these words, of which the first is the program's path.
#[derive(Drop)]
pub(super) struct Process<'a, R> {
    /// Where threads are made and may wait, and whose clock they look at.
    pub rt: &'a R,
    pub words: &'a [&'a [u8]],
}

impl<R: Wait> Wait for Process<'_, R> {}

impl<R: Clock> Clock for Process<'_, R> {
    fn monotonic(&self) -> io::Result<Duration> {
        self.rt.monotonic()
    }

    fn since_1970(&self) -> io::Result<Duration> {
        self.rt.since_1970()
    }
}

impl<R: Threads> Threads for Process<'_, R> {}

impl<R> Env for Process<'_, R> {
    fn arg(&self, i: usize, buf: &mut [u8]) -> Result<usize, FillError> {
        let Some(word) = self.words.get(i) else {
            return Err(FillError::NotPresent);
        };
        if buf.len() < word.len() {
            return Err(FillError::TooLong);
        }
        buf[..word.len()].copy_from_slice(word);
        Ok(word.len())
    }

    fn var(&self, _name: &str, _buf: &mut [u8]) -> Result<usize, FillError> {
        Err(FillError::NotPresent)
    }

    fn var_at(&self, _i: usize, _buf: &mut [u8]) -> Result<usize, FillError> {
        Err(FillError::NotPresent)
    }
}
