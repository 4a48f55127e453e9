//! The words that a process was given.

use std::alloc::AllocError;
use std::env::FillError;
use std::rt::Env;

/// Most words are shorter.
const WORD_ROOM: usize = 256;

/// The words after the program's own name, which may be any bytes.
pub(crate) fn process_words<P: Env + AllocGlobal>(rt: &P) -> Result<Vec<Vec<u8>>, AllocError> {
    let mut words = Vec::new(rt.alloc());
    for index in 1..usize::MAX {
        let Some(word) = word_at(rt, index)? else {
            break;
        };
        words.push(word)?;
    }
    Ok(words)
}

// Doubles the room until the word fits.
fn word_at<P: Env + AllocGlobal>(rt: &P, index: usize) -> Result<Option<Vec<u8>>, AllocError> {
    let mut word = Vec::new(rt.alloc());
    let mut room = WORD_ROOM;
    for _ in 0..usize::BITS {
        word.resize(room, 0u8)?;
        match rt.arg(index, word.as_mut_slice()) {
            Ok(len) => {
                word.truncate(len);
                return Ok(Some(word));
            }
            Err(FillError::NotPresent) => return Ok(None),
            Err(FillError::TooLong) => room = room.saturating_mul(2),
        }
    }
    Err(AllocError)
}
