//! Texts with numbers in them, made piece by piece: each place of a format takes long to prove.

use itoa::Buffer;

/// Adds words with a number behind each of them, and a last word.
pub fn add_words(text: &mut Vec<u8>, words: &[(&str, u64)], last: &str) -> Option<()> {
    for (word, number) in words {
        text.extend_from_slice(word.as_bytes()).ok()?;
        let mut digits = Buffer::new();
        text.extend_from_slice(digits.format(*number).as_bytes())
            .ok()?;
    }
    text.extend_from_slice(last.as_bytes()).ok()
}
