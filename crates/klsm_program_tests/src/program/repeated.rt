//! Many lines of an input or of an answer.

use std::alloc::Global;

/// This line so often.
pub(super) fn repeated(alloc: Global, line: &[u8], count: usize) -> Option<Vec<u8>> {
    let mut lines = Vec::new(alloc);
    add(&mut lines, line, count)?;
    Some(lines)
}

fn add(lines: &mut Vec<u8>, line: &[u8], count: usize) -> Option<()> {
    for _ in 0..count {
        lines.extend_from_slice(line).ok()?;
    }
    Some(())
}
