//! The program on its words, the first of which is its name, and words that are no command.

use klsm_tool::run_words;
use std::alloc::Global;
use std::sync::Wait;
use std::thread::Threads;

/// Words, an input, the status, and all that the program writes.
pub(super) type Expected = (&'static [&'static str], &'static [u8], u8, &'static [u8]);

// The words as the program takes them.
fn words_of(alloc: Global, words: &[&str]) -> Option<Vec<String>> {
    let mut all = Vec::new(alloc);
    for word in words {
        all.push(String::from_str(alloc, *word).ok()?).ok()?;
    }
    Some(all)
}

// The status and the text of a run.
fn run(
    rt: &(impl AllocGlobal + Wait + Threads + Sync),
    words: &[&str],
    input: &[u8],
) -> Option<(u8, Vec<u8>)> {
    let words = words_of(rt.alloc(), words)?;
    let mut text = Vec::new(rt.alloc());
    let status: u8 = run_words(rt, words.as_slice(), input, &mut text);
    Some((status, text))
}

/// Whether the program returns this status, and writes this text and no more.
pub(super) fn runs_as(
    rt: &(impl AllocGlobal + Wait + Threads + Sync),
    (words, input, status, text): Expected,
) -> bool {
    match run(rt, words, input) {
        Some((found, written)) => found == status && written.as_slice() == text,
        None => false,
    }
}

// The status alone. The text is that of the library that reads the words.
fn status_of(rt: &(impl AllocGlobal + Wait + Threads + Sync), words: &[&str]) -> Option<u8> {
    let (status, _text) = run(rt, words, b"")?;
    Some(status)
}

#[test]
fn words_that_are_no_command(rt: HostRuntime) {
    assert!(rt; status_of(&rt, &["klsm", "replay", "--threads", "17"]) == Some(2));
    assert!(rt; status_of(&rt, &["klsm"]) == Some(2));
    assert!(rt; status_of(&rt, &["klsm", "--help"]) == Some(0));
}

#[test]
fn a_word_that_is_no_pick(rt: HostRuntime) {
    let words = &["klsm", "replay", "--pick", "middle"];
    assert!(rt; runs_as(&rt, (words, b"0,i,5,0\n", 2, b"refused: pick\n")));
}
