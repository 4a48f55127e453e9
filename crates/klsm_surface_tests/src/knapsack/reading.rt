//! Rows of an instance that are refused, and inputs that fail.

use klsm_knapsack::{Instance, ReadError};
use klsm_test_support::Input;
use std::alloc::{AllocError, Global};

fn refusal(alloc: Global, text: &[u8]) -> Option<ReadError> {
    Instance::read(alloc, text).err()
}

const REFUSED: [(&[u8], ReadError); 13] = [
    (b"", ReadError::BadRow(1)),
    (b"cap,10", ReadError::BadRow(1)),
    (b"capacity,x", ReadError::BadNumber(1)),
    (b"capacity,+1", ReadError::BadNumber(1)),
    (b"capacity,18446744073709551616", ReadError::BadNumber(1)),
    (b"capacity,10\n0,5", ReadError::OutOfRange(2)),
    (b"capacity,10\n5", ReadError::BadRow(2)),
    (b"capacity,1000000001", ReadError::OutOfRange(1)),
    (b"capacity,10,", ReadError::BadRow(1)),
    (b"capacity,10\n1000001,1", ReadError::OutOfRange(2)),
    (b"capacity,10\n1,0", ReadError::OutOfRange(2)),
    (b"capacity,10\n1,1000000001", ReadError::OutOfRange(2)),
    (b"capacity,10\n1,1\nx,1", ReadError::BadNumber(3)),
];

#[test]
fn a_row_is_refused_for_its_first_fault(rt: HostRuntime) {
    for (text, why) in REFUSED {
        assert!(rt; refusal(rt.alloc(), text) == Some(why));
    }
}

// Adds the first row, 32 things, and a last row.
fn add_rows(text: &mut Vec<u8>, last: &[u8]) -> Result<(), AllocError> {
    text.extend_from_slice(b"capacity,10\n")?;
    for _ in 0..32 {
        text.extend_from_slice(b"1,1\n")?;
    }
    text.extend_from_slice(last)
}

// Why an instance of 32 things and a last row is refused, if it is.
fn refusal_of_last(alloc: Global, last: &[u8]) -> Result<Option<ReadError>, AllocError> {
    let mut text = Vec::new(alloc);
    add_rows(&mut text, last)?;
    Ok(refusal(alloc, text.as_slice()))
}

#[test]
fn the_fields_of_a_33rd_thing_are_judged_first(rt: HostRuntime) -> Result<(), AllocError> {
    assert!(rt; refusal_of_last(rt.alloc(), b"1,1\n")? == Some(ReadError::TooMany));
    assert!(rt; refusal_of_last(rt.alloc(), b"1")? == Some(ReadError::BadRow(34)));
    assert!(rt; refusal_of_last(rt.alloc(), b"")? == None);
    Ok(())
}

// How reading ends if the input fails after these bytes.
fn refusal_of_failing(alloc: Global, left: &[u8]) -> Option<ReadError> {
    Instance::read(alloc, Input::failing(left)).err()
}

#[test]
fn an_input_that_fails_is_a_read_fault(rt: HostRuntime) {
    assert!(rt; refusal_of_failing(rt.alloc(), b"") == Some(ReadError::ReadFault));
    assert!(rt;
        refusal_of_failing(rt.alloc(), b"capacity,10\n60,5\n") == Some(ReadError::ReadFault)
    );
}
