//! That the allocator of the tests grants what it was told to, and refuses what comes after.

use klsm_test_support::Rationed;
use std::alloc::Global;

// Whether four places are granted.
fn grants_four(heap: &Rationed<Global>) -> bool {
    Vec::<u64, _>::with_capacity(heap, 4).is_ok()
}

fn pushes<'a>(numbers: &mut Vec<u64, &'a Rationed<Global>>, number: u64) -> bool {
    numbers.push(number).is_ok()
}

// Puts two numbers into a place and one more, which is refused once and then granted.
fn grows<'a>(heap: &'a Rationed<Global>, numbers: &mut Vec<u64, &'a Rationed<Global>>) -> bool {
    let granted = pushes(numbers, 7) && !heap.has_refused();
    let refused = !pushes(numbers, 8) && heap.has_refused();
    heap.allow(u64::MAX);
    granted && refused && pushes(numbers, 8)
}

// Whether one place is granted and a second one refused, and all are granted after that.
fn grants_as_told(heap: &Rationed<Global>) -> Option<bool> {
    heap.allow(1);
    let mut numbers = Vec::with_capacity(heap, 1).ok()?;
    let grows = grows(heap, &mut numbers);
    let more = grants_four(heap) && !heap.has_refused();
    Some(grows && more && numbers.as_slice() == [7, 8].as_slice())
}

#[test]
fn grants_run_out(rt: HostRuntime) {
    let heap = Rationed::new(rt.alloc());
    heap.allow(0);
    assert!(rt; !grants_four(&heap) && heap.has_refused());
    assert!(rt; grants_as_told(&heap) == Some(true));
}
