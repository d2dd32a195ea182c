//! Lists longer than two stretches, against the numbers that they stand for.

use crate::list::SharedList;
use std::alloc::{AllocError, Global};
use std::test::Fail;

/// The numbers below this, in order.
fn numbers(alloc: Global, count: u32) -> Result<Vec<u32>, AllocError> {
    let mut numbers = Vec::new(alloc);
    for number in 0..count {
        numbers.push(number)?;
    }
    Ok(numbers)
}

/// Whether a list has exactly these numbers.
fn is_of(list: &SharedList<u32>, numbers: &[u32]) -> bool {
    if list.len() != numbers.len() {
        return false;
    }
    let mut all = true;
    for place in 0..list.len() {
        all = all && list.get(place) == &numbers[place];
    }
    all
}

#[test]
fn a_changed_list_leaves_the_other_as_it_was(rt: HostRuntime) -> Result<(), Fail> {
    let alloc = rt.alloc();
    let list = SharedList::of(alloc, numbers(alloc, 70)?)?;
    assert!(rt; is_of(&list, numbers(alloc, 70)?.as_slice()));
    assert!(rt; is_of(&list.copy(alloc)?, numbers(alloc, 70)?.as_slice()));
    assert!(rt; is_of(&list.pushed(alloc, 70)?, numbers(alloc, 71)?.as_slice()));
    for place in [0usize, 31, 32, 63, 64, 69] {
        if place < list.len() {
            let changed = list.with(alloc, place, 1000)?;
            let mut wanted = numbers(alloc, 70)?;
            if place < wanted.len() {
                wanted[place] = 1000;
            }
            assert!(rt; is_of(&changed, wanted.as_slice()));
            let shorter = list.without(alloc, place)?;
            let mut wanted = numbers(alloc, 70)?;
            if place < wanted.len() {
                wanted.remove(place);
            }
            assert!(rt; is_of(&shorter, wanted.as_slice()));
        }
    }
    assert!(rt; is_of(&list, numbers(alloc, 70)?.as_slice()));
    assert!(rt; !list.is_empty());
    Ok(())
}
