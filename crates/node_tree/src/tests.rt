use crate::{OwnedList, ReadFault, WriteFault};
use std::alloc::AllocError;
use std::test::Fail;

#[test]
fn a_list_keeps_its_items_in_order(rt: HostRuntime) -> Result<(), Fail> {
    let alloc = rt.alloc();
    let mut list = OwnedList::new(alloc);
    assert!(rt; list.is_empty());
    for number in [3u16, 1, 2] {
        list.push(number)?;
    }
    assert_eq!(rt; list.as_slice(), [3, 1, 2].as_slice());
    assert_eq!(rt; list.len(), 3);
    assert!(rt; !list.is_empty());
    Ok(())
}

#[test]
fn a_list_is_made_from_a_vec_and_gives_it_back(rt: HostRuntime) -> Result<(), Fail> {
    let alloc = rt.alloc();
    let list = OwnedList::from_vec(Vec::from_slice(alloc, &[5u8, 6])?);
    assert_eq!(rt; list.into_vec().as_slice(), [5u8, 6].as_slice());
    let copied = OwnedList::from_slice(alloc, &[7u8, 8, 9])?;
    assert_eq!(rt; copied.as_slice(), [7u8, 8, 9].as_slice());
    Ok(())
}

#[test]
fn want_of_memory_is_a_fault_of_its_own(rt: HostRuntime) {
    assert_eq!(rt; ReadFault::from(AllocError), ReadFault::NoMemory);
    assert_eq!(rt; WriteFault::from(AllocError), WriteFault::NoMemory);
}
