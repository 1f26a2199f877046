//! A list of blocks that grows from one block to the next.
use block_list::BlockList;
use std::alloc::{AllocError, Global};
use std::test::Fail;

// The numbers from 0 on, as many as these.
fn numbers(alloc: Global, count: usize) -> Result<BlockList<usize>, AllocError> {
    let mut made = BlockList::new(alloc);
    for number in 0..count {
        made.reserve()?;
        made.push_reserved(number);
    }
    Ok(made)
}

#[test]
fn numbers_are_read_back(rt: HostRuntime) -> Result<(), Fail> {
    for count in [0, 1, 1023, 1024, 1025, 2048, 2049] {
        let made = numbers(rt.alloc(), count)?;
        assert_eq!(rt; made.len(), count);
        for index in 0..made.len() {
            assert_eq!(rt; *made.at(index), index);
        }
    }
    Ok(())
}
