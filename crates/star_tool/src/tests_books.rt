// Books in memory.
use crate::tests_faults::REDS_BOOK;
use book_file::read_book;
use book_merge::records_of;
use std::test::*;

#[test]
fn a_book_in_memory_is_read(rt: HostRuntime) -> Result<(), Fail> {
    let found = read_book(rt.alloc(), REDS_BOOK)?;
    assert_eq!(rt; found.used, 315);
    assert_eq!(rt; found.book.total(), 2);
    assert_eq!(rt; records_of(rt.alloc(), &found.book)?.len(), 2);
    Ok(())
}
