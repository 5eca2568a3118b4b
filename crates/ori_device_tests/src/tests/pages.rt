// Pages in memory and their list of free pages, by values worked out by hand.
use ori_bytes::limits::FREE_KIND;
use ori_page::{MemPages, Page, PageSpace};

// A page, where there is one with this number.
fn looked(space: &mut MemPages, page: u32) -> Option<Page> {
    if page >= space.count() {
        return None;
    }
    match space.read(page) {
        Ok(content) => Some(content),
        Err(_) => None,
    }
}

// Whether a page was in use, and is free from then on; none where a call fails.
fn released(space: &mut MemPages, page: u32) -> Option<bool> {
    if page == 0 || page >= space.count() {
        return Some(false);
    }
    let Ok(content) = space.read(page) else {
        return None;
    };
    if content.kind() == FREE_KIND {
        return Some(false);
    }
    match space.release(page) {
        Ok(()) => Some(true),
        Err(_) => None,
    }
}

// The head's count, its first free page and the number of them.
fn head(space: &mut MemPages) -> Option<(u32, u32, u32)> {
    match looked(space, 0) {
        Some(page) => Some((page.u32_at(12), page.u32_at(16), page.u32_at(20))),
        None => None,
    }
}

// Whether a page begins with these bytes.
fn begins(space: &mut MemPages, page: u32, front: &[u8]) -> bool {
    match looked(space, page) {
        Some(page) => page.bytes().starts_with(front),
        None => false,
    }
}

// Three pages are taken, and the first two of them are released, the second one last.
fn free_two(space: &mut MemPages) -> bool {
    for _ in 0..3 {
        if space.fresh(65_537, 5).is_err() {
            return false;
        }
    }
    released(space, 1) == Some(true) && released(space, 2) == Some(true)
}

// The owner of free pages is 3 and their kind 0, and the number of the next one stands at byte 8.
#[test]
fn free_pages_are_listed(rt: HostRuntime) {
    let Ok(mut space) = MemPages::empty(rt.alloc()) else {
        panic!(rt; "out of memory")
    };
    assert!(rt; free_two(&mut space));
    assert!(rt; space.count() == 4 && space.reads() == 2);
    assert!(rt; head(&mut space) == Some((4, 2, 2)));
    for (page, front) in [
        (1, [0, 0, 0, 3, 0, 0, 0, 0, 0, 0, 0, 0]),
        (2, [0, 0, 0, 3, 0, 0, 0, 0, 0, 0, 0, 1]),
        (3, [0, 1, 0, 1, 5, 0, 0, 0, 0, 0, 0, 0]),
    ] {
        assert!(rt; begins(&mut space, page, &front), "page {page}");
    }
}

// Whether this page is taken next, and the head is then so.
fn takes(space: &mut MemPages, page: u32, want: (u32, u32, u32)) -> bool {
    space.fresh(131_072, 6) == Ok(page)
        && head(space) == Some(want)
        && begins(space, page, &[0, 2, 0, 0, 6, 0, 0, 0, 0, 0, 0, 0])
}

// The one that was released last is taken first, and a new page only after the free ones.
#[test]
fn free_pages_are_taken_again(rt: HostRuntime) {
    let Ok(mut space) = MemPages::empty(rt.alloc()) else {
        panic!(rt; "out of memory")
    };
    assert!(rt; free_two(&mut space));
    for (page, want) in [(2, (4, 1, 1)), (1, (4, 0, 0)), (4, (5, 0, 0))] {
        assert!(rt; takes(&mut space, page, want), "page {page}");
    }
}

// The head and a free page are no pages that can be released.
#[test]
fn others_are_not_released(rt: HostRuntime) {
    let Ok(mut space) = MemPages::empty(rt.alloc()) else {
        panic!(rt; "out of memory")
    };
    assert!(rt; free_two(&mut space));
    for page in [0, 1, 2, 4] {
        assert!(rt; released(&mut space, page) == Some(false), "page {page}");
    }
}
