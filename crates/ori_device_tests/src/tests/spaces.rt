// A partition of the cache, by values worked out by hand.
use ori_page::Page;
use ori_part::Part;
use std::alloc::Global;

// Makes a page of zeros dirty, where it has a place.
fn install(alloc: Global, part: &mut Part, page: u32) -> bool {
    let Ok(content) = Page::zeros(alloc) else {
        return false;
    };
    if !part.has_place(page) {
        return false;
    }
    part.install(page, content);
    true
}

fn holds(part: &mut Part, page: u32) -> bool {
    part.get(page).is_some()
}

// Makes a page of zeros the first clean one, where none is held.
fn keep(alloc: Global, part: &mut Part, page: u32) -> bool {
    let Ok(content) = Page::zeros(alloc) else {
        return false;
    };
    if part.get(page).is_some() {
        return false;
    }
    part.keep(page, content).is_none()
}

// Places for pages 8, 16 and 24, of which 16 is dirty, and page 0 clean.
fn fill(alloc: Global, part: &mut Part) -> bool {
    for page in [8, 16, 24] {
        if part.reserve(page).is_err() {
            return false;
        }
    }
    keep(alloc, part, 0) && install(alloc, part, 16)
}

// Of pages 0, 8, 16 and 24, whether each has a place.
fn places(part: &Part) -> [bool; 4] {
    [
        part.has_place(0),
        part.has_place(8),
        part.has_place(16),
        part.has_place(24),
    ]
}

#[test]
fn a_place_without_a_dirty_page_goes(rt: HostRuntime) {
    let Ok(mut part) = Part::empty(rt.alloc()) else {
        panic!(rt; "out of memory")
    };
    assert!(rt; fill(rt.alloc(), &mut part));
    assert!(rt; places(&part) == [false, true, true, true]);
    assert!(rt; part.next_unwritten() == Some(16));
    part.trim();
    assert!(rt; places(&part) == [false, false, true, false]);
    assert!(rt; part.next_unwritten() == Some(16));
}

// The dirty page 8, and one clean page more than are kept, from page 1,000 on.
fn overfill(alloc: Global, part: &mut Part) -> bool {
    let mut done = part.reserve(8).is_ok() && install(alloc, part, 8);
    for page in 1000..1513 {
        done = keep(alloc, part, page) && done;
    }
    done
}

#[test]
fn clean_pages_go_and_dirty_ones_stay(rt: HostRuntime) {
    let Ok(mut part) = Part::empty(rt.alloc()) else {
        panic!(rt; "out of memory")
    };
    assert!(rt; overfill(rt.alloc(), &mut part));
    for (page, is_held) in [(8, true), (1000, false), (1001, true), (1512, true)] {
        assert!(rt; holds(&mut part, page) == is_held, "page {page}");
    }
}

// Notes that the next unwritten page is written.
fn write_next(part: &mut Part) -> Option<u32> {
    let page = part.next_unwritten()?;
    part.mark_written(page);
    Some(page)
}

#[test]
fn a_written_page_is_clean_once_it_is_settled(rt: HostRuntime) {
    let Ok(mut part) = Part::empty(rt.alloc()) else {
        panic!(rt; "out of memory")
    };
    assert!(rt; fill(rt.alloc(), &mut part));
    assert!(rt; write_next(&mut part) == Some(16));
    assert!(rt; write_next(&mut part) == None);
    part.settled();
    part.trim();
    assert!(rt; places(&part) == [false; 4]);
    assert!(rt; holds(&mut part, 16));
}
