// The volume in memory, by values worked out by hand, and a page.
use ori_bytes::{Blob, NoMemory};
use ori_page::Page;
use ori_volmem::{Image, MemVolume};
use ori_volume::{FileNo, Volume};
use std::alloc::Global;

// Two bytes are written at byte 2 of Pages and synced, two more at byte 1, and the file is cut to three bytes.
fn change(volume: &mut MemVolume) -> bool {
    volume.write_at(FileNo::Pages, 2, &[5, 6]).is_ok()
        && volume.sync(FileNo::Pages).is_ok()
        && volume.write_at(FileNo::Pages, 1, &[8, 9]).is_ok()
        && volume.cut(FileNo::Pages, 3).is_ok()
}

// Five bytes from the front of Pages, as they are read.
fn read_pages(volume: &mut MemVolume) -> Option<[u8; 5]> {
    let mut read = [7; 5];
    match volume.read_at(FileNo::Pages, 0, &mut read) {
        Ok(_) => Some(read),
        Err(_) => None,
    }
}

// Whether this image of a crash has these bytes in Pages.
fn leaves(volume: &MemVolume, pick: u64, pages: &[u8]) -> bool {
    match volume.crash(pick) {
        Ok(image) => image.pages.as_slice() == pages,
        Err(_) => false,
    }
}

#[test]
fn pages_change_as_on_a_disk(rt: HostRuntime) {
    let mut volume = MemVolume::empty(rt.alloc());
    assert!(rt; change(&mut volume));
    assert!(rt; read_pages(&mut volume) == Some([0, 8, 9, 0, 0]));
    assert!(rt; leaves(&volume, 0, &[0, 8, 9, 0]) && leaves(&volume, 1, &[0, 0, 0]));
    assert!(rt; volume.moment() == 4 && volume.calls() == 5 && volume.wants() == 0);
}

fn image(alloc: Global) -> Result<Image, NoMemory> {
    Ok(Image {
        master: Blob::from_slice(alloc, &[1])?,
        log_a: Blob::from_slice(alloc, &[2, 3])?,
        log_b: Blob::new(alloc),
        pages: Blob::from_slice(alloc, &[4, 5, 6])?,
    })
}

// Whether a crash that chooses byte 1 of LogA, which is written, leaves that, and Pages as they were.
fn leaves_chosen(volume: &mut MemVolume) -> bool {
    if volume.write_at(FileNo::LogA, 1, &[9]).is_err() || !volume.is_loose(FileNo::LogA, 1) {
        return false;
    }
    match volume.crash_with(0, FileNo::LogA, 1, 200) {
        Ok(image) => {
            image.log_a.as_slice() == [2, 200].as_slice()
                && image.pages.as_slice() == [4, 5, 6].as_slice()
        }
        Err(_) => false,
    }
}

#[test]
fn a_byte_of_a_crash_is_chosen(rt: HostRuntime) {
    let Ok(image) = image(rt.alloc()) else {
        panic!(rt; "out of memory")
    };
    assert!(rt; leaves_chosen(&mut MemVolume::of_image(image)));
}

// The owner, the kind and a number of the copy of a page that begins with these bytes.
fn copied(alloc: Global, front: &[u8; 10]) -> Option<(u32, u8, u16)> {
    let Ok(page) = Page::filled(alloc, front) else {
        return None;
    };
    match page.copy() {
        Ok(page) => Some((page.owner(), page.kind(), page.u16_at(8))),
        Err(_) => None,
    }
}

#[test]
fn a_page_is_copied(rt: HostRuntime) {
    let front = [0, 1, 0, 1, 5, 0, 0, 0, 0, 22];
    assert!(rt; copied(rt.alloc(), &front) == Some((65_537, 5, 22)));
    assert!(rt; matches!(Page::zeros(rt.alloc()), Ok(page) if page.owner() == 0));
}
