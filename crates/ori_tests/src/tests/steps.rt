// What the steps of a script leave in the files.
use super::runs::{RunResult, over};
use ori_bytes::NoMemory;
use ori_volmem::{Image, MemVolume};
use std::alloc::Global;
use std::test::Fail;

const STEPS: &[u8] =
    b"1 INSERT INTO V SET name = 'Ann'\n! flush 0\n! flush 1\n! flush 2\n! flush 3\n! flush 4\n\
! flush 5\n! flush 6\n! flush 7\n! settle\n! checkpoint\n! flush 0\n";

const REPLIES: &[u8] =
    b"1 ROW {\"@class\":\"V\",\"@rid\":\"#1:0\",\"@version\":1,\"name\":\"Ann\"}\n1 OK 1\n\
! OK\n! OK\n! OK\n! OK\n! OK\n! OK\n! OK\n! OK\n! OK\n! OK\n! OK\n";

// Owner 1, kind 1; the number of the form, and that of the pages.
const HEAD: &[u8] = &[0, 0, 0, 1, 1, 0, 0, 0, 0, 0, 0, 0, 0, 0, 0, 2];

// Owner 65,537, kind 5; the record's length, 22, and the record.
const ROW: &[u8] = b"\x00\x01\x00\x01\x05\x00\x00\x00\x00\x16\
\x00\x00\x00\x01\x00\x02V\x08name\x00\x00\x00\x0e\x07\x00\x06Ann";

// Whether a page's home begins with these bytes, and has zeros after them.
fn has(home: &[u8], begin: &[u8]) -> bool {
    match home.strip_prefix(begin) {
        Some(rest) => rest.iter().all(|byte| *byte == 0),
        None => false,
    }
}

// Whether there are two pages, the head and the row.
fn are_pages(pages: &[u8]) -> bool {
    match (pages.get(..4096), pages.get(4096..)) {
        (Some(head), Some(row)) => row.len() == 4096 && has(head, HEAD) && has(row, ROW),
        _ => false,
    }
}

// Whether the pages are at home, and the second log is in use and has no record.
fn are_home(image: &Image) -> bool {
    image.master.as_slice() == [1].as_slice()
        && image.log_b.as_slice() == [0].as_slice()
        && are_pages(image.pages.as_slice())
}

fn ran(alloc: Global) -> Result<(RunResult, MemVolume), NoMemory> {
    over(alloc, MemVolume::empty(alloc), STEPS)
}

// Each crash leaves the files so: nothing is loose.
#[test]
fn the_steps_leave_all_at_home(rt: HostRuntime) -> Result<(), Fail> {
    let (came, volume) = ran(rt.alloc())?;
    assert!(rt; came.status == 0 && came.printed.as_slice() == REPLIES);
    for pick in 0..4 {
        assert!(rt; are_home(&volume.crash(pick)?), "image {pick}");
    }
    Ok(())
}
