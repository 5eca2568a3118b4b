// Runs that open their database again, over a volume of which calls fail or stop.
use super::runs::{OPENING_CALLS, RunResult, over};
use super::shared::numbers;
use ori_bytes::NoMemory;
use ori_volmem::{Image, MemVolume};
use std::alloc::Global;
use std::test::Fail;

// A commit whose append fails, one that is refused for it, and a read; and after a reopening a read and the history.
const FAILING: &[u8] =
    b"1 INSERT INTO V SET a = 'b'\n1 INSERT INTO V SET a = 'c'\n1 SELECT FROM #1:0\n\
! reopen\n1 SELECT FROM #1:0\n! history\n";

const GONE: &[u8] = b"1 ERR Fault\n1 ERR Halted 1\n1 OK 0\n! OK\n1 OK 0\n! OK 0\n";

const STANDS: &[u8] = b"1 ERR Fault\n1 ERR Halted 1\n1 OK 0\n! OK\n\
1 ROW {\"@class\":\"V\",\"@rid\":\"#1:0\",\"@version\":1,\"a\":\"b\"}\n1 OK 1\n\
! HISTORY 0 1 COMMIT +#1:0@1\n! OK 1\n";

// Whether a run ended well with so many entries, each with its mark, and one of which a reopening decided, and has
// printed this.
fn is_told(came: &RunResult, entries: u64, printed: &[u8]) -> bool {
    let counts = (came.status, came.entries, came.marks as u64, came.decided);
    counts == (0, entries, entries, 1) && !came.in_doubt && came.printed.as_slice() == printed
}

// Whether the commit stands after the reopening, where this call of its append fails; none where the run says neither.
fn stands(alloc: Global, call: u64) -> Result<Option<bool>, NoMemory> {
    let mut volume = MemVolume::empty(alloc);
    volume.fail(numbers(alloc, &[OPENING_CALLS.saturating_add(call)])?);
    let (came, _) = over(alloc, volume, FAILING)?;
    if is_told(&came, 0, GONE) {
        return Ok(Some(false));
    }
    Ok(is_told(&came, 1, STANDS).then_some(true))
}

// The record's write and its sync come before the gate is opened; a gate that is written reads as open, and its failed
// write leaves it either way.
#[test]
fn a_reopening_decides_an_entry_in_doubt(rt: HostRuntime) -> Result<(), Fail> {
    let alloc = rt.alloc();
    for (call, want) in [(0, false), (1, false), (3, true)] {
        assert_eq!(rt; stands(alloc, call)?, Some(want), "call {call}");
    }
    assert!(rt; stands(alloc, 2)?.is_some());
    Ok(())
}

// Commits, and between them each step that sends pages home or changes the log, and a reopening.
const STEPS: &[u8] =
    b"1 INSERT INTO V SET n = 0\n! flush 0\n! flush 1\n1 INSERT INTO V SET n = 1\n! settle\n\
! flush 2\n! checkpoint\n1 INSERT INTO V SET n = 2\n! flush 3\n! reopen\n! flush 0\n! settle\n\
1 INSERT INTO V SET n = 3\n! checkpoint\n";

// How many device calls the whole of it makes.
fn all_calls(alloc: Global) -> Result<u64, NoMemory> {
    let (_, volume) = over(alloc, MemVolume::empty(alloc), STEPS)?;
    Ok(volume.calls())
}

const READS: &[u8] = b"1 SELECT FROM #1:0\n1 SELECT FROM #1:1\n1 SELECT FROM #1:2\n\
1 SELECT FROM #1:3\n1 SELECT FROM #1:4\n";

// How many of the first five positions an image has a record at.
fn records(alloc: Global, image: Image) -> Result<u64, NoMemory> {
    let (came, _) = over(alloc, MemVolume::of_image(image), READS)?;
    let mut found: u64 = 0;
    for line in came.printed.as_slice().split(|byte| *byte == b'\n') {
        if line == b"1 OK 1".as_slice() {
            found = found.saturating_add(1);
        }
    }
    Ok(found)
}

// How many of four images that a run over this volume leaves don't open to all entries of its history, nor to these and
// the one in doubt.
fn wrong(alloc: Global, volume: MemVolume) -> Result<u64, NoMemory> {
    let (came, volume) = over(alloc, volume, STEPS)?;
    let more = came.entries.saturating_add(1);
    let mut wrong: u64 = 0;
    for pick in 0..4 {
        let found = records(alloc, volume.crash(pick)?)?;
        if found != came.entries && !(came.in_doubt && found == more) {
            wrong = wrong.saturating_add(1);
        }
    }
    Ok(wrong)
}

#[test]
fn a_stop_at_any_call_leaves_a_prefix(rt: HostRuntime) -> Result<(), Fail> {
    let alloc = rt.alloc();
    for calls in 0..all_calls(alloc)?.saturating_add(1) {
        let mut volume = MemVolume::empty(alloc);
        volume.stop_after(calls);
        assert_eq!(rt; wrong(alloc, volume)?, 0, "after {calls} calls");
    }
    Ok(())
}

#[test]
fn a_fault_at_any_call_leaves_a_prefix(rt: HostRuntime) -> Result<(), Fail> {
    let alloc = rt.alloc();
    for call in 0..all_calls(alloc)? {
        let mut volume = MemVolume::empty(alloc);
        volume.fail(numbers(alloc, &[call])?);
        assert_eq!(rt; wrong(alloc, volume)?, 0, "call {call}");
    }
    Ok(())
}
