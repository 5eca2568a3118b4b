// What a crash leaves of a run, opened again.
use super::runs::{COMMIT_CALLS, OPENING_CALLS, RunResult, over};
use ori_bytes::NoMemory;
use ori_volmem::{Image, MemVolume};
use ori_volume::{FileNo, Volume};
use std::alloc::Global;

// A script over an empty volume that stops after so many calls.
fn stopped(alloc: Global, script: &[u8], calls: u64) -> Result<(RunResult, MemVolume), NoMemory> {
    let mut volume = MemVolume::empty(alloc);
    volume.stop_after(calls);
    over(alloc, volume, script)
}

const THREE_INSERTS: &[u8] =
    b"1 INSERT INTO V SET a = '0'\n1 INSERT INTO V SET a = '1'\n1 INSERT INTO V SET a = '2'\n";

const FIVE_INSERTS: &[u8] =
    b"1 INSERT INTO V SET a = '0'\n1 INSERT INTO V SET a = '1'\n1 INSERT INTO V SET a = '2'\n\
1 INSERT INTO V SET a = '3'\n1 INSERT INTO V SET a = '4'\n";

// A SELECT of the record of each.
const SELECTS: &[u8] =
    b"1 SELECT FROM #1:0\n1 SELECT FROM #1:1\n1 SELECT FROM #1:2\n1 SELECT FROM #1:3\n1 SELECT FROM #1:4\n";

// What each says of its record, and where there is none.
const ROWS: [&[u8]; 5] = [
    b"1 ROW {\"@class\":\"V\",\"@rid\":\"#1:0\",\"@version\":1,\"a\":\"0\"}\n1 OK 1\n",
    b"1 ROW {\"@class\":\"V\",\"@rid\":\"#1:1\",\"@version\":1,\"a\":\"1\"}\n1 OK 1\n",
    b"1 ROW {\"@class\":\"V\",\"@rid\":\"#1:2\",\"@version\":1,\"a\":\"2\"}\n1 OK 1\n",
    b"1 ROW {\"@class\":\"V\",\"@rid\":\"#1:3\",\"@version\":1,\"a\":\"3\"}\n1 OK 1\n",
    b"1 ROW {\"@class\":\"V\",\"@rid\":\"#1:4\",\"@version\":1,\"a\":\"4\"}\n1 OK 1\n",
];

const NO_ROW: &[u8] = b"1 OK 0\n";

// Whether the first so many records are printed, and no other.
fn prints(printed: &[u8], count: u64) -> bool {
    let mut rest = printed;
    let mut at: u64 = 0;
    for row in ROWS {
        let reply = if at < count { row } else { NO_ROW };
        let Some(more) = rest.strip_prefix(reply) else {
            return false;
        };
        rest = more;
        at = at.saturating_add(1);
    }
    rest.is_empty()
}

// Whether an image opens to so many of the records of five INSERTs.
fn has(alloc: Global, image: Image, count: u64) -> bool {
    match over(alloc, MemVolume::of_image(image), SELECTS) {
        Ok((came, _)) => came.status == 0 && prints(came.printed.as_slice(), count),
        Err(_) => false,
    }
}

// Whether this image of a crash does.
fn leaves(alloc: Global, volume: &MemVolume, pick: u64, count: u64) -> bool {
    match volume.crash(pick) {
        Ok(image) => has(alloc, image, count),
        Err(_) => false,
    }
}

// What a crash leaves with the gate before a record open.
fn with_open_gate(alloc: Global, volume: &MemVolume, at: u64) -> Result<Option<Image>, NoMemory> {
    let image = volume.crash(1)?;
    if !volume.is_loose(FileNo::LogA, at) || image.log_a.len() as u64 <= at {
        return Ok(None);
    }
    Ok(Some(volume.crash_with(1, FileNo::LogA, at, 0xa5)?))
}

// Whether a crash with the gate before the fifth record open leaves five.
fn leaves_five(alloc: Global, volume: &MemVolume) -> bool {
    match with_open_gate(alloc, volume, 4 * 8209) {
        Ok(Some(image)) => has(alloc, image, 5),
        _ => false,
    }
}

// The fifth INSERT has opened its gate, at byte 4 * 8,209, and not synced it.
#[test]
fn a_gate_that_may_be_open_decides(rt: HostRuntime) {
    let calls = OPENING_CALLS + 4 * COMMIT_CALLS + 3;
    let Ok((came, volume)) = stopped(rt.alloc(), FIVE_INSERTS, calls) else {
        panic!(rt; "out of memory")
    };
    assert!(rt; came.entries == 4 && came.marks == 4);
    assert!(rt; leaves(rt.alloc(), &volume, 1, 4));
    assert!(rt; leaves_five(rt.alloc(), &volume));
}

// Whether each of four images has what was acknowledged, or one more in doubt.
fn leaves_a_prefix(alloc: Global, volume: &MemVolume, entries: u64, in_doubt: bool) -> bool {
    for pick in 0..4 {
        if !leaves(alloc, volume, pick, entries)
            && !(in_doubt && leaves(alloc, volume, pick, entries.saturating_add(1)))
        {
            return false;
        }
    }
    true
}

// Three INSERTs, and a step that sends the page of the third home.
const FLUSHED: &[u8] =
    b"1 INSERT INTO V SET a = '0'\n1 INSERT INTO V SET a = '1'\n1 INSERT INTO V SET a = '2'\n! flush 3\n";

// The flush is stopped inside its write of page 3, whose home may be anything then: the log has the page.
#[test]
fn a_home_that_is_half_written_is_not_read(rt: HostRuntime) {
    let calls = OPENING_CALLS + 3 * COMMIT_CALLS;
    let Ok((came, volume)) = stopped(rt.alloc(), FLUSHED, calls) else {
        panic!(rt; "out of memory")
    };
    assert!(rt; volume.faults() == 1 && volume.is_loose(FileNo::Pages, 3 * 4096));
    assert!(rt; came.entries == 3 && !came.in_doubt);
    assert!(rt; leaves_a_prefix(rt.alloc(), &volume, 3, false));
}

const CHECKPOINT: &[u8] = b"1 INSERT INTO V SET a = '0'\n! checkpoint\n";

// What a crash leaves with this byte in the master.
fn with_loose_master(
    alloc: Global,
    volume: &MemVolume,
    byte: u8,
) -> Result<Option<Image>, NoMemory> {
    let image = volume.crash(1)?;
    if !volume.is_loose(FileNo::Master, 0) || image.master.len() == 0 {
        return Ok(None);
    }
    Ok(Some(volume.crash_with(1, FileNo::Master, 0, byte)?))
}

// Whether a crash with this byte in the master leaves one record.
fn master_leaves_one(alloc: Global, volume: &MemVolume, byte: u8) -> bool {
    match with_loose_master(alloc, volume, byte) {
        Ok(Some(image)) => has(alloc, image, 1),
        _ => false,
    }
}

// The checkpoint has written the master, after two homes and their sync and three calls for the other log, and not
// synced it: either log may be the one in use.
#[test]
fn a_checkpoint_leaves_either_log(rt: HostRuntime) {
    let calls = OPENING_CALLS + COMMIT_CALLS + 3 + 3 + 1;
    let Ok((came, volume)) = stopped(rt.alloc(), CHECKPOINT, calls) else {
        panic!(rt; "out of memory")
    };
    assert!(rt; came.entries == 1 && !came.in_doubt);
    assert!(rt; master_leaves_one(rt.alloc(), &volume, 0x37));
    assert!(rt; master_leaves_one(rt.alloc(), &volume, 0x36));
}

// Whether those do which three INSERTs leave that stop after so many calls.
fn stops_at_a_prefix(alloc: Global, calls: u64) -> bool {
    match stopped(alloc, THREE_INSERTS, calls) {
        Ok((came, volume)) => leaves_a_prefix(alloc, &volume, came.entries, came.in_doubt),
        Err(_) => false,
    }
}

#[test]
fn a_crash_at_any_call_leaves_a_prefix(rt: HostRuntime) {
    for calls in 0..OPENING_CALLS + 3 * COMMIT_CALLS + 1 {
        assert!(rt; stops_at_a_prefix(rt.alloc(), calls), "after {calls} calls");
    }
}

// A record, and a transaction that changes it and makes another.
const TRANSACTION: &[u8] =
    b"1 INSERT INTO V SET n = 0\n1 BEGIN\n1 UPDATE #1:0 SET n = 1\n1 INSERT INTO V SET m = 2\n1 COMMIT\n";

const BOTH: &[u8] = b"1 SELECT FROM #1:0\n1 SELECT FROM #1:1\n";

const NOTHING_OF_IT: &[u8] =
    b"1 ROW {\"@class\":\"V\",\"@rid\":\"#1:0\",\"@version\":1,\"n\":0}\n1 OK 1\n1 OK 0\n";

const ALL_OF_IT: &[u8] =
    b"1 ROW {\"@class\":\"V\",\"@rid\":\"#1:0\",\"@version\":2,\"n\":1}\n1 OK 1\n\
1 ROW {\"@class\":\"V\",\"@rid\":\"#1:1\",\"@version\":1,\"m\":2}\n1 OK 1\n";

// Whether an image opens to the records from before the transaction, or to those after it; where it was acknowledged,
// to these.
fn is_whole(alloc: Global, image: Image, acknowledged: bool) -> bool {
    match over(alloc, MemVolume::of_image(image), BOTH) {
        Ok((came, _)) => {
            let found = came.printed.as_slice();
            found == ALL_OF_IT || !acknowledged && found == NOTHING_OF_IT
        }
        Err(_) => false,
    }
}

// Whether each of four images is whole.
fn leaves_a_whole(alloc: Global, volume: &MemVolume, acknowledged: bool) -> bool {
    for pick in 0..4 {
        let Ok(image) = volume.crash(pick) else {
            return false;
        };
        if !is_whole(alloc, image, acknowledged) {
            return false;
        }
    }
    true
}

// Whether the transaction has made so many entries where it is stopped after so many calls, and leaves whole images.
fn stops_whole(alloc: Global, calls: u64, entries: u64) -> bool {
    match stopped(alloc, TRANSACTION, calls) {
        Ok((came, volume)) => {
            came.entries == entries && leaves_a_whole(alloc, &volume, entries == 2)
        }
        Err(_) => false,
    }
}

#[test]
fn a_commit_that_is_stopped_is_done_or_not(rt: HostRuntime) {
    let begun = OPENING_CALLS + COMMIT_CALLS;
    for calls in begun..begun + COMMIT_CALLS {
        assert!(rt; stops_whole(rt.alloc(), calls, 1), "after {calls} calls");
    }
    assert!(rt; stops_whole(rt.alloc(), begun + COMMIT_CALLS, 2));
}
