// Runs in which a call of the source, the sink or the volume fails.
use super::runs::{INSERT, OPENING_CALLS, RunResult, over, run};
use super::shared::numbers;
use ori_bytes::{Blob, NoMemory};
use ori_volmem::{Image, MemVolume};
use std::alloc::Global;

// The status where these calls of the source and the sink fail, the number of entries, and whether input is left.
type Ended = (u8, u64, bool);

fn failing(alloc: Global, input: &[u8], source: &[u64], sink: &[u64]) -> Option<Ended> {
    match run(alloc, MemVolume::empty(alloc), input, source, sink) {
        Ok((came, _)) => Some((came.status, came.entries, came.is_left)),
        Err(_) => None,
    }
}

#[test]
fn faults_end_a_run(rt: HostRuntime) {
    assert!(rt; failing(rt.alloc(), INSERT, &[0], &[]) == Some((3, 0, true)));
    assert!(rt; failing(rt.alloc(), INSERT, &[], &[0]) == Some((4, 1, false)));
}

// A thousand INSERTs.
fn many(alloc: Global) -> Result<Blob, NoMemory> {
    let mut input = Blob::new(alloc);
    for _ in 0..1000 {
        input.extend_from_slice(INSERT)?;
    }
    Ok(input)
}

// How a run of them ends whose first reply can't be written.
fn unwritten(alloc: Global) -> Option<Ended> {
    match many(alloc) {
        Ok(input) => failing(alloc, input.as_slice(), &[], &[0]),
        Err(_) => None,
    }
}

#[test]
fn a_line_is_answered_before_all_is_read(rt: HostRuntime) {
    assert!(rt; unwritten(rt.alloc()) == Some((4, 1, true)));
}

// An empty volume of which this call fails.
fn failing_volume(alloc: Global, call: u64) -> Result<MemVolume, NoMemory> {
    let calls = numbers(alloc, &[call])?;
    let mut volume = MemVolume::empty(alloc);
    volume.fail(calls);
    Ok(volume)
}

// The status of a run over a volume.
fn status_over(alloc: Global, volume: Result<MemVolume, NoMemory>) -> Option<u8> {
    match over(alloc, volume.ok()?, INSERT) {
        Ok((came, _)) => Some(came.status),
        Err(_) => None,
    }
}

#[test]
fn a_volume_that_fails_is_not_opened(rt: HostRuntime) {
    for call in 0..OPENING_CALLS {
        let status = status_over(rt.alloc(), failing_volume(rt.alloc(), call));
        assert!(rt; status == Some(5), "call {call}");
    }
}

// A volume with this master, and no bytes in the other files.
fn with_master(alloc: Global, master: &[u8]) -> Result<MemVolume, NoMemory> {
    Ok(MemVolume::of_image(Image {
        master: Blob::from_slice(alloc, master)?,
        log_a: Blob::new(alloc),
        log_b: Blob::new(alloc),
        pages: Blob::new(alloc),
    }))
}

#[test]
fn other_files_are_no_database(rt: HostRuntime) {
    let cases: [(&[u8], u8); 3] = [(&[], 0), (&[0], 6), (&[0, 0], 6)];
    for (master, status) in cases {
        let volume = with_master(rt.alloc(), master);
        assert!(rt; status_over(rt.alloc(), volume) == Some(status));
    }
}

const HALTING: &[u8] =
    b"1 INSERT INTO V SET a = 'b'\n1 INSERT INTO V SET a = 'b'\n1 SELECT FROM #1:0\n";

// Whether a run prints this, with status 0, without an entry or a mark, and with one in doubt.
fn is_halted(came: &RunResult, printed: &[u8]) -> bool {
    (came.status, came.entries, came.marks, came.in_doubt) == (0, 0, 0, true)
        && came.printed.as_slice() == printed
}

// Whether the run is halted where this call after the opening's fails.
fn halts(alloc: Global, call: u64) -> Result<bool, NoMemory> {
    let volume = failing_volume(alloc, OPENING_CALLS.saturating_add(call))?;
    let (came, _) = over(alloc, volume, HALTING)?;
    Ok(is_halted(&came, b"1 ERR Fault\n1 ERR Halted 1\n1 OK 0\n"))
}

#[test]
fn a_failed_log_halts_the_run(rt: HostRuntime) {
    for call in 0..4 {
        assert!(rt; halts(rt.alloc(), call) == Ok(true), "call {call}");
    }
}
