// Runs of scripts over a volume in memory.
use super::shared::numbers;
use ori_bytes::{Blob, NoMemory};
use ori_model::Outcome;
use ori_script::run_script;
use ori_volmem::{MemSink, MemSource, MemVolume};
use ori_volume::Source;
use std::alloc::Global;

// What a run came to.
#[derive(Drop)]
pub struct RunResult {
    pub status: u8,
    pub printed: Blob,
    pub entries: u64,
    pub marks: usize,
    pub in_doubt: bool,
    // The entries whose fate a reopening has decided.
    pub decided: usize,
    // Whether the source has bytes left.
    pub is_left: bool,
}

pub const INSERT: &[u8] = b"1 INSERT INTO V SET name = 'Ann'\n";

// The device calls of an opening of an empty volume, and of one commit: the record, its sync, the gate, its sync.
pub const OPENING_CALLS: u64 = 15;

pub const COMMIT_CALLS: u64 = 4;

// Runs what a source gives.
fn ran(
    alloc: Global,
    volume: MemVolume,
    source: &mut MemSource,
    sink: &mut MemSink,
) -> Outcome<MemVolume> {
    run_script(alloc, volume, source, sink)
}

// Runs a script over a volume, with these calls of the source and the sink failing.
pub fn run(
    alloc: Global,
    volume: MemVolume,
    input: &[u8],
    fail_source: &[u64],
    fail_sink: &[u64],
) -> Result<(RunResult, MemVolume), NoMemory> {
    let mut source = MemSource::of(
        Blob::from_slice(alloc, input)?,
        numbers(alloc, fail_source)?,
    );
    let mut sink = MemSink::empty(alloc, numbers(alloc, fail_sink)?);
    let Outcome {
        status,
        volume,
        report,
    } = ran(alloc, volume, &mut source, &mut sink);
    let result = RunResult {
        status,
        printed: sink.taken().copy()?,
        entries: report.history.as_slice().len() as u64,
        marks: report.marks.as_slice().len(),
        in_doubt: report.doubt.is_some(),
        decided: report.failed.as_slice().len(),
        is_left: source.read(&mut [0]).unwrap_or(0) > 0,
    };
    Ok((result, volume))
}

// Runs a script over a volume without a fault of the streams.
pub fn over(
    alloc: Global,
    volume: MemVolume,
    input: &[u8],
) -> Result<(RunResult, MemVolume), NoMemory> {
    run(alloc, volume, input, &[], &[])
}
