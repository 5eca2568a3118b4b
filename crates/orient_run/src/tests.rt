// The adapters over real files, and over streams that are interrupted and give and take a little at a time.
ghost use Rattle.std.specs.Prelude.{◌≤◌, IfOk};

use crate::files::FileVolume;
use crate::streams::{StdSink, StdSource};
use ori_volume::{Failed, FileNo, Sink, Source, Volume};
use std::io::{self, ErrorKind, Read, Write};
use std::os::unix::fs::symlink;
use std::test::Fail;
use std::{env, fs, process};

// A folder of its own for a test that writes files.
fn folder(rt: &HostRuntime, name: &str) -> Result<String, Fail> {
    let base = env::temp_dir(rt)?;
    let id = process::id(rt.process());
    let path = format!(in rt.alloc(); "{}/orient_run_{id}_{name}", base.as_path().display())?;
    fs::create_dir(rt, path.as_str())?;
    Ok(path)
}

// Writes four bytes behind a gap and cuts the last, makes a file longer by an empty write, and syncs.
fn change(volume: &mut FileVolume) -> Result<(u64, u64), Failed> {
    volume.write_at(FileNo::LogA, 3, b"abcd")?;
    volume.cut(FileNo::LogA, 6)?;
    volume.cut(FileNo::LogA, 8)?;
    volume.write_at(FileNo::Pages, 2, b"")?;
    volume.write_at(FileNo::LogB, 0, b"b")?;
    volume.write_at(FileNo::Master, 0, b"m")?;
    volume.sync(FileNo::LogA)?;
    Ok((volume.moment(), volume.faults()))
}

// The lengths of the four files.
fn lengths(volume: &mut FileVolume) -> Result<[u64; 4], Failed> {
    Ok([
        volume.len(FileNo::Master)?,
        volume.len(FileNo::LogA)?,
        volume.len(FileNo::LogB)?,
        volume.len(FileNo::Pages)?,
    ])
}

// Six bytes of a file from byte 2 on: zeros in the gap and past its end.
fn read(volume: &mut FileVolume, file: FileNo) -> Result<[u8; 6], Failed> {
    let mut read = [9; 6];
    volume.read_at(file, 2, &mut read)?;
    Ok(read)
}

// The moment and the faults of these changes of a folder's files, then their lengths, and what is read of one, where
// they are opened again.
fn kept(rt: &HostRuntime, path: &str) -> Result<((u64, u64), [u64; 4], [u8; 6]), Fail> {
    let done = change(&mut FileVolume::open(rt, path)?)?;
    let mut again = FileVolume::open(rt, path)?;
    let lengths = lengths(&mut again)?;
    Ok((done, lengths, read(&mut again, FileNo::LogA)?))
}

#[test]
fn real_files_keep_what_was_written(rt: HostRuntime) -> Result<(), Fail> {
    let path = folder(&rt, "volume")?;
    let (done, lengths, read) = kept(&rt, path.as_str())?;
    fs::remove_dir_all(&rt, path.as_str())?;
    assert_eq!(rt; done, (7, 0));
    assert_eq!(rt; lengths, [1, 6, 1, 2]);
    assert_eq!(rt; read, *b"\0abc\0\0");
    Ok(())
}

// Whether a sync, a write, a cut and a sync of a file fail, one after the other.
fn fails(volume: &mut FileVolume, file: FileNo) -> [bool; 4] {
    [
        volume.sync(file).is_err(),
        volume.write_at(file, 0, b"x").is_err(),
        volume.cut(file, 0).is_err(),
        volume.sync(file).is_err(),
    ]
}

// A folder's volume whose LogA is the null device, which takes what is written, and can't be synced.
fn unsyncable(rt: &HostRuntime, path: &str) -> Result<FileVolume, Fail> {
    let log_a = format!(in rt.alloc(); "{path}/log_a")?;
    symlink(rt, "/dev/null", log_a.as_str())?;
    let mut volume = FileVolume::open(rt, path)?;
    volume.write_at(FileNo::LogA, 0, b"x")?;
    Ok(volume)
}

#[test]
fn a_file_takes_nothing_after_a_failed_sync(rt: HostRuntime) -> Result<(), Fail> {
    let path = folder(&rt, "syncs")?;
    let mut volume = unsyncable(&rt, path.as_str())?;
    fs::remove_dir_all(&rt, path.as_str())?;
    assert_eq!(rt; fails(&mut volume, FileNo::LogA), [true; 4]);
    assert_eq!(rt; (volume.faults(), volume.log_faults()), (4, 4));
    assert_eq!(rt; fails(&mut volume, FileNo::LogB), [false; 4]);
    Ok(())
}

// No file has a byte at a place that the system can't name.
#[test]
fn a_read_that_fails_counts(rt: HostRuntime) -> Result<(), Fail> {
    let path = folder(&rt, "reads")?;
    let mut volume = FileVolume::open(&rt, path.as_str())?;
    change(&mut volume)?;
    fs::remove_dir_all(&rt, path.as_str())?;
    let read = volume.read_at(FileNo::LogA, 1 << 63, &mut [0]);
    assert_eq!(rt; read, Err(Failed));
    assert_eq!(rt; (volume.faults(), volume.log_faults()), (1, 0));
    Ok(())
}

// Two lines to be read, and a place for what is written: four bytes a call, each second of which is interrupted.
#[derive(Drop)]
struct Slow {
    calls: u64,
}

impl Slow {
    fn next(&mut self, len: usize) -> io::Result<usize>
        ensures { IfOk result (λ n. (n ≤ len) × (n ≤ 4)) }
    {
        self.calls = self.calls.saturating_add(1);
        if self.calls % 2 == 1 {
            return Err(io::Error::from(ErrorKind::Interrupted));
        }
        if self.calls > 4 {
            return Err(io::Error::from(ErrorKind::Other));
        }
        Ok(len.min(4))
    }
}

impl Read for Slow {
    fn read(&mut self, into: &mut [u8]) -> io::Result<usize> {
        let count = self.next(into.len())?;
        into[..count].copy_from_slice(&b"a\nb\n"[..count]);
        Ok(count)
    }
}

impl Write for Slow {
    fn write(&mut self, from: &[u8]) -> io::Result<usize> {
        self.next(from.len())
    }

    fn flush(&mut self) -> io::Result<()> {
        Ok(())
    }
}

// How many bytes five reads give, and the number of the line after each.
#[test]
fn a_source_gives_a_line_at_a_time(rt: HostRuntime) -> Result<(), Fail> {
    let mut source = StdSource::new(rt.alloc(), Slow { calls: 0 })?;
    for (count, line) in [(2, 1), (2, 2), (2, 3), (2, 4)] {
        assert_eq!(rt; source.read(&mut [0; 9]), Ok(count));
        assert_eq!(rt; source.line(), line);
    }
    assert_eq!(rt; source.read(&mut [0; 9]), Err(Failed));
    assert_eq!(rt; source.faults(), 1);
    Ok(())
}

#[test]
fn a_sink_tells_how_much_it_took(rt: HostRuntime) -> Result<(), Fail> {
    let mut sink = StdSink::new(Slow { calls: 0 });
    assert_eq!(rt; sink.write(b"abcdef"), Ok(4));
    assert_eq!(rt; sink.write(b"ef"), Ok(2));
    assert_eq!(rt; sink.write(b"g"), Err(Failed));
    assert_eq!(rt; sink.faults(), 1);
    Ok(())
}
