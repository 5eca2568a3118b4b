// The log on a volume in memory: either file, across a switch, and what a crash leaves of it, opened again.
ghost use Rattle.std.specs.Prelude.{◌≡◌, length, IfOk};
ghost use Rattle.ori_log.specs.Images.{AreRising};

use ori_bytes::NoMemory;
use ori_log::{ImageList, Log, PageImage};
use ori_page::Page;
use ori_volmem::{Image, MemVolume, PlainVolume};
use ori_volume::{FileNo, Volume};
use std::alloc::Global;

// The first image of page 0 alone, which begins with a byte.
fn images(alloc: Global, byte: u8) -> Result<ImageList, NoMemory>
    ensures { IfOk result (λ l. (length l ≡ 1) × AreRising 0 l) }
{
    let content = Page::filled(alloc, &[byte])?;
    let mut images = ImageList::new(alloc);
    images.push(PageImage { page: 0, content })?;
    Ok(images)
}

// A record whose image begins page 0 with a byte.
fn append_one<V: Volume>(alloc: Global, volume: &mut V, log: &mut Log, byte: u8) -> bool {
    match images(alloc, byte) {
        Ok(images) => log.append(volume, &images).is_ok(),
        Err(_) => false,
    }
}

// So many records, of which the last begins page 0 with their number.
fn append<V: Volume>(alloc: Global, volume: &mut V, log: &mut Log, count: u8) -> bool {
    for i in 0..count {
        if !append_one(alloc, volume, log, i + 1) {
            return false;
        }
    }
    true
}

fn attached<V: Volume>(alloc: Global, volume: &mut V) -> Option<Log> {
    match Log::attach(alloc, volume) {
        Ok((log, _)) => Some(log),
        Err(_) => None,
    }
}

// Page 0 at home, which begins with 1.
fn write_home(alloc: Global, volume: &mut MemVolume) -> bool {
    let Ok(home) = Page::filled(alloc, &[1]) else {
        return false;
    };
    volume.write_at(FileNo::Pages, 0, home.bytes()).is_ok() && volume.sync(FileNo::Pages).is_ok()
}

// The log of an empty volume, whose LogA has one record from then on, and page 0 at home as that record has it.
fn kept(alloc: Global, volume: &mut MemVolume) -> Option<Log> {
    let mut log = attached(alloc, volume)?;
    if append_one(alloc, volume, &mut log, 1) && write_home(alloc, volume) {
        Some(log)
    } else {
        None
    }
}

// The same with LogB in use, without a record.
fn switched(alloc: Global, volume: &mut MemVolume) -> Option<Log> {
    let mut log = kept(alloc, volume)?;
    if log.switch(volume).is_ok() {
        Some(log)
    } else {
        None
    }
}

// How many records a log has, and the first byte of page 0 by its last image or its home; no byte where it doesn't open.
type Opened = (u64, Option<u8>);

// The first byte of page 0 at home.
fn home_byte(volume: &mut MemVolume) -> Option<u8> {
    let mut byte = [0];
    match volume.read_at(FileNo::Pages, 0, &mut byte) {
        Ok(_) => Some(byte[0]),
        Err(_) => None,
    }
}

fn opened(alloc: Global, image: Image) -> Opened {
    let mut volume = MemVolume::of_image(image);
    let Ok((log, images)) = Log::attach(alloc, &mut volume) else {
        return (0, None);
    };
    let byte = match images.as_slice() {
        [last, ..] => Some(last.bytes()[0]),
        [] => home_byte(&mut volume),
    };
    (log.tail(), byte)
}

// What a crash leaves, opened again: where the loose bytes are zeros, where they are as they are read, or as they are
// drawn.
fn crashed(alloc: Global, volume: &MemVolume, pick: u64) -> Opened {
    match volume.crash(pick) {
        Ok(image) => opened(alloc, image),
        Err(_) => (0, None),
    }
}

// The length of LogA and the number of records after so many more.
fn grown(alloc: Global, volume: &mut PlainVolume, log: &mut Log, more: u8) -> Option<(u64, u64)> {
    if !append(alloc, volume, log, more) {
        return None;
    }
    match volume.len(FileNo::LogA) {
        Ok(length) => Some((length, log.tail())),
        Err(_) => None,
    }
}

// What 63 records come to, and one more; and the room that is left.
fn grown_twice(alloc: Global, volume: &mut PlainVolume) -> Option<[(u64, u64); 3]> {
    let mut log = attached(alloc, volume)?;
    let first = grown(alloc, volume, &mut log, 63)?;
    let second = grown(alloc, volume, &mut log, 1)?;
    Some([first, second, (log.room(), log.tail())])
}

// A record takes 9 + 4,100 bytes, and a closed gate stands after the last: 63 * 4,109 + 1 = 258,868 bytes, and with one
// more 262,977, of steps of 262,144. The room is what 64 * 4,109 leaves of 2^30.
#[test]
fn an_append_lengthens_the_file_in_steps(rt: HostRuntime) {
    let mut volume = PlainVolume::empty(rt.alloc());
    let want = [(262_144, 63), (524_288, 64), (1_073_478_848, 64)];
    assert!(rt; grown_twice(rt.alloc(), &mut volume) == Some(want));
    assert!(rt; volume.wants() == 0 && volume.faults() == 0);
}

// The calls of two appends: of each the record, its sync, the gate, its sync.
fn append_calls(alloc: Global, volume: &mut MemVolume) -> Option<u64> {
    let mut log = attached(alloc, volume)?;
    let before = volume.calls();
    if !append(alloc, volume, &mut log, 2) {
        return None;
    }
    Some(volume.calls().saturating_sub(before))
}

#[test]
fn an_append_makes_four_calls(rt: HostRuntime) {
    let mut volume = MemVolume::empty(rt.alloc());
    assert!(rt; append_calls(rt.alloc(), &mut volume) == Some(8));
}

// The records and the room of a log that was switched.
fn switched_log(alloc: Global, volume: &mut MemVolume) -> Option<(u64, u64)> {
    let log = switched(alloc, volume)?;
    Some((log.tail(), log.room()))
}

// Whether a crash leaves the master's byte 1 and a closed gate alone in LogB.
fn names_log_b(volume: &MemVolume) -> bool {
    match volume.crash(1) {
        Ok(image) => image.master.as_slice() == [1].as_slice()
            && image.log_b.as_slice() == [0].as_slice(),
        Err(_) => false,
    }
}

#[test]
fn a_switch_leaves_an_empty_log(rt: HostRuntime) {
    let mut volume = MemVolume::empty(rt.alloc());
    assert!(rt; switched_log(rt.alloc(), &mut volume) == Some((0, 1_073_741_824)));
    assert!(rt; names_log_b(&volume));
    assert!(rt; crashed(rt.alloc(), &volume, 1) == (0, Some(1)));
}

// What is left where the loose bytes of a crash are zeros, and where they are as they are read.
type Both = (Opened, Opened);

fn both(alloc: Global, volume: &MemVolume) -> Both {
    (crashed(alloc, volume, 1), crashed(alloc, volume, 0))
}

// The fifth append is stopped after its write of the gate, before the sync. Whether it failed, and what is left.
fn append_stopped(alloc: Global, volume: &mut MemVolume, log: &mut Log) -> (bool, Both) {
    let done = append(alloc, volume, log, 4);
    volume.stop_after(volume.calls().saturating_add(3));
    let failed = done && !append_one(alloc, volume, log, 5);
    (failed, both(alloc, volume))
}

// The same in either file.
fn stopped_in(alloc: Global, file: FileNo) -> Option<(bool, Both)> {
    let mut volume = MemVolume::empty(alloc);
    let mut log = if file == FileNo::LogA {
        attached(alloc, &mut volume)?
    } else {
        switched(alloc, &mut volume)?
    };
    Some(append_stopped(alloc, &mut volume, &mut log))
}

#[test]
fn a_gate_that_may_be_open_decides_in_either_file(rt: HostRuntime) {
    let want = Some((true, ((4, Some(4)), (5, Some(5)))));
    assert!(rt; stopped_in(rt.alloc(), FileNo::LogA) == want);
    assert!(rt; stopped_in(rt.alloc(), FileNo::LogB) == want);
}

// LogB has two records.
fn two_in_log_b(alloc: Global, volume: &mut MemVolume) -> bool {
    match switched(alloc, volume) {
        Some(mut log) => append(alloc, volume, &mut log, 2),
        None => false,
    }
}

// What an attach onto an image, stopped after so many calls, leaves; and whether it failed.
fn attach_stopped(alloc: Global, image: Image, calls: u64, pick: u64) -> (bool, Opened) {
    let mut volume = MemVolume::of_image(image);
    volume.stop_after(calls);
    let failed = Log::attach(alloc, &mut volume).is_err();
    (failed, crashed(alloc, &volume, pick))
}

// The same onto what a crash leaves of two records in LogB.
fn again_stopped(alloc: Global, calls: u64, pick: u64) -> Option<(bool, Opened)> {
    let mut volume = MemVolume::empty(alloc);
    if !two_in_log_b(alloc, &mut volume) {
        return None;
    }
    match volume.crash(pick) {
        Ok(image) => Some(attach_stopped(alloc, image, calls, pick)),
        Err(_) => None,
    }
}

// Four syncs, four lengths, the master's byte, three heads and two images.
#[test]
fn an_attach_stops_anywhere(rt: HostRuntime) {
    for calls in 0..14 {
        assert!(rt; again_stopped(rt.alloc(), calls, calls) == Some((true, (2, Some(2)))));
    }
    assert!(rt; again_stopped(rt.alloc(), 14, 1) == Some((false, (2, Some(2)))));
}

// What a switch stopped after so many of its calls leaves; and whether it failed.
fn switch_stopped(alloc: Global, calls: u64) -> Option<(bool, Both)> {
    let mut volume = MemVolume::empty(alloc);
    let mut log = kept(alloc, &mut volume)?;
    volume.stop_after(volume.calls().saturating_add(calls));
    let failed = log.switch(&mut volume).is_err();
    Some((failed, both(alloc, &volume)))
}

// The other file is cut, written and synced; then the master's byte is written, and from there on may name either file;
// its sync decides.
#[test]
fn a_switch_stops_anywhere(rt: HostRuntime) {
    let (old, new) = ((1, Some(1)), (0, Some(1)));
    for calls in 0..4 {
        assert!(rt; switch_stopped(rt.alloc(), calls) == Some((true, (old, old))));
    }
    assert!(rt; switch_stopped(rt.alloc(), 4) == Some((true, (old, new))));
    assert!(rt; switch_stopped(rt.alloc(), 5) == Some((false, (new, new))));
}
