// The cache's half of the device over a volume in memory: a script of commits and of what sends their pages home, with
// calls that fail and stops after any call, and what a crash leaves then, opened again.
ghost use Rattle.std.specs.Prelude.{◌≡◌, length, replicate, IfOk, Some};
ghost use Rattle.ori_bytes.specs.declared.limits.TheConstants.{PARTITIONS};
ghost use Rattle.ori_log.specs.Images.{AreRising};
ghost use Rattle.ori_part.specs.Parts.{no_pages};
ghost use Rattle.ori_pool.specs.Held.{AreOwn, HoldsAll};
ghost use Rattle.ori_device_tests.specs.Ready.{IsReady};

use ori_bytes::limits::PARTITIONS;
use ori_bytes::{NoMemory, NumberList};
use ori_log::{ImageList, PageImage};
use ori_page::Page;
use ori_part::Part;
use ori_pool::{Device, Hand, OpFault, checkpoint, commit, send_home, settle};
use ori_volmem::{Image, MemVolume};
use std::alloc::Global;

// A step of the script. A commit fills pages 0 and 1 with a byte.
#[derive(Clone, Copy)]
enum Step {
    Commit(u8),
    Send,
    Settle,
    Checkpoint,
}

// The device calls of an opening, 14; and of a commit 4 (the record, its sync, the gate, its sync), of a sending one
// for each page, of a settling 1, and of a checkpoint one for each page, a sync and the 5 of a switch.
const SCRIPT: [Step; 9] = [
    Step::Commit(1), // 14 to 17
    Step::Send, // 18, 19
    Step::Commit(2), // 20 to 23
    Step::Settle, // 24
    Step::Send, // 25, 26
    Step::Settle, // 27
    Step::Commit(3), // 28 to 31
    Step::Checkpoint, // 32, 33; 34; 35 to 39
    Step::Commit(4), // 40 to 43
];

const CALLS: u64 = 44;

// The byte of the last commit that was acknowledged, and that of the one in doubt.
type Commits = (u8, Option<u8>);

// The same, and whether the device is halted.
type Told = (Commits, bool);

fn empty_parts(alloc: Global) -> Result<Vec<Option<Part>>, NoMemory>
    ensures { IfOk result (λ parts. parts.items ≡ replicate PARTITIONS (Some no_pages)) }
{
    let mut parts = Vec::new(alloc);
    for _ in 0..PARTITIONS {
        parts.push(Some(Part::empty(alloc)?))?;
    }
    Ok(parts)
}

// All partitions, empty.
#[tactic(auto, using(crate::proofs::Hands::empty_all, crate::proofs::Hands::empty_own))]
fn empty_hand(alloc: Global) -> Result<Hand, NoMemory>
    ensures all { IfOk result (λ hand. HoldsAll hand.parts.items) }
    ensures own { IfOk result (λ hand. AreOwn hand.parts.items) }
{
    let parts = empty_parts(alloc)?;
    Ok(Hand { parts })
}

fn image(alloc: Global, page: u32, byte: u8) -> Result<PageImage, NoMemory>
    ensures { IfOk result (λ image. image.page ≡ page) }
{
    let content = Page::filled(alloc, &[byte; 4096])?;
    Ok(PageImage { page, content })
}

// Pages 0 and 1, filled with a byte.
fn images(alloc: Global, byte: u8) -> Result<ImageList, NoMemory>
    ensures { IfOk result (λ images. (length images ≡ 2) × AreRising 0 images) }
{
    let mut images = ImageList::new(alloc);
    images.push(image(alloc, 0, byte)?)?;
    images.push(image(alloc, 1, byte)?)?;
    Ok(images)
}

#[tactic(auto, using(crate::proofs::Hands::needs_met, crate::proofs::Hands::committed_ready))]
fn committed(
    alloc: Global,
    device: &mut Device<MemVolume>,
    hand: &mut Hand,
    byte: u8,
    before: Commits,
) -> Result<Commits, NoMemory>
    requires { IsReady device.old.log hand.old.parts.items }
    ensures { IsReady device.new.log hand.new.parts.items }
{
    let images = images(alloc, byte)?;
    Ok(match commit(device, hand, images) {
        Ok(_) => (byte, None),
        Err(OpFault::Fault { doubt: Some(_) }) => (before.0, Some(byte)),
        Err(_) => before,
    })
}

#[tactic(auto, using(crate::proofs::Hands::same_ready, crate::proofs::Hands::tended_ready))]
fn stepped(
    alloc: Global,
    device: &mut Device<MemVolume>,
    hand: &mut Hand,
    step: Step,
    before: Commits,
) -> Result<Commits, NoMemory>
    requires { IsReady device.old.log hand.old.parts.items }
    ensures { IsReady device.new.log hand.new.parts.items }
{
    let _ = match step {
        Step::Commit(byte) => return committed(alloc, device, hand, byte, before),
        Step::Send => send_home(device, hand).is_ok(),
        Step::Settle => settle(device, hand).is_ok(),
        Step::Checkpoint => checkpoint(device, hand).is_ok(),
    };
    Ok(before)
}

// Does the steps of the script.
fn script(
    alloc: Global,
    device: &mut Device<MemVolume>,
    hand: &mut Hand,
) -> Result<Commits, NoMemory>
    requires { IsReady device.old.log hand.old.parts.items }
{
    let mut commits = (0, None);
    for step in SCRIPT {
        commits = stepped(alloc, device, hand, step, commits)?;
    }
    Ok(commits)
}

// Does it over a volume, where that opens.
fn run(alloc: Global, volume: MemVolume) -> Result<(MemVolume, Told), NoMemory> {
    let mut hand = empty_hand(alloc)?;
    let mut device = Device::of(volume);
    if device.open(alloc).is_err() {
        return Ok((device.into_volume(), ((0, None), false)));
    }
    let commits = script(alloc, &mut device, &mut hand)?;
    let is_halted = device.halted().is_some();
    Ok((device.into_volume(), (commits, is_halted)))
}

// The byte that fills a page, if there is one.
fn filling(page: &Page) -> Option<u8> {
    let byte = page.bytes()[0];
    if page.bytes() == [byte; 4096].as_slice() {
        Some(byte)
    } else {
        None
    }
}

// The byte that fills a page, by its last image in the log or by its home.
fn byte_of(
    alloc: Global,
    device: &mut Device<MemVolume>,
    images: &ImageList,
    page: u8,
) -> Option<u8> {
    let page = u32::from(page);
    for image in images.as_slice() {
        if image.page == page {
            return filling(&image.content);
        }
    }
    filling(&device.read_home(alloc, page).ok()?)
}

// The byte that fills both pages of an image, opened again.
fn found(alloc: Global, image: Image) -> Option<u8> {
    let mut device = Device::of(MemVolume::of_image(image));
    let images = device.open(alloc).ok()?;
    let byte = byte_of(alloc, &mut device, &images, 0);
    if byte == byte_of(alloc, &mut device, &images, 1) {
        byte
    } else {
        None
    }
}

// Whether an image has the pages of the last commit that was acknowledged, or of the one in doubt.
fn is_right(alloc: Global, image: Image, commits: Commits) -> bool {
    match found(alloc, image) {
        Some(byte) => byte == commits.0 || Some(byte) == commits.1,
        None => false,
    }
}

// What the script comes to over a volume where these calls fail, and each after so many.
fn failing(alloc: Global, fail: &[u64], calls: u64) -> Result<(MemVolume, Told), NoMemory> {
    let fail = NumberList::from_vec(Vec::from_slice(alloc, fail)?);
    let mut volume = MemVolume::empty(alloc);
    volume.fail(fail);
    volume.stop_after(calls);
    run(alloc, volume)
}

// Whether the images that are picked up to 3 are right then: as reads give them, as little as may be, and two that are
// drawn.
fn leaves_one(alloc: Global, fail: &[u64], calls: u64) -> Result<bool, NoMemory> {
    let (volume, (commits, _)) = failing(alloc, fail, calls)?;
    for pick in 0..4 {
        if !is_right(alloc, volume.crash(pick)?, commits) {
            return Ok(false);
        }
    }
    Ok(true)
}

#[test]
fn a_stop_anywhere_leaves_one_commit(rt: HostRuntime) {
    for calls in 0..CALLS + 1 {
        assert!(rt;
            leaves_one(rt.alloc(), &[], calls) == Ok(true),
            "after {calls} calls"
        );
    }
}

#[test]
fn a_failed_call_leaves_one_commit(rt: HostRuntime) {
    for call in 0..CALLS {
        assert!(rt;
            leaves_one(rt.alloc(), &[call], 100) == Ok(true),
            "call {call}"
        );
    }
}

// Whether all images are right that are left where this call fails and the volume stops after any later one.
fn later_leave_one(alloc: Global, call: u64) -> bool {
    for calls in call..CALLS + 1 {
        if leaves_one(alloc, &[call], calls + 1) != Ok(true) {
            return false;
        }
    }
    true
}

// A home that fails, or a sync of homes, stops nothing, and is made good.
#[test]
fn a_failed_home_and_a_stop_leave_one_commit(rt: HostRuntime) {
    for call in [18, 19, 24, 25, 26, 27, 32, 33, 34] {
        assert!(rt; later_leave_one(rt.alloc(), call), "call {call}");
    }
}

// Whether this is told where any one call of these fails.
fn tells(alloc: Global, from: u64, to: u64, want: Told) -> Result<bool, NoMemory> {
    for call in from..to {
        if failing(alloc, &[call], 100)?.1 != want {
            return Ok(false);
        }
    }
    Ok(true)
}

// A failed call of the log halts the device, and leaves the commit in doubt whose append it was. A failed home, or sync
// of homes, stops nothing.
#[test]
fn failed_calls_are_told(rt: HostRuntime) {
    for (from, to, want) in [
        (0, 14, ((0, None), false)),
        (14, 18, ((0, Some(1)), true)),
        (18, 20, ((4, None), false)),
        (20, 24, ((1, Some(2)), true)),
        (24, 28, ((4, None), false)),
        (28, 32, ((2, Some(3)), true)),
        (32, 35, ((4, None), false)),
        (35, 40, ((3, None), true)),
        (40, 44, ((3, Some(4)), true)),
    ] {
        assert!(rt;
            tells(rt.alloc(), from, to, want) == Ok(true),
            "from call {from} on"
        );
    }
}
