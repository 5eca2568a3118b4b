// What a commit writes.
ghost use Rattle.std.specs.Prelude.{◌≡◌, ◌≢◌, ◌<◌, None, IfErr, OnOk};
ghost use Rattle.ori_bytes.specs.declared.limits.TheConstants.{MAX_PAGES};
ghost use Rattle.ori_log.specs.Images.{image_data, AreRising};
ghost use Rattle.ori_cache.specs.Pools.{StillShows};
ghost use Rattle.ori_page.specs.Pages.{owner_of};
ghost use Rattle.ori_rows.specs.Stage.{head_page};
ghost use Rattle.ori_decide.specs.Told.{told};
ghost use Rattle.ori_paged.specs.PageRows.{AreOwned, put_image, put_images};
ghost use Rattle.ori_engine.specs.Writing.{PageFor, WritesPages, answers, doubted_by};

use ori_bytes::limits::MAX_WEIGHT;
use ori_cache::{AtomicOp, Pool};
use ori_log::{ImageList, PageImage};
use ori_model::CommitFault;
use ori_page::{PageFault, PageSpace};
use ori_pool::OpFault;
use ori_turns::Frames;
use ori_volume::Volume;

/// Why a commit's pages weren't written: a call on a page was refused, or the operation's commit.
#[derive(Clone, Copy)]
pub(crate) enum WriteFault {
    Page(PageFault),
    Commit(OpFault),
}

// Writes the page of an image, or puts it behind the last.
fn put_image<'a, V: Volume, F: Frames<V> + Drop>(
    op: &mut AtomicOp<'a, V, F>,
    image: PageImage,
) -> Result<(), PageFault>
    requires named { image.page < MAX_PAGES }
    requires owner { owner_of image.content ≢ 0 }
    ensures shows { OnOk result (StillShows F.gives op.old.pool.now.overlay.source.frames
        op.old.pool.now.overlay.source.count op.old.pool.now.overlay.changes op.new.pool.now.overlay.changes
        (λ pages. put_image pages (image_data image))) }
    ensures keeps { ⟦<AtomicOp<'a, V, F> as PageSpace>⟧.keeps op.old op.new }
    ensures why { IfErr result (λ why. PageFor why
        (F.seat op.old.pool.now.overlay.source.frames).last.faults
        (F.seat op.new.pool.now.overlay.source.frames).last.faults
        (F.waits op.old.pool.now.overlay.source.frames) (F.waits op.new.pool.now.overlay.source.frames)) }
{
    let PageImage { page, content } = image;
    if page < op.count() {
        return op.write(page, content);
    }
    op.push(content)?;
    Ok(())
}

// Writes the pages of images one by one.
fn put_images<'a, V: Volume, F: Frames<V> + Drop>(
    op: &mut AtomicOp<'a, V, F>,
    images: ImageList,
) -> Result<(), PageFault>
    requires rising { AreRising 0 images }
    requires owned { AreOwned images }
    ensures shows { OnOk result (StillShows F.gives op.old.pool.now.overlay.source.frames
        op.old.pool.now.overlay.source.count op.old.pool.now.overlay.changes op.new.pool.now.overlay.changes
        (λ pages. put_images pages images)) }
    ensures keeps { ⟦<AtomicOp<'a, V, F> as PageSpace>⟧.keeps op.old op.new }
    ensures why { IfErr result (λ why. PageFor why
        (F.seat op.old.pool.now.overlay.source.frames).last.faults
        (F.seat op.new.pool.now.overlay.source.frames).last.faults
        (F.waits op.old.pool.now.overlay.source.frames) (F.waits op.new.pool.now.overlay.source.frames)) }
{
    for image in images.into_vec() {
        put_image(op, image)?;
    }
    Ok(())
}

/// Writes the pages of images in one operation, and commits it, while commits go on: the answer is the volume's moment
/// then. A refused operation leaves the pages as they are.
pub(crate) fn write_images<V: Volume, F: Frames<V> + Drop>(
    pool: &mut Pool<V, F>,
    images: ImageList,
) -> Result<u64, WriteFault>
    requires going { pool.old.known.halted ≡ None }
    requires head { pool.old.overlay.changes.head ≡ head_page 1 }
    requires rising { AreRising 0 images }
    requires owned { AreOwned images }
    ensures wrote { WritesPages V.story V.moment F.seat F.gives F.shares F.waits pool.old.overlay.source.frames
        pool.new.overlay.source.frames pool.old.overlay.source.count pool.new.overlay.source.count pool.old.known
        pool.new.known images result }
    ensures head { pool.new.overlay.changes.head ≡ pool.old.overlay.changes.head }
    ensures opening { pool.new.opening ≡ pool.old.opening }
{
    let mut op = pool.operation();
    if let Err(fault) = put_images(&mut op, images) {
        return Err(WriteFault::Page(fault));
    }
    // No more pages are changed than were put.
    if op.changed() as u64 > MAX_WEIGHT {
        return Err(WriteFault::Page(PageFault::NoMemory));
    }
    match op.commit() {
        Ok(moment) => Ok(moment),
        Err(fault) => Err(WriteFault::Commit(fault)),
    }
}

/// What a commit answers by why its pages weren't written. No page of the rows is damaged, and there are never as many
/// as there may be.
pub(crate) fn commit_fault(fault: WriteFault) -> CommitFault
    ensures { told result ≡ answers fault }
{
    match fault {
        WriteFault::Page(PageFault::Device) => CommitFault::Device,
        WriteFault::Page(PageFault::Busy { turn }) => CommitFault::Busy { turn },
        WriteFault::Page(PageFault::NoMemory | PageFault::Damaged { .. } | PageFault::PagesFull) =>
            CommitFault::NoMemory,
        WriteFault::Commit(OpFault::Fault { .. }) => CommitFault::Fault,
        WriteFault::Commit(OpFault::Halted { at_fault }) => CommitFault::Halted { at_fault },
        WriteFault::Commit(OpFault::Busy { turn }) => CommitFault::Busy { turn },
        WriteFault::Commit(OpFault::NoMemory) => CommitFault::NoMemory,
    }
}

/// The number of records that the log would have with the entry's, where its append failed.
pub(crate) fn tail_in_doubt(fault: WriteFault) -> Option<u64>
    ensures { result ≡ doubted_by fault }
{
    match fault {
        WriteFault::Commit(OpFault::Fault { doubt }) => doubt,
        WriteFault::Commit(_) | WriteFault::Page(_) => None,
    }
}
