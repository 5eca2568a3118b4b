// The pages of rows, and their images.
ghost use Rattle.std.specs.Prelude.{◌≡◌, ◌+◌, ◌-◌, ◌<◌, ◌≤◌, ◌++◌, [], ◌∷◌, length, Some, if◌then◌else◌, IfOk, OnOk};
ghost use Rattle.std.specs.List.{AllByRecursion};
ghost use Rattle.ori_bytes.specs.declared.limits.TheConstants.{MAX_PAGES};
ghost use Rattle.ori_page.specs.Pages.{page_head};
ghost use Rattle.ori_rows.specs.Stage.{head_page, record_page, IsPageOf};
ghost use Rattle.ori_log.specs.Images.{image_data};
ghost use Rattle.ori_model.specs.Data.{record_of};
ghost use Rattle.ori_table.specs.Kept.{row_of};
ghost use Rattle.ori_rows.specs.Outcomes.{IsWritableRow, IsWritable};
ghost use Rattle.ori_rows.specs.Images.{IsImageOf, head_image, AreAllImages, AddsImages};
ghost use Rattle.ori_table.specs.Data.{outcome_data, outcomes_data};

use crate::Outcome;
use ori_bytes::limits::{
    FIRST_CLUSTER_OWNER, HEAD_KIND, HEAD_OWNER, PAGE_BYTES, RECORD_PAGE_HEAD, SLOTS_KIND,
    STAGE_FORMAT,
};
use ori_bytes::{Blob, NoMemory};
use ori_log::{ImageList, PageImage};
use ori_model::Stored;
use ori_page::Page;
use ori_record::{BagFieldList, spelled_record, writable_record};
use std::alloc::Global;

// What a page of this owner and kind begins with.
fn page_head(alloc: Global, owner: u32, kind: u8) -> Result<Blob, NoMemory>
    ensures { IfOk result (λ bytes. bytes ≡ page_head owner kind) }
{
    let mut head = Blob::from_slice(alloc, &owner.to_be_bytes())?;
    head.extend_from_slice(&[kind, 0, 0, 0])?;
    Ok(head)
}

/// Page 0 of so many pages.
pub fn head_page(alloc: Global, count: u32) -> Result<Page, NoMemory>
    ensures { IfOk result (λ page. page ≡ head_page count) }
{
    let mut front = page_head(alloc, HEAD_OWNER, HEAD_KIND)?;
    front.extend_from_slice(&STAGE_FORMAT.to_be_bytes())?;
    front.extend_from_slice(&count.to_be_bytes())?;
    Page::filled(alloc, front.as_slice())
}

/// The page of a record of cluster 1 that has these bytes.
pub fn record_page(alloc: Global, spelling: &[u8]) -> Result<Page, NoMemory>
    requires { length spelling.now + RECORD_PAGE_HEAD ≤ PAGE_BYTES }
    ensures { IfOk result (λ page. page ≡ record_page spelling.now) }
{
    let mut front = page_head(alloc, FIRST_CLUSTER_OWNER, SLOTS_KIND)?;
    front.extend_from_slice(&(spelling.len() as u16).to_be_bytes())?;
    front.extend_from_slice(spelling)?;
    Page::filled(alloc, front.as_slice())
}

// The page of a record, whose values nest no deeper than may be.
fn stored_page(alloc: Global, stored: &Stored) -> Result<Page, NoMemory>
    requires { IsWritableRow (Some (record_of stored.now)) }
    ensures { IfOk result (λ page. IsPageOf page (Some (record_of stored.now))) }
{
    // What has fields of its own can be written, and its spelling is as long as its size says.
    writable_record();
    spelled_record();
    match ori_record::write(alloc, stored, &BagFieldList::new(alloc)) {
        Ok(bytes) => record_page(alloc, bytes.as_slice()),
        Err(_) => Err(NoMemory),
    }
}

// The page of a position with this record or none.
fn row_page(alloc: Global, row: &Option<Stored>) -> Result<Page, NoMemory>
    requires { IsWritableRow (row_of row.now) }
    ensures { IfOk result (λ page. IsPageOf page (row_of row.now)) }
{
    match row {
        Some(stored) => stored_page(alloc, stored),
        None => record_page(alloc, &[]),
    }
}

// The image of a position's page.
fn image_of(alloc: Global, outcome: &Outcome) -> Result<PageImage, NoMemory>
    requires writable { IsWritable (outcome_data outcome.now) }
    requires few { outcome.now.place < MAX_PAGES - 1 }
    ensures { IfOk result (λ image. IsImageOf (outcome_data outcome.now) (image_data image)) }
{
    Ok(PageImage {
        page: outcome.place as u32 + 1,
        content: row_page(alloc, &outcome.row)?,
    })
}

// Adds the images of outcomes.
fn add_images(alloc: Global, images: &mut ImageList, outcomes: &[Outcome]) -> Result<(), NoMemory>
    requires writable { AllByRecursion IsWritable (outcomes_data outcomes.now) }
    requires few { AllByRecursion (λ x. x.0 < MAX_PAGES - 1) (outcomes_data outcomes.now) }
    ensures { OnOk result (AddsImages images.old images.new (outcomes_data outcomes.now)) }
{
    for outcome in outcomes {
        images.push(image_of(alloc, outcome)?)?;
    }
    Ok(())
}

// The image of page 0 alone.
fn head_list(alloc: Global, count: u32) -> Result<ImageList, NoMemory>
    ensures { IfOk result (λ images. images ≡ head_image count ∷ []) }
{
    let mut images = ImageList::new(alloc);
    images.push(PageImage {
        page: 0,
        content: head_page(alloc, count)?,
    })?;
    Ok(images)
}

// The image of page 0, where there are new records.
fn head_images(alloc: Global, makes: bool, count: u32) -> Result<ImageList, NoMemory>
    ensures { IfOk result (λ images. images ≡ (if makes then head_image count ∷ [] else [])) }
{
    if makes {
        return head_list(alloc, count);
    }
    Ok(ImageList::new(alloc))
}

/// The images of outcomes, before which that of page 0 stands where there are new records.
pub fn images_of(
    alloc: Global,
    makes: bool,
    count: u32,
    outcomes: &[Outcome],
) -> Result<ImageList, NoMemory>
    requires writable { AllByRecursion IsWritable (outcomes_data outcomes.now) }
    requires few { AllByRecursion (λ x. x.0 < MAX_PAGES - 1) (outcomes_data outcomes.now) }
    ensures { IfOk result (AreAllImages makes count (outcomes_data outcomes.now)) }
{
    let mut images = head_images(alloc, makes, count)?;
    add_images(alloc, &mut images, outcomes)?;
    Ok(images)
}
