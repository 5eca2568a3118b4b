// The rows of a database, read from its pages.
ghost use Rattle.std.specs.Prelude.{◌≡◌, ◌+◌, ◌<◌, ◌≤◌, ℕ, List, length, IfOk, OnOk, IsErrOf};
ghost use Rattle.ori_bytes.specs.declared.limits.TheConstants.{MAX_PAGES, PARTITIONS};
ghost use Rattle.ori_page.specs.Spaces.{page_at};
ghost use Rattle.ori_rows.specs.Stage.{record_page};
ghost use Rattle.ori_table.specs.Kept.{row_of, rows_of};
ghost use Rattle.ori_paged.specs.PageRows.{HavePages};
ghost use Rattle.ori_engine.specs.Reading.{IsCountOf, HasNoCount, IsNoTable, IsRecordPage, IsRowAt, IsRead};
ghost use Rattle.ori_engine.specs.Reading.{AreReadFrom};
ghost use Rattle.ori_engine.specs.Reading.{table_counted};

use crate::fault::{TableFault, unread};
use ori_bytes::Rid;
use ori_bytes::limits::{MAX_PAGES, PAGE_BYTES, RECORD_PAGE_HEAD};
use ori_model::Stored;
use ori_page::{Page, PageSpace};
use ori_record::{RecordFault, spelled_record};
use ori_table::{Table, head_page, record_page};
use std::alloc::Global;

// The cluster of class V.
const FIRST_CLUSTER: i16 = 1;

// Where a record page has its record's length.
const LENGTH_AT: usize = 8;

// Where page 0 has the number of pages.
const COUNT_AT: usize = 12;

// How many pages page 0 counts, of so many. NotATable where it isn't of the form, where there are fewer, and where
// there are more than a database may have.
fn counted_by(alloc: Global, head: &Page, there: u32) -> Result<u32, TableFault>
    ensures count { IfOk result (IsCountOf head.now there) }
    ensures none { IsErrOf result TableFault.NotATable → HasNoCount head.now there }
    ensures device { IsErrOf result TableFault.Device → ⊥ }
    ensures busy { (turn : ℕ) → IsErrOf result (TableFault.Busy turn) → ⊥ }
{
    let count = head.u32_at(COUNT_AT);
    if there > MAX_PAGES as u32 {
        return Err(TableFault::NotATable);
    }
    if count == 0 || count > there {
        return Err(TableFault::NotATable);
    }
    let expected = head_page(alloc, count)?;
    if head.bytes() != expected.bytes() {
        return Err(TableFault::NotATable);
    }
    Ok(count)
}

// The bytes of a page's record, of which there are none where the position has no record. NotATable where the page
// is of another form.
fn spelling_on(alloc: Global, page: &Page) -> Result<&[u8], TableFault>
    ensures page { IfOk result (λ bytes. page.now ≡ record_page bytes.now) }
    ensures one { IfOk result (λ bytes. (other : List ℕ) → page.now ≡ record_page other → other ≡ bytes.now) }
    ensures none { IsErrOf result TableFault.NotATable → (bytes : List ℕ) → page.now ≡ record_page bytes → ⊥ }
    ensures device { IsErrOf result TableFault.Device → ⊥ }
    ensures busy { (turn : ℕ) → IsErrOf result (TableFault.Busy turn) → ⊥ }
{
    let bytes = page.bytes();
    let length = page.u16_at(LENGTH_AT) as usize;
    if length > PAGE_BYTES - RECORD_PAGE_HEAD {
        return Err(TableFault::NotATable);
    }
    let spelling = &bytes[RECORD_PAGE_HEAD..RECORD_PAGE_HEAD + length];
    let expected = record_page(alloc, spelling)?;
    if bytes != expected.bytes() {
        return Err(TableFault::NotATable);
    }
    Ok(spelling)
}

// The record of a position, or none, as its page has it. NotATable where the page has neither.
fn read_row(alloc: Global, page: &Page, place: u64) -> Result<Option<Stored>, TableFault>
    requires { place < MAX_PAGES }
    ensures row { IfOk result (λ row. IsRowAt place page.now (row_of row)) }
    ensures none { IsErrOf result TableFault.NotATable → IsRecordPage page.now → ⊥ }
    ensures device { IsErrOf result TableFault.Device → ⊥ }
    ensures busy { (turn : ℕ) → IsErrOf result (TableFault.Busy turn) → ⊥ }
{
    // What is spelled has fields as a record may have them.
    spelled_record();
    let spelling = spelling_on(alloc, page)?;
    if spelling.is_empty() {
        return Ok(None);
    }
    let rid = Rid {
        cluster: FIRST_CLUSTER,
        position: place as i64,
    };
    match ori_record::read(alloc, spelling, rid) {
        Ok((stored, bags)) => {
            // No record has bags yet.
            if !bags.is_empty() {
                return Err(TableFault::NotATable);
            }
            Ok(Some(stored))
        }
        Err(RecordFault::NotRecord) => Err(TableFault::NotATable),
        // No depth is told by reading.
        Err(RecordFault::TooDeep | RecordFault::NoMemory) => Err(TableFault::NoMemory),
    }
}

// Reads a page.
fn read_page<P: PageSpace>(space: &mut P, page: u32) -> Result<Page, TableFault>
    requires page { page < P.count space.old }
    ensures pages { IfOk result (λ content. (pages : List (List ℕ)) → P.gives space.old pages
        → P.gives space.new pages × (content ≡ page_at pages page)) }
    ensures count { OnOk result (P.count space.new ≡ P.count space.old) }
    ensures none { IsErrOf result TableFault.NotATable → ⊥ }
    ensures keeps { P.keeps space.old space.new }
    ensures turn { (turn : ℕ) → IsErrOf result (TableFault.Busy turn) → turn ≤ PARTITIONS }
    ensures causes { P.causes space.new ≡ table_counted result (P.causes space.old) }
{
    match space.read(page) {
        Ok(content) => Ok(content),
        Err(fault) => Err(unread(fault)),
    }
}

// Reads the row of the next position, whose page is behind that of the last one.
fn read_next<P: PageSpace>(
    alloc: Global,
    space: &mut P,
    table: &mut Table,
) -> Result<(), TableFault>
    requires page { length table.old.0 + 1 < P.count space.old }
    requires few { P.count space.old ≤ MAX_PAGES }
    ensures row { OnOk result ((pages : List (List ℕ)) → P.gives space.old pages → P.gives space.new pages
        × IsRead pages (rows_of table.old.0) (rows_of table.new.0)) }
    ensures one { OnOk result (length table.new.0 ≡ length table.old.0 + 1) }
    ensures count { OnOk result (P.count space.new ≡ P.count space.old) }
    ensures none { IsErrOf result TableFault.NotATable → (pages : List (List ℕ)) → P.gives space.old pages
        → IsRecordPage (page_at pages (length table.old.0 + 1)) → ⊥ }
    ensures keeps { P.keeps space.old space.new }
    ensures turn { (turn : ℕ) → IsErrOf result (TableFault.Busy turn) → turn ≤ PARTITIONS }
    ensures causes { P.causes space.new ≡ table_counted result (P.causes space.old) }
{
    table.keeps();
    let place = table.len();
    let page = read_page(space, place as u32 + 1)?;
    let row = read_row(alloc, &page, place)?;
    table.push(row)?;
    Ok(())
}

// Reads the rows of the pages that page 0 counts.
fn read_rows<P: PageSpace>(alloc: Global, space: &mut P, count: u32) -> Result<Table, TableFault>
    requires some { 0 < count }
    requires within { count ≤ P.count space.old }
    requires few { P.count space.old ≤ MAX_PAGES }
    ensures rows { IfOk result (λ table. (pages : List (List ℕ)) → P.gives space.old pages → P.gives space.new pages
        × AreReadFrom pages (rows_of table.0)) }
    ensures all { IfOk result (λ table. length table.0 + 1 ≡ count) }
    ensures count { OnOk result (P.count space.new ≡ P.count space.old) }
    ensures none { IsErrOf result TableFault.NotATable → (pages : List (List ℕ)) → P.gives space.old pages
        → (place : ℕ) × (place + 1 < count) × (IsRecordPage (page_at pages (place + 1)) → ⊥) }
    ensures keeps { P.keeps space.old space.new }
    ensures turn { (turn : ℕ) → IsErrOf result (TableFault.Busy turn) → turn ≤ PARTITIONS }
    ensures causes { P.causes space.new ≡ table_counted result (P.causes space.old) }
{
    let mut table = Table::new(alloc)?;
    for _ in 1..count {
        read_next(alloc, space, &mut table)?;
    }
    Ok(table)
}

/// Reads the rows of a space's pages. NotATable where the pages stand for no base, and where there are more than a
/// database may have.
pub(crate) fn read_table<P: PageSpace>(alloc: Global, space: &mut P) -> Result<Table, TableFault>
    ensures rows { IfOk result (λ table. (pages : List (List ℕ)) → P.gives space.old pages → P.gives space.new pages
        × HavePages (rows_of table.0) pages) }
    ensures within { IfOk result (λ table. length table.0 + 1 ≤ P.count space.old) }
    ensures none { IsErrOf result TableFault.NotATable → (pages : List (List ℕ)) → P.gives space.old pages
        → IsNoTable pages }
    ensures count { OnOk result (P.count space.new ≡ P.count space.old) }
    ensures keeps { P.keeps space.old space.new }
    ensures turn { (turn : ℕ) → IsErrOf result (TableFault.Busy turn) → turn ≤ PARTITIONS }
    ensures causes { P.causes space.new ≡ table_counted result (P.causes space.old) }
{
    let there = space.count();
    let head = read_page(space, 0)?;
    let count = counted_by(alloc, &head, there)?;
    read_rows(alloc, space, count)
}
