// The records of a log as a crash has left them.
ghost use Rattle.std.specs.Prelude.{◌≡◌, ◌+◌, ◌-◌, ◌*◌, ◌^◌, ◌<◌, ◌≤◌, ◌↔◌, ◌++◌, ◌∷◌, [], length, take, drop, ◌⊎◌};
ghost use Rattle.std.specs.Prelude.{IfOk, IfErr, IfSome, OnOk, IsErrOf, IsTrue, List, ℕ, None};
ghost use Rattle.ori_volume.specs.Causes.{HasCause};
ghost use Rattle.ori_volume.specs.Disk.{of_file};
ghost use Rattle.ori_volume.specs.Effects.{read_bytes};
ghost use Rattle.ori_volume.specs.OnlyRead.{IsOnlyRead};
ghost use Rattle.ori_volume.specs.declared.file.FileNo.{FileNo};
ghost use Rattle.ori_log.specs.Log.{ImageData, image_bytes};
ghost use Rattle.ori_log.specs.Images.{image_data, IsWhole};
ghost use Rattle.ori_log.specs.Tails.{head_bytes, Fits, BreaksOff};
ghost use Rattle.ori_log.specs.Appending.{FailsAs};

use crate::stage::IMAGE_BYTES;
use crate::{ImageList, LogFault, PageImage};
use ori_bytes::NoMemory;
use ori_bytes::limits::{MAX_LOG_BYTES, MAX_PAGES, MAX_WEIGHT, OPEN_GATE};
use ori_page::Page;
use ori_volume::{Failed, FileNo, Volume};
use std::alloc::Global;
use std::collections::BTreeMap;

// Bytes of a gate, a body's length and its number of images.
const HEAD_BYTES: usize = 9;

/// What the records so far come to.
#[derive(Drop)]
pub struct Tail {
    /// The last content of each page that they name.
    pub pages: BTreeMap<u32, Page>,
    /// One more than the greatest page that they name.
    pub end: u32,
    /// Their number.
    pub records: u64,
    /// Where the next gate stands.
    pub place: u64,
}

// The bytes before a record's images.
#[derive(Clone, Copy)]
struct Head {
    gate: u8,
    body: u32,
    count: u32,
}

impl Head {
    fn read<V: Volume>(volume: &mut V, file: FileNo, at: u64) -> Result<Self, Failed>
        ensures value { IfOk result (λ head. IfSome (V.files volume.old)
            (λ fs. read_bytes (of_file fs file) at HEAD_BYTES ≡ head_bytes head)) }
        ensures same { IsOnlyRead V.files V.story V.moment V.log_faults volume.old volume.new }
        ensures faults { HasCause (V.faults volume.old) (V.faults volume.new) result }
    {
        let mut bytes = [0; HEAD_BYTES];
        volume.read_at(file, at, &mut bytes)?;
        Ok(Head::from_bytes(&bytes))
    }

    fn from_bytes(bytes: &[u8]) -> Self
        requires { length bytes.now ≡ HEAD_BYTES }
        ensures { head_bytes result ≡ bytes.now }
    {
        Head {
            gate: bytes[0],
            body: u32::from_be_bytes([bytes[1], bytes[2], bytes[3], bytes[4]]),
            count: u32::from_be_bytes([bytes[5], bytes[6], bytes[7], bytes[8]]),
        }
    }

    // Whether a record of this head can end before so many bytes, with the next gate behind it. Callers learn too that
    // its numbers have 32 bits.
    fn fits(&self, room: u64) -> bool
        ensures value { IsTrue result ↔ Fits self.now room }
        ensures small { (self.now.body < 2 ^ 32) × (self.now.count < 2 ^ 32) }
    {
        let count = self.count as u64;
        let body = self.body as u64;
        0 < count && count <= MAX_WEIGHT && body == 4 + IMAGE_BYTES * count && 5 + body < room
    }
}

// An image by its bytes.
fn image_of(alloc: Global, bytes: &[u8]) -> Result<PageImage, NoMemory>
    requires { length bytes.now ≡ IMAGE_BYTES }
    ensures value { IfOk result (λ image. image_bytes (image_data image) ≡ bytes.now) }
    ensures whole { IfOk result (λ image. IsWhole (image_data image)) }
{
    let page = u32::from_be_bytes([bytes[0], bytes[1], bytes[2], bytes[3]]);
    let content = Page::filled(alloc, &bytes[4..])?;
    Ok(PageImage { page, content })
}

// Reads an image: a page's number and its content.
fn read_image<V: Volume>(
    alloc: Global,
    volume: &mut V,
    file: FileNo,
    at: u64,
) -> Result<PageImage, LogFault>
    ensures value { IfOk result (λ image. IfSome (V.files volume.old)
        (λ fs. read_bytes (of_file fs file) at IMAGE_BYTES ≡ image_bytes (image_data image))) }
    ensures whole { IfOk result (λ image. IsWhole (image_data image)) }
    ensures fault { IfErr result (λ fault. (fault ≡ LogFault.Failed) ⊎ (fault ≡ LogFault.NoMemory)) }
    ensures same { IsOnlyRead V.files V.story V.moment V.log_faults volume.old volume.new }
    ensures faults { FailsAs LogFault.Failed (V.faults volume.old) (V.faults volume.new) result }
{
    let mut bytes = [0; IMAGE_BYTES as usize];
    volume.read_at(file, at, &mut bytes)?;
    Ok(image_of(alloc, &bytes)?)
}

// Whether an image of this page may stand behind images of pages below `low` alone. Callers learn too that the number
// has 32 bits.
fn follows(page: u32, low: u32) -> bool
    ensures value { IsTrue result ↔ (low ≤ page) × (page < MAX_PAGES) }
    ensures small { page < 2 ^ 32 }
{
    low <= page && page < MAX_PAGES
}

// Reads an image that stands behind images of pages below `low` alone.
fn read_next<V: Volume>(
    alloc: Global,
    volume: &mut V,
    file: FileNo,
    at: u64,
    low: u32,
) -> Result<PageImage, LogFault>
    ensures value { IfOk result (λ image. IfSome (V.files volume.old)
        (λ fs. read_bytes (of_file fs file) at IMAGE_BYTES ≡ image_bytes (image_data image))) }
    ensures whole { IfOk result (λ image. IsWhole (image_data image)) }
    ensures follows { IfOk result (λ image. (low ≤ image.page) × (image.page < MAX_PAGES)) }
    ensures not_a_log { (named : FileNo) → IsErrOf result (LogFault.NotALog named) → (named ≡ file)
        × IfSome (V.files volume.old) (λ fs.
        (image : ImageData) × BreaksOff (read_bytes (of_file fs file) at IMAGE_BYTES) low image) }
    ensures never_full { (need room : ℕ) → IsErrOf result (LogFault.LogFull need room) → ⊥ }
    ensures same { IsOnlyRead V.files V.story V.moment V.log_faults volume.old volume.new }
    ensures faults { FailsAs LogFault.Failed (V.faults volume.old) (V.faults volume.new) result }
{
    let image = read_image(alloc, volume, file, at)?;
    if !follows(image.page, low) {
        return Err(LogFault::NotALog { file });
    }
    Ok(image)
}

impl Tail {
    ghost use Rattle.std.specs.BTreeMap.{get};
    ghost use Rattle.std.specs.Ordering.{nat_cmp};
    ghost use Rattle.ori_log.specs.Log.{IsLog, last_image};
    ghost use Rattle.ori_log.specs.Images.{AreRising};
    ghost use Rattle.ori_log.specs.Tails.{ReadTo, AddsImages, AreNoImages, IsBounded, IsNoLog, ReadsOn};

    fn new(alloc: Global) -> Self
        ensures pages { (page : ℕ) → get nat_cmp result.pages page ≡ None }
        ensures end { result.end ≡ 0 }
        ensures records { result.records ≡ 0 }
        ensures place { result.place ≡ 0 }
    {
        Tail {
            pages: BTreeMap::new(alloc),
            end: 0,
            records: 0,
            place: 0,
        }
    }

    // Reads the images of a record.
    fn read_images<V: Volume>(
        &mut self,
        alloc: Global,
        volume: &mut V,
        file: FileNo,
        count: u32,
    ) -> Result<(), LogFault>
        requires room { self.old.place + 9 + IMAGE_BYTES * count ≤ MAX_LOG_BYTES }
        ensures value { OnOk result (IfSome (V.files volume.old)
            (λ fs. self.old.place + 9 + IMAGE_BYTES * count ≤ length (of_file fs file)
            → (images : List ImageData) × AddsImages (of_file fs file)
            (self.old.place + 9) count images self.old self.new)) }
        ensures place { self.new.place ≡ self.old.place }
        ensures records { self.new.records ≡ self.old.records }
        ensures bounded { IsBounded self.old → IsBounded self.new }
        ensures not_a_log { (named : FileNo) → IsErrOf result (LogFault.NotALog named) → (named ≡ file)
            × IfSome (V.files volume.old) (λ fs.
            self.old.place + 9 + IMAGE_BYTES * count ≤ length (of_file fs file)
            → AreNoImages (drop (self.old.place + 9) (of_file fs file)) count) }
        ensures never_full { (need room : ℕ) → IsErrOf result (LogFault.LogFull need room) → ⊥ }
        ensures same { IsOnlyRead V.files V.story V.moment V.log_faults volume.old volume.new }
        ensures faults { FailsAs LogFault.Failed (V.faults volume.old) (V.faults volume.new) result }
    {
        let first = self.place + HEAD_BYTES as u64;
        let mut low = 0;
        for i in 0..count {
            let at = first + IMAGE_BYTES * i as u64;
            let PageImage { page, content } = read_next(alloc, volume, file, at, low)?;
            low = page + 1;
            self.pages.insert(page, content)?;
        }
        self.end = self.end.max(low);
        Ok(())
    }

    // Reads the record at the place, unless its gate is closed.
    fn read_record<V: Volume>(
        &mut self,
        alloc: Global,
        volume: &mut V,
        file: FileNo,
        len: u64,
    ) -> Result<bool, LogFault>
        requires short { len ≤ MAX_LOG_BYTES }
        requires counted { self.old.records ≤ self.old.place }
        ensures value { IfOk result (λ more. IfSome (V.files volume.old) (λ fs. len ≡ length (of_file fs file)
            → (records : List (List ImageData)) → ReadTo (of_file fs file) records self.old
            → ReadsOn (of_file fs file) records more self.old self.new)) }
        ensures within { OnOk result (self.new.place < len) }
        ensures further { IfOk result (λ more. IsTrue more → self.old.place < self.new.place) }
        ensures counted { OnOk result (self.new.records ≤ self.new.place) }
        ensures bounded { IsBounded self.old → IsBounded self.new }
        ensures not_a_log { (named : FileNo) → IsErrOf result (LogFault.NotALog named) → (named ≡ file)
            × IfSome (V.files volume.old) (λ fs. len ≡ length (of_file fs file)
            → (records : List (List ImageData)) → ReadTo (of_file fs file) records self.old
            → IsNoLog (of_file fs file)) }
        ensures never_full { (need room : ℕ) → IsErrOf result (LogFault.LogFull need room) → ⊥ }
        ensures same { IsOnlyRead V.files V.story V.moment V.log_faults volume.old volume.new }
        ensures faults { FailsAs LogFault.Failed (V.faults volume.old) (V.faults volume.new) result }
    {
        if self.place >= len {
            return Err(LogFault::NotALog { file });
        }
        let head = Head::read(volume, file, self.place)?;
        if head.gate != OPEN_GATE {
            return Ok(false);
        }
        if !head.fits(len - self.place) {
            return Err(LogFault::NotALog { file });
        }
        self.read_images(alloc, volume, file, head.count)?;
        self.place += 5 + head.body as u64;
        self.records += 1;
        Ok(true)
    }

    /// Reads the records of a log of this length.
    pub fn read<V: Volume>(
        alloc: Global,
        volume: &mut V,
        file: FileNo,
        len: u64,
    ) -> Result<Self, LogFault>
        requires short { len ≤ MAX_LOG_BYTES }
        ensures value { IfOk result (λ tail. IfSome (V.files volume.old) (λ fs. len ≡ length (of_file fs file)
            → (records : List (List ImageData)) × IsLog (of_file fs file) records
            × ReadTo (of_file fs file) records tail)) }
        ensures within { IfOk result (λ tail. tail.place < len) }
        ensures counted { IfOk result (λ tail. tail.records ≤ tail.place) }
        ensures bounded { IfOk result (λ tail. (page : ℕ) → MAX_PAGES ≤ page → get nat_cmp tail.pages page ≡ None) }
        ensures not_a_log { (named : FileNo) → IsErrOf result (LogFault.NotALog named) → (named ≡ file)
            × IfSome (V.files volume.old) (λ fs.
            len ≡ length (of_file fs file) → IsNoLog (of_file fs file)) }
        ensures never_full { (need room : ℕ) → IsErrOf result (LogFault.LogFull need room) → ⊥ }
        ensures same { IsOnlyRead V.files V.story V.moment V.log_faults volume.old volume.new }
        ensures faults { FailsAs LogFault.Failed (V.faults volume.old) (V.faults volume.new) result }
    {
        let mut tail = Tail::new(alloc);
        loop {
            if !tail.read_record(alloc, volume, file, len)? {
                return Ok(tail);
            }
        }
    }

    /// The last image of each page, pages rising.
    pub fn into_images(self, alloc: Global) -> Result<ImageList, NoMemory>
        requires bounded { (page : ℕ) → MAX_PAGES ≤ page → get nat_cmp self.pages page ≡ None }
        ensures rising { IfOk result (λ images. AreRising 0 images) }
        ensures last { IfOk result (λ images. (page : ℕ) → last_image page images ≡ get nat_cmp self.pages page) }
    {
        let mut images = ImageList::new(alloc);
        for (page, content) in self.pages {
            images.push(PageImage { page, content })?;
        }
        Ok(images)
    }
}
