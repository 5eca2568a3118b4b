// What goes to a log file, by way of one buffer.
ghost use Rattle.std.specs.Prelude.{◌≡◌, ◌+◌, ◌*◌, ◌≤◌, [], ◌∷◌, ◌++◌, length, replicate, IsTrue, OnOk, map, flat_map};
ghost use Rattle.std.specs.Prelude.{take};
ghost use Rattle.std.specs.Int.{w32, to_be_bytes};
ghost use Rattle.ori_log.specs.declared.stage.TheConstants.{STAGE_BYTES};
ghost use Rattle.ori_volume.specs.Causes.{HasCause};
ghost use Rattle.ori_volume.specs.Story.{Tells};

use crate::{ImageList, PageImage};
use ori_bytes::NoMemory;
use ori_bytes::limits::{CLOSED_GATE, LOG_STEP_BYTES, MAX_LOG_BYTES, MAX_WEIGHT, PAGE_BYTES};
use ori_volume::{Failed, FileNo, Volume};
use std::alloc::Global;

/// Bytes that are staged for one write of the device: as many as the zeros that a log file may be lengthened by.
pub const STAGE_BYTES: usize = LOG_STEP_BYTES as usize;

/// Bytes of an image: the page's number and its content.
pub const IMAGE_BYTES: u64 = 4 + PAGE_BYTES as u64;

/// Bytes on their way to a file.
#[derive(Drop)]
pub struct Stage {
    pub buffer: Vec<u8>,
    /// How many bytes of the buffer wait to be written.
    pub filled: usize,
    /// Where in the file they go.
    pub at: u64,
    ghost sized: { length buffer.items ≡ STAGE_BYTES },
    ghost within: { filled ≤ STAGE_BYTES },
}

impl Stage {
    ghost use Rattle.ori_log.specs.Staging.{Stages, StagesFiles};
    ghost use Rattle.ori_log.specs.Files.{is_log_file};
    ghost use Rattle.ori_log.specs.Images.{image_data, behind_gate};
    ghost use Rattle.ori_log.specs.Log.{image_bytes};

    /// An empty one; it takes the memory of its buffer.
    pub fn new(alloc: Global) -> Result<Self, NoMemory> {
        Ok(Stage {
            buffer: Vec::from_elem(alloc, 0, STAGE_BYTES)?,
            filled: 0,
            at: 0,
        })
    }

    /// Begins at this place of a file, with nothing staged.
    pub fn begin(&mut self, at: u64)
        ensures place { self.new.at ≡ at }
        ensures empty { self.new.filled ≡ 0 }
    {
        self.filled = 0;
        self.at = at;
    }

    /// Writes what waits.
    pub fn flush<V: Volume>(&mut self, volume: &mut V, file: FileNo) -> Result<(), Failed>
        requires log_file { IsTrue (is_log_file file) }
        requires room { self.old.at + self.old.filled ≤ MAX_LOG_BYTES }
        ensures reached { OnOk result (self.new.at ≡ self.old.at + self.old.filled) }
        ensures empty { OnOk result (self.new.filled ≡ 0) }
        ensures later { self.old.at ≤ self.new.at }
        ensures files { Tells (StagesFiles file self.old self.new [] result) (V.files volume.old) (V.files volume.new) }
        ensures crash { Tells (Stages file self.old self.new [] result) (V.story volume.old) (V.story volume.new) }
        ensures faults { HasCause (V.faults volume.old) (V.faults volume.new) result }
        ensures log_faults { HasCause (V.log_faults volume.old) (V.log_faults volume.new) result }
        ensures log_fine { OnOk result (V.log_faults volume.new ≡ V.log_faults volume.old) }
    {
        volume.write_at(file, self.at, &self.buffer[..self.filled])?;
        self.at += self.filled as u64;
        self.filled = 0;
        Ok(())
    }

    // Writes what waits unless there is room for so many bytes more.
    fn make_room<V: Volume>(
        &mut self,
        volume: &mut V,
        file: FileNo,
        count: usize,
    ) -> Result<(), Failed>
        requires log_file { IsTrue (is_log_file file) }
        requires piece { count ≤ STAGE_BYTES }
        requires room { self.old.at + self.old.filled ≤ MAX_LOG_BYTES }
        ensures fits { OnOk result (self.new.filled + count ≤ STAGE_BYTES) }
        ensures reached { OnOk result (self.new.at + self.new.filled ≡ self.old.at + self.old.filled) }
        ensures later { self.old.at ≤ self.new.at }
        ensures files { Tells (StagesFiles file self.old self.new [] result) (V.files volume.old) (V.files volume.new) }
        ensures crash { Tells (Stages file self.old self.new [] result) (V.story volume.old) (V.story volume.new) }
        ensures faults { HasCause (V.faults volume.old) (V.faults volume.new) result }
        ensures log_faults { HasCause (V.log_faults volume.old) (V.log_faults volume.new) result }
        ensures log_fine { OnOk result (V.log_faults volume.new ≡ V.log_faults volume.old) }
    {
        if count <= STAGE_BYTES - self.filled {
            return Ok(());
        }
        self.flush(volume, file)
    }

    // Puts bytes that there is room for behind what waits.
    fn copy(&mut self, bytes: &[u8])
        requires { self.old.filled + length bytes.now ≤ STAGE_BYTES }
        ensures place { self.new.at ≡ self.old.at }
        ensures count { self.new.filled ≡ self.old.filled + length bytes.now }
        ensures value { take self.new.filled self.new.buffer.items
            ≡ take self.old.filled self.old.buffer.items ++ bytes.now }
    {
        let end = self.filled + bytes.len();
        self.buffer[self.filled..end].copy_from_slice(bytes);
        self.filled = end;
    }

    /// Stages bytes behind the others.
    pub fn put<V: Volume>(
        &mut self,
        volume: &mut V,
        file: FileNo,
        bytes: &[u8],
    ) -> Result<(), Failed>
        requires log_file { IsTrue (is_log_file file) }
        requires piece { length bytes.now ≤ STAGE_BYTES }
        requires room { self.old.at + self.old.filled + length bytes.now ≤ MAX_LOG_BYTES }
        ensures reached { OnOk result (self.new.at + self.new.filled
            ≡ self.old.at + self.old.filled + length bytes.now) }
        ensures later { self.old.at ≤ self.new.at }
        ensures files { Tells (StagesFiles file self.old self.new bytes.now result) (V.files volume.old)
            (V.files volume.new) }
        ensures crash { Tells (Stages file self.old self.new bytes.now result) (V.story volume.old)
            (V.story volume.new) }
        ensures faults { HasCause (V.faults volume.old) (V.faults volume.new) result }
        ensures log_faults { HasCause (V.log_faults volume.old) (V.log_faults volume.new) result }
        ensures log_fine { OnOk result (V.log_faults volume.new ≡ V.log_faults volume.old) }
    {
        self.make_room(volume, file, bytes.len())?;
        self.copy(bytes);
        Ok(())
    }

    // Stages an image: the number of its page, and its content.
    fn put_image<V: Volume>(
        &mut self,
        volume: &mut V,
        file: FileNo,
        image: &PageImage,
    ) -> Result<(), Failed>
        requires log_file { IsTrue (is_log_file file) }
        requires room { self.old.at + self.old.filled + IMAGE_BYTES ≤ MAX_LOG_BYTES }
        ensures reached { OnOk result (self.new.at + self.new.filled ≡ self.old.at + self.old.filled + IMAGE_BYTES) }
        ensures later { self.old.at ≤ self.new.at }
        ensures files { Tells (StagesFiles file self.old self.new (image_bytes (image_data image.now)) result)
            (V.files volume.old) (V.files volume.new) }
        ensures crash { Tells (Stages file self.old self.new (image_bytes (image_data image.now)) result)
            (V.story volume.old) (V.story volume.new) }
        ensures faults { HasCause (V.faults volume.old) (V.faults volume.new) result }
        ensures log_faults { HasCause (V.log_faults volume.old) (V.log_faults volume.new) result }
        ensures log_fine { OnOk result (V.log_faults volume.new ≡ V.log_faults volume.old) }
    {
        self.put(volume, file, &image.page.to_be_bytes())?;
        self.put(volume, file, image.bytes())
    }

    // Stages images, one behind the other.
    fn put_images<V: Volume>(
        &mut self,
        volume: &mut V,
        file: FileNo,
        images: &[PageImage],
    ) -> Result<(), Failed>
        requires log_file { IsTrue (is_log_file file) }
        requires room { self.old.at + self.old.filled + IMAGE_BYTES * length images.now ≤ MAX_LOG_BYTES }
        ensures reached { OnOk result (self.new.at + self.new.filled
            ≡ self.old.at + self.old.filled + IMAGE_BYTES * length images.now) }
        ensures later { self.old.at ≤ self.new.at }
        ensures files { Tells (StagesFiles file self.old self.new (flat_map image_bytes
            (map image_data images.now)) result)
            (V.files volume.old) (V.files volume.new) }
        ensures crash { Tells (Stages file self.old self.new (flat_map image_bytes (map image_data images.now)) result)
            (V.story volume.old) (V.story volume.new) }
        ensures faults { HasCause (V.faults volume.old) (V.faults volume.new) result }
        ensures log_faults { HasCause (V.log_faults volume.old) (V.log_faults volume.new) result }
        ensures log_fine { OnOk result (V.log_faults volume.new ≡ V.log_faults volume.old) }
    {
        for image in images {
            self.put_image(volume, file, image)?;
        }
        Ok(())
    }

    // Stages the length of a record's body and the number of its images.
    fn put_head<V: Volume>(
        &mut self,
        volume: &mut V,
        file: FileNo,
        count: u32,
    ) -> Result<(), Failed>
        requires log_file { IsTrue (is_log_file file) }
        requires few { count ≤ MAX_WEIGHT }
        requires room { self.old.at + self.old.filled + 8 ≤ MAX_LOG_BYTES }
        ensures reached { OnOk result (self.new.at + self.new.filled ≡ self.old.at + self.old.filled + 8) }
        ensures later { self.old.at ≤ self.new.at }
        ensures files { Tells (StagesFiles file self.old self.new
            (to_be_bytes w32 (4 + IMAGE_BYTES * count) ++ to_be_bytes w32 count) result)
            (V.files volume.old) (V.files volume.new) }
        ensures crash { Tells (Stages file self.old self.new
            (to_be_bytes w32 (4 + IMAGE_BYTES * count) ++ to_be_bytes w32 count) result)
            (V.story volume.old) (V.story volume.new) }
        ensures faults { HasCause (V.faults volume.old) (V.faults volume.new) result }
        ensures log_faults { HasCause (V.log_faults volume.old) (V.log_faults volume.new) result }
        ensures log_fine { OnOk result (V.log_faults volume.new ≡ V.log_faults volume.old) }
    {
        let body = 4 + IMAGE_BYTES as u32 * count;
        self.put(volume, file, &body.to_be_bytes())?;
        self.put(volume, file, &count.to_be_bytes())
    }

    // Puts zeros that there is room for behind what waits.
    fn copy_zeros(&mut self, count: usize)
        requires { self.old.filled + count ≤ STAGE_BYTES }
        ensures place { self.new.at ≡ self.old.at }
        ensures count { self.new.filled ≡ self.old.filled + count }
        ensures value { take self.new.filled self.new.buffer.items
            ≡ take self.old.filled self.old.buffer.items ++ replicate count 0 }
    {
        let end = self.filled + count;
        self.buffer[self.filled..end].fill(0);
        self.filled = end;
    }

    // Stages zeros behind the others.
    fn put_zeros<V: Volume>(
        &mut self,
        volume: &mut V,
        file: FileNo,
        count: usize,
    ) -> Result<(), Failed>
        requires log_file { IsTrue (is_log_file file) }
        requires piece { count ≤ STAGE_BYTES }
        requires room { self.old.at + self.old.filled + count ≤ MAX_LOG_BYTES }
        ensures reached { OnOk result (self.new.at + self.new.filled ≡ self.old.at + self.old.filled + count) }
        ensures later { self.old.at ≤ self.new.at }
        ensures files { Tells (StagesFiles file self.old self.new (replicate count 0) result) (V.files volume.old)
            (V.files volume.new) }
        ensures crash { Tells (Stages file self.old self.new (replicate count 0) result) (V.story volume.old)
            (V.story volume.new) }
        ensures faults { HasCause (V.faults volume.old) (V.faults volume.new) result }
        ensures log_faults { HasCause (V.log_faults volume.old) (V.log_faults volume.new) result }
        ensures log_fine { OnOk result (V.log_faults volume.new ≡ V.log_faults volume.old) }
    {
        self.make_room(volume, file, count)?;
        self.copy_zeros(count);
        Ok(())
    }

    // Stages the gate behind a record and so many zeros behind that, and writes all that waits.
    fn put_end<V: Volume>(
        &mut self,
        volume: &mut V,
        file: FileNo,
        zeros: usize,
    ) -> Result<(), Failed>
        requires log_file { IsTrue (is_log_file file) }
        requires piece { zeros ≤ STAGE_BYTES }
        requires room { self.old.at + self.old.filled + 1 + zeros ≤ MAX_LOG_BYTES }
        ensures reached { OnOk result (self.new.at ≡ self.old.at + self.old.filled + 1 + zeros) }
        ensures empty { OnOk result (self.new.filled ≡ 0) }
        ensures later { self.old.at ≤ self.new.at }
        ensures files { Tells (StagesFiles file self.old self.new (CLOSED_GATE ∷ replicate zeros 0) result)
            (V.files volume.old) (V.files volume.new) }
        ensures crash { Tells (Stages file self.old self.new (CLOSED_GATE ∷ replicate zeros 0) result)
            (V.story volume.old) (V.story volume.new) }
        ensures faults { HasCause (V.faults volume.old) (V.faults volume.new) result }
        ensures log_faults { HasCause (V.log_faults volume.old) (V.log_faults volume.new) result }
        ensures log_fine { OnOk result (V.log_faults volume.new ≡ V.log_faults volume.old) }
    {
        self.put(volume, file, &[CLOSED_GATE])?;
        self.put_zeros(volume, file, zeros)?;
        self.flush(volume, file)
    }

    /// Writes a record's body with its length before it and a closed gate and so many zeros behind it, from where it
    /// began.
    pub fn put_record<V: Volume>(
        &mut self,
        volume: &mut V,
        file: FileNo,
        images: &ImageList,
        zeros: usize,
    ) -> Result<(), Failed>
        requires log_file { IsTrue (is_log_file file) }
        requires few { length images.now ≤ MAX_WEIGHT }
        requires piece { zeros ≤ STAGE_BYTES }
        requires room { self.old.at + self.old.filled + 9 + IMAGE_BYTES * length images.now + zeros ≤ MAX_LOG_BYTES }
        ensures reached { OnOk result (self.new.at
            ≡ self.old.at + self.old.filled + 9 + IMAGE_BYTES * length images.now + zeros) }
        ensures empty { OnOk result (self.new.filled ≡ 0) }
        ensures files { Tells (StagesFiles file self.old self.new (behind_gate images.now ++ replicate zeros 0) result)
            (V.files volume.old) (V.files volume.new) }
        ensures crash { Tells (Stages file self.old self.new (behind_gate images.now ++ replicate zeros 0) result)
            (V.story volume.old) (V.story volume.new) }
        ensures faults { HasCause (V.faults volume.old) (V.faults volume.new) result }
        ensures log_faults { HasCause (V.log_faults volume.old) (V.log_faults volume.new) result }
        ensures log_fine { OnOk result (V.log_faults volume.new ≡ V.log_faults volume.old) }
    {
        self.put_head(volume, file, images.len() as u32)?;
        self.put_images(volume, file, images.as_slice())?;
        self.put_end(volume, file, zeros)
    }
}
