// One file of a folder.
use std::fs::{File, OpenOptions};
use std::io::{self, ErrorKind};
use std::os::unix::fs::FileExt;

/// A file of a folder. One that is missing reads as an empty one, and isn't made by a read or a sync.
#[derive(Drop)]
pub struct DiskFile {
    file: Option<File>,
    // Whether a sync has failed. The system may then have dropped what it couldn't write and hold it for clean, so that
    // a later sync would answer without an error: from then on each write, cut and sync fails.
    is_lost: bool,
}

// A file that is read and written, by its path.
fn options() -> OpenOptions {
    let mut options = OpenOptions::new();
    options.read(true).write(true);
    options
}

// What a file answers of which a sync has failed.
fn lost() -> io::Error {
    io::Error::from(ErrorKind::Other)
}

impl DiskFile {
    /// Opens a file by its path, where it is there.
    pub fn open(rt: &HostRuntime, path: &str) -> io::Result<DiskFile> {
        let file = match options().open(rt, path) {
            Ok(file) => Some(file),
            Err(error) if error.kind() == ErrorKind::NotFound => None,
            Err(error) => return Err(error),
        };
        Ok(DiskFile {
            file,
            is_lost: false,
        })
    }

    /// Whether the file was missing when it was opened, and hasn't been made since.
    pub fn is_missing(&self) -> bool {
        self.file.is_none()
    }

    /// Makes the file where it was missing. It fails where the file has come to be there since, whose bytes nobody has
    /// read.
    pub fn make(&mut self, rt: &HostRuntime, path: &str) -> io::Result<()> {
        if self.file.is_some() {
            return Ok(());
        }
        let file = options().create_new(true).open(rt, path)?;
        file.sync_all()?;
        self.file = Some(file);
        Ok(())
    }

    /// Locks the file against other programs, until it is closed; fails with `WouldBlock` where another has locked it.
    pub fn lock(&self) -> io::Result<()> {
        match &self.file {
            Some(file) => Ok(file.try_lock()?),
            None => Ok(()),
        }
    }

    /// Its length.
    pub fn len(&self) -> io::Result<u64> {
        match &self.file {
            Some(file) => Ok(file.metadata()?.len()),
            None => Ok(0),
        }
    }

    /// Fills a slice with the bytes from a place on, and with zeros past the end.
    pub fn read_at(&self, at: u64, into: &mut [u8]) -> io::Result<()> {
        for byte in into.iter_mut() {
            *byte = 0;
        }
        match &self.file {
            Some(file) => fill(file, at, into),
            None => Ok(()),
        }
    }

    /// Writes bytes at a place. An empty write past the end makes the file longer too.
    pub fn write_at(&mut self, at: u64, from: &[u8]) -> io::Result<()> {
        let file = self.sure_file()?;
        if from.is_empty() && file.metadata()?.len() < at {
            return file.set_len(at);
        }
        file.write_all_at(from, at)
    }

    /// Makes the file so long, where it is longer.
    pub fn cut(&mut self, to: u64) -> io::Result<()> {
        let file = self.sure_file()?;
        if to < file.metadata()?.len() {
            return file.set_len(to);
        }
        Ok(())
    }

    /// Makes what was written last. The data's sync covers the length as well (POSIX, `fdatasync`: all that is needed
    /// to read the bytes again). After a failure the file takes nothing more.
    pub fn sync(&mut self) -> io::Result<()> {
        if self.is_missing() {
            return Ok(());
        }
        let synced = self.sure_file()?.sync_data();
        self.is_lost = synced.is_err();
        synced
    }

    // The file, where none of its syncs has failed.
    fn sure_file(&self) -> io::Result<&File> {
        match &self.file {
            Some(file) if !self.is_lost => Ok(file),
            _ => Err(lost()),
        }
    }
}

// Reads from a place of a file on until a slice is full or the file ends. The rest of the slice stays.
fn fill(file: &File, at: u64, into: &mut [u8]) -> io::Result<()> {
    let mut done = 0usize;
    // A turn reads a byte at least, or was interrupted: the limit is never reached.
    for _ in 0..u64::MAX {
        if done >= into.len() {
            return Ok(());
        }
        match file.read_at(&mut into[done..], at.saturating_add(done as u64)) {
            Ok(0) => return Ok(()),
            Ok(count) => done += count,
            Err(error) if error.kind() == ErrorKind::Interrupted => {}
            Err(error) => return Err(error),
        }
    }
    Err(io::Error::from(ErrorKind::Interrupted))
}
