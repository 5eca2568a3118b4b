// The folder of a database, which one program uses at a time.
use crate::disk_file::DiskFile;
use ori_volume::FileNo;
use std::alloc::{AllocError, Global};
use std::fs::{self, File};
use std::io::{self, ErrorKind};

/// The name of a file in its folder.
pub fn file_name(file: FileNo) -> &'static str {
    match file {
        FileNo::Master => "master",
        FileNo::LogA => "log_a",
        FileNo::LogB => "log_b",
        FileNo::Pages => "pages",
    }
}

// The path of a file of a folder.
fn path_of(alloc: Global, folder: &str, file: FileNo) -> Result<String, AllocError> {
    let name = file_name(file);
    format!(in alloc; "{folder}/{name}")
}

// Opens a file of a folder, where it is there.
fn open_file(rt: &HostRuntime, folder: &str, file: FileNo) -> io::Result<DiskFile> {
    DiskFile::open(rt, path_of(rt.alloc(), folder, file)?.as_str())
}

// Opens and locks the folder's `master`, where it is there.
fn open_master(rt: &HostRuntime, folder: &str) -> io::Result<DiskFile> {
    let master = open_file(rt, folder, FileNo::Master)?;
    master.lock()?;
    Ok(master)
}

// Whether a file of a folder is there.
fn exists(rt: &HostRuntime, folder: &str, file: FileNo) -> io::Result<bool> {
    fs::exists(rt, path_of(rt.alloc(), folder, file)?.as_str())
}

// Fails with `WouldBlock` where another program has made the folder's `master` since it was found missing. Whoever
// makes the files makes `master` first: while it is missing the others aren't of a database in the making.
fn see_alone(rt: &HostRuntime, folder: &str, master: &DiskFile) -> io::Result<()> {
    if master.is_missing() && exists(rt, folder, FileNo::Master)? {
        return Err(io::Error::from(ErrorKind::WouldBlock));
    }
    Ok(())
}

// How far the names of the four files are on the disk.
#[derive(Clone, Copy, PartialEq, Eq)]
enum Names {
    // One may be missing, or be gone after a loss of power.
    Unsure,
    // All are there, and last.
    Firm,
    // One couldn't be made, or the folder couldn't be synced: nothing is written any more.
    Lost,
}

/// The files `master`, `log_a`, `log_b` and `pages` of a folder. `master` is locked as long as this is there, which
/// keeps out every other program that locks it. Missing files are made before the first write or cut, and not by
/// reads: so a folder whose files aren't those of a database stays as it is.
#[derive(Drop)]
pub struct Folder {
    rt: HostRuntime,
    path: String,
    handle: File,
    names: Names,
    master: DiskFile,
    log_a: DiskFile,
    log_b: DiskFile,
    pages: DiskFile,
}

impl Folder {
    /// Opens the files that are there, `master` first, which is locked before any byte is read. `WouldBlock` where
    /// another program has locked it, or is making it.
    pub fn open(rt: &HostRuntime, folder: &str) -> io::Result<Folder> {
        let alloc = rt.alloc();
        // By the dot nothing but a folder is opened: a pipe would wait for its other end.
        let handle = File::open(rt, format!(in alloc; "{folder}/.")?.as_str())?;
        let master = open_master(rt, folder)?;
        let log_a = open_file(rt, folder, FileNo::LogA)?;
        let log_b = open_file(rt, folder, FileNo::LogB)?;
        let pages = open_file(rt, folder, FileNo::Pages)?;
        see_alone(rt, folder, &master)?;
        Ok(Folder {
            rt: *rt,
            path: format!(in alloc; "{folder}")?,
            handle,
            names: Names::Unsure,
            master,
            log_a,
            log_b,
            pages,
        })
    }

    /// The length of a file.
    pub fn len(&mut self, file: FileNo) -> io::Result<u64> {
        self.file(file).len()
    }

    /// Fills a slice with a file's bytes from a place on, and with zeros past its end.
    pub fn read_at(&mut self, file: FileNo, at: u64, into: &mut [u8]) -> io::Result<()> {
        self.file(file).read_at(at, into)
    }

    /// Writes bytes at a place of a file.
    pub fn write_at(&mut self, file: FileNo, at: u64, from: &[u8]) -> io::Result<()> {
        self.make_sure()?;
        self.file(file).write_at(at, from)
    }

    /// Makes a file so long, where it is longer.
    pub fn cut(&mut self, file: FileNo, to: u64) -> io::Result<()> {
        self.make_sure()?;
        self.file(file).cut(to)
    }

    /// Makes what was written to a file last.
    pub fn sync(&mut self, file: FileNo) -> io::Result<()> {
        self.file(file).sync()
    }

    fn file(&mut self, file: FileNo) -> &mut DiskFile {
        match file {
            FileNo::Master => &mut self.master,
            FileNo::LogA => &mut self.log_a,
            FileNo::LogB => &mut self.log_b,
            FileNo::Pages => &mut self.pages,
        }
    }

    // Sees once that all four files are there with names that last.
    fn make_sure(&mut self) -> io::Result<()> {
        match self.names {
            Names::Firm => Ok(()),
            Names::Lost => Err(io::Error::from(ErrorKind::Other)),
            Names::Unsure => {
                self.names = Names::Lost;
                self.make_missing()?;
                self.names = Names::Firm;
                Ok(())
            }
        }
    }

    // Makes the missing files, and syncs the folder, which has their names. Of two programs that found no `master` one
    // makes it, and one locks it.
    fn make_missing(&mut self) -> io::Result<()> {
        if self.master.is_missing() {
            self.make(FileNo::Master)?;
            self.master.lock()?;
        }
        self.make(FileNo::LogA)?;
        self.make(FileNo::LogB)?;
        self.make(FileNo::Pages)?;
        self.handle.sync_all()
    }

    fn make(&mut self, file: FileNo) -> io::Result<()> {
        let rt = self.rt;
        let path = path_of(rt.alloc(), self.path.as_str(), file)?;
        self.file(file).make(&rt, path.as_str())
    }
}
