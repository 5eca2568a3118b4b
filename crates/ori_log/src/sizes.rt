// The lengths of the four files.
ghost use Rattle.std.specs.Prelude.{◌≡◌, [], IfOk, IfSome, Some, None, length};
ghost use Rattle.ori_volume.specs.Causes.{HasCause};
ghost use Rattle.ori_volume.specs.declared.file.FileNo.{FileNo};
ghost use Rattle.ori_volume.specs.Disk.{Files, of_file};
ghost use Rattle.ori_volume.specs.OnlyRead.{IsOnlyRead};

use ori_volume::{Failed, FileNo, Volume};

/// The lengths of the four files.
#[derive(Clone, Copy)]
pub struct Sizes {
    pub master: u64,
    pub log_a: u64,
    pub log_b: u64,
    pub pages: u64,
}

impl Sizes {
    ghost use Rattle.ori_log.specs.Forms.{BreaksFirst};
    ghost use Rattle.ori_log.specs.Opening.{IsNew};
    ghost use Rattle.ori_log.specs.Measures.{Measures};

    /// Those of a volume.
    pub fn read<V: Volume>(volume: &mut V) -> Result<Self, Failed>
        ensures value { IfOk result (λ sizes. IfSome (V.files volume.old) (λ fs. Measures sizes fs)) }
        ensures same { IsOnlyRead V.files V.story V.moment V.log_faults volume.old volume.new }
        ensures faults { HasCause (V.faults volume.old) (V.faults volume.new) result }
    {
        let master = volume.len(FileNo::Master)?;
        let log_a = volume.len(FileNo::LogA)?;
        let log_b = volume.len(FileNo::LogB)?;
        let pages = volume.len(FileNo::Pages)?;
        Ok(Sizes {
            master,
            log_a,
            log_b,
            pages,
        })
    }

    /// The first file that is too long for a volume without a master.
    pub fn long_for_new(&self) -> Option<FileNo>
        ensures long { IfSome result (λ file. (fs : Files) → Measures self.now fs → fs.master ≡ []
            → BreaksFirst fs file) }
        ensures fits { result ≡ None → (fs : Files) → Measures self.now fs → fs.master ≡ [] → IsNew fs }
    {
        if self.log_a > 1 {
            return Some(FileNo::LogA);
        }
        if self.log_b > 1 {
            return Some(FileNo::LogB);
        }
        if self.pages > 0 {
            return Some(FileNo::Pages);
        }
        None
    }

    /// That of one of them.
    pub fn of(&self, file: FileNo) -> u64
        ensures { (fs : Files) → Measures self.now fs → result ≡ length (of_file fs file) }
    {
        match file {
            FileNo::Master => self.master,
            FileNo::LogA => self.log_a,
            FileNo::LogB => self.log_b,
            FileNo::Pages => self.pages,
        }
    }
}
