// What makes a volume firm, and a new one.
ghost use Rattle.std.specs.Prelude.{◌≡◌, ◌+◌, ◌≤◌, ◌∷◌, [], length, Some, IfSome, OnOk};
ghost use Rattle.ori_volume.specs.Causes.{HasCause};
ghost use Rattle.ori_volume.specs.Disk.{Files};
ghost use Rattle.ori_volume.specs.Story.{Tells, FilesWrite, CountsLog};
ghost use Rattle.ori_log.specs.Opening.{IsNew, HasLogs, made_files, SyncsSound, WritesSound, Settles, MakesLogs};
ghost use Rattle.ori_log.specs.Opening.{MakesMaster, Makes};

use ori_bytes::limits::{CLOSED_GATE, MAX_FILE_BYTES};
use ori_volume::{Failed, FileNo, Volume};

/// The master's byte of a new volume, which names the first log.
pub const FIRST_MASTER: u8 = 0;

/// Makes a file firm.
pub fn sync_one<V: Volume>(volume: &mut V, file: FileNo) -> Result<(), Failed>
    ensures files { V.files volume.new ≡ V.files volume.old }
    ensures crash { Tells (SyncsSound file result) (V.story volume.old) (V.story volume.new) }
    ensures faults { HasCause (V.faults volume.old) (V.faults volume.new) result }
    ensures log_faults { V.log_faults volume.old ≤ V.log_faults volume.new }
    ensures log_fine { OnOk result (V.log_faults volume.new ≡ V.log_faults volume.old) }
    ensures log_cause { CountsLog file (V.log_faults volume.old) (V.log_faults volume.new) result }
{
    volume.sync(file)
}

/// Writes the first byte of a file.
pub fn write_first<V: Volume>(volume: &mut V, file: FileNo, byte: u8) -> Result<(), Failed>
    ensures files { Tells (FilesWrite file 0 (byte ∷ []) result) (V.files volume.old) (V.files volume.new) }
    ensures crash { Tells (WritesSound file (byte ∷ []) result) (V.story volume.old) (V.story volume.new) }
    ensures faults { HasCause (V.faults volume.old) (V.faults volume.new) result }
    ensures log_faults { V.log_faults volume.old ≤ V.log_faults volume.new }
    ensures log_fine { OnOk result (V.log_faults volume.new ≡ V.log_faults volume.old) }
    ensures log_cause { CountsLog file (V.log_faults volume.old) (V.log_faults volume.new) result }
{
    volume.write_at(file, 0, &[byte])
}

/// Syncs all four files.
pub fn settle<V: Volume>(volume: &mut V) -> Result<(), Failed>
    ensures files { V.files volume.new ≡ V.files volume.old }
    ensures crash { Tells (Settles result) (V.story volume.old) (V.story volume.new) }
    ensures faults { HasCause (V.faults volume.old) (V.faults volume.new) result }
    ensures log_faults { V.log_faults volume.old ≤ V.log_faults volume.new }
    ensures log_fine { OnOk result (V.log_faults volume.new ≡ V.log_faults volume.old) }
{
    sync_one(volume, FileNo::Master)?;
    sync_one(volume, FileNo::LogA)?;
    sync_one(volume, FileNo::LogB)?;
    sync_one(volume, FileNo::Pages)
}

// Makes two logs without records.
fn make_logs<V: Volume>(volume: &mut V) -> Result<(), Failed>
    ensures files { OnOk result (Tells (λ old new. IsNew old → HasLogs new) (V.files volume.old) (V.files volume.new)) }
    ensures crash { Tells (MakesLogs result) (V.story volume.old) (V.story volume.new) }
    ensures faults { HasCause (V.faults volume.old) (V.faults volume.new) result }
    ensures log_faults { V.log_faults volume.old ≤ V.log_faults volume.new }
    ensures log_fine { OnOk result (V.log_faults volume.new ≡ V.log_faults volume.old) }
{
    write_first(volume, FileNo::LogA, CLOSED_GATE)?;
    write_first(volume, FileNo::LogB, CLOSED_GATE)?;
    sync_one(volume, FileNo::LogA)?;
    sync_one(volume, FileNo::LogB)
}

// Makes the master, which names the first log.
fn make_master<V: Volume>(volume: &mut V) -> Result<(), Failed>
    ensures files { OnOk result (Tells (λ old new. HasLogs old → new ≡ made_files) (V.files volume.old)
        (V.files volume.new)) }
    ensures crash { Tells (MakesMaster result) (V.story volume.old) (V.story volume.new) }
    ensures faults { HasCause (V.faults volume.old) (V.faults volume.new) result }
    ensures log_faults { V.log_faults volume.old ≤ V.log_faults volume.new }
    ensures log_fine { OnOk result (V.log_faults volume.new ≡ V.log_faults volume.old) }
{
    write_first(volume, FileNo::Master, FIRST_MASTER)?;
    sync_one(volume, FileNo::Master)
}

/// Makes the files of an empty volume. The logs are firm before the master names one of them.
pub fn make<V: Volume>(volume: &mut V) -> Result<(), Failed>
    ensures files { OnOk result (Tells (λ old new. IsNew old → new ≡ made_files) (V.files volume.old)
        (V.files volume.new)) }
    ensures crash { Tells (Makes result) (V.story volume.old) (V.story volume.new) }
    ensures faults { HasCause (V.faults volume.old) (V.faults volume.new) result }
    ensures log_faults { V.log_faults volume.old ≤ V.log_faults volume.new }
    ensures log_fine { OnOk result (V.log_faults volume.new ≡ V.log_faults volume.old) }
{
    make_logs(volume)?;
    make_master(volume)
}
