// What makes the other of the two files the log.
ghost use Rattle.std.specs.Prelude.{◌≡◌, ◌≤◌, ◌∷◌, [], IsTrue, OnOk};
ghost use Rattle.ori_volume.specs.Causes.{HasCause};
ghost use Rattle.ori_volume.specs.declared.file.FileNo.{FileNo};
ghost use Rattle.ori_volume.specs.Story.{Tells, FilesCut};
ghost use Rattle.ori_log.specs.Files.{is_log_file, other_log};
ghost use Rattle.ori_log.specs.Switching.{CutsSound, Cleared, SetMaster, ClearsFiles, SetsFiles};

use crate::opening::{sync_one, write_first};
use ori_bytes::limits::CLOSED_GATE;
use ori_volume::{Failed, FileNo, Volume};

/// The other of the two log files.
pub fn other_log(file: FileNo) -> FileNo
    ensures value { result ≡ other_log file }
    ensures in_log { IsTrue (is_log_file result) }
{
    match file {
        FileNo::LogA => FileNo::LogB,
        FileNo::Master | FileNo::LogB | FileNo::Pages => FileNo::LogA,
    }
}

fn empty_file<V: Volume>(volume: &mut V, file: FileNo) -> Result<(), Failed>
    requires log_file { IsTrue (is_log_file file) }
    ensures files { Tells (FilesCut file 0 result) (V.files volume.old) (V.files volume.new) }
    ensures crash { Tells (CutsSound file result) (V.story volume.old) (V.story volume.new) }
    ensures faults { HasCause (V.faults volume.old) (V.faults volume.new) result }
    ensures log_faults { HasCause (V.log_faults volume.old) (V.log_faults volume.new) result }
    ensures log_fine { OnOk result (V.log_faults volume.new ≡ V.log_faults volume.old) }
{
    volume.cut(file, 0)
}

/// Makes a log file the one byte of a closed gate, and that firm.
pub fn clear<V: Volume>(volume: &mut V, file: FileNo) -> Result<(), Failed>
    requires log_file { IsTrue (is_log_file file) }
    ensures files { Tells (ClearsFiles file result) (V.files volume.old) (V.files volume.new) }
    ensures crash { Tells (Cleared file result) (V.story volume.old) (V.story volume.new) }
    ensures faults { HasCause (V.faults volume.old) (V.faults volume.new) result }
    ensures log_faults { HasCause (V.log_faults volume.old) (V.log_faults volume.new) result }
    ensures log_fine { OnOk result (V.log_faults volume.new ≡ V.log_faults volume.old) }
{
    empty_file(volume, file)?;
    write_first(volume, file, CLOSED_GATE)?;
    sync_one(volume, file)
}

/// Writes the master's byte, and makes it firm.
pub fn set_master<V: Volume>(volume: &mut V, byte: u8) -> Result<(), Failed>
    ensures files { Tells (SetsFiles byte result) (V.files volume.old) (V.files volume.new) }
    ensures crash { Tells (SetMaster byte result) (V.story volume.old) (V.story volume.new) }
    ensures faults { HasCause (V.faults volume.old) (V.faults volume.new) result }
    ensures log_faults { HasCause (V.log_faults volume.old) (V.log_faults volume.new) result }
    ensures log_fine { OnOk result (V.log_faults volume.new ≡ V.log_faults volume.old) }
{
    write_first(volume, FileNo::Master, byte)?;
    sync_one(volume, FileNo::Master)
}
