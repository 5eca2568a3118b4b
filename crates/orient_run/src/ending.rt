// Why a run ended: one line on standard error, where that is a terminal.
use crate::files::FileVolume;
use crate::folder::file_name;
use ori_log::{Log, LogFault};
use ori_model::Outcome;
use ori_script::status;
use std::io::{self, ErrorKind, IsTerminal};

// Says one line of a part, a name and another part. Where it can't be said, nobody can be told.
fn say(rt: &HostRuntime, before: &str, name: &str, after: &str) {
    let _ = eprintln!(rt; "orient_run: {before}{name}{after}");
}

// Says why the system refused a folder.
fn say_unusable(rt: &HostRuntime, folder: &str, error: &io::Error) {
    let _ = eprintln!(rt; "orient_run: the folder {folder} can't be used: {error}");
}

// Says which line is of no form.
fn say_bad_line(rt: &HostRuntime, line: u64) {
    let _ = eprintln!(rt; "orient_run: line {line} of the input is too long or of no form");
}

/// Says why a folder wasn't opened.
pub fn say_unopened(rt: &HostRuntime, folder: &str, error: &io::Error) {
    if !rt.stderr().is_terminal() {
        return;
    }
    match error.kind() {
        ErrorKind::WouldBlock => say(rt, "", folder, " is in use by another program"),
        ErrorKind::OutOfMemory => say(rt, "", "", "out of memory"),
        _ => say_unusable(rt, folder, error),
    }
}

/// Says why a run ended with another status than 0 and 1. `line` is the number of the line that was read last.
pub fn say_why(rt: &HostRuntime, folder: &str, line: u64, outcome: Outcome<FileVolume>) {
    if !rt.stderr().is_terminal() {
        return;
    }
    match outcome.status {
        status::VOLUME_FAILED => say(
            rt,
            "a file of ",
            folder,
            " can't be read, written or synced",
        ),
        status::NOT_A_DATABASE => say_not_a_database(rt, folder, outcome.volume),
        status::BAD_LINE => say_bad_line(rt, line),
        status => say_cause(rt, status),
    }
}

// Why a run ended with this status, where neither a folder nor a line is to blame.
fn cause(status: u8) -> Option<&'static str> {
    match status {
        status::NO_MEMORY => Some("out of memory"),
        status::SOURCE_FAILED => Some("standard input can't be read"),
        status::SINK_FAILED => Some("standard output can't be written"),
        status::INPUT_TOO_LARGE => Some("the input has more than 2^30 bytes"),
        _ => None,
    }
}

fn say_cause(rt: &HostRuntime, status: u8) {
    if let Some(cause) = cause(status) {
        say(rt, "", "", cause);
    }
}

// The name of the file that an opening finds to be of no database, the first that breaks the form.
fn bad_file(rt: &HostRuntime, volume: FileVolume) -> Option<&'static str> {
    let mut volume = volume;
    match Log::attach(rt.alloc(), &mut volume) {
        Err(LogFault::NotALog { file }) => Some(file_name(file)),
        _ => None,
    }
}

fn say_not_a_database(rt: &HostRuntime, folder: &str, volume: FileVolume) {
    match bad_file(rt, volume) {
        Some(name) => say_bad_file(rt, folder, name),
        None => say(rt, "the files of ", folder, " are not of a database"),
    }
}

fn say_bad_file(rt: &HostRuntime, folder: &str, name: &str) {
    let _ = eprintln!(rt; "orient_run: {folder}/{name} is not of a database");
}
