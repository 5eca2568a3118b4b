//! The program: the store's commands over the four files of a folder, standard input and standard output.
//!
//! `orient` is the top call, over any volume, source, sink and gate: its clauses are the store's promises. `main` hands
//! it the real ones.
#![tactic(auto)]

ghost use Rattle.std.specs.Prelude.{◌≡◌};
ghost use Rattle.std.specs.IoError.{error_kind};

mod disk_file;
mod ending;
mod files;
mod folder;
mod orient;
mod streams;
#[cfg(test)]
mod tests;

use ending::{say_unopened, say_why};
use files::FileVolume;
use ori_script::status;
use ori_volume::NoGate;
use std::env;
use std::io::{self, ErrorKind, Stdin};
use std::process::ExitCode;
use streams::{StdSink, StdSource, hold_standard_streams};

const USAGE: &str = "usage: orient_run <folder> script";

const VERSION: &str = "0.2.0";

// The status of what failed before the top call, or that of being out of memory where that was the cause.
fn fault_status(error: &io::Error, other: u8) -> u8
    ensures memory { error_kind error.now ≡ ErrorKind.OutOfMemory → result ≡ 2 }
    ensures other { (error_kind error.now ≡ ErrorKind.OutOfMemory → ⊥) → result ≡ other }
{
    match error.kind() {
        ErrorKind::OutOfMemory => status::NO_MEMORY,
        _ => other,
    }
}

// Whether a word can be a folder's: no option is.
fn is_folder(word: &str) -> bool {
    !word.is_empty() && !word.starts_with('-')
}

// Opens standard input and a folder for the run of a command. No file that is opened becomes a standard stream.
fn open(rt: &HostRuntime, folder: &str) -> io::Result<(StdSource<Stdin>, FileVolume)> {
    hold_standard_streams(rt)?;
    let source = StdSource::new(rt.alloc(), rt.stdin())?;
    Ok((source, FileVolume::open(rt, folder)?))
}

// The status of a command over a folder. At other words than a command's nothing is opened.
fn command(rt: &HostRuntime, folder: &str, words: &[String]) -> u8 {
    if !is_folder(folder) || !orient::is_script_words(words) {
        return status::WRONG_WORDS;
    }
    let (mut source, volume) = match open(rt, folder) {
        Ok(opened) => opened,
        Err(error) => {
            say_unopened(rt, folder, &error);
            return fault_status(&error, status::VOLUME_FAILED);
        }
    };
    let mut sink = StdSink::new(rt.stdout());
    let outcome = orient::orient(rt.alloc(), words, volume, &mut source, &mut sink, &NoGate);
    let status = outcome.status;
    say_why(rt, folder, source.line(), outcome);
    status
}

// Prints a line that was asked for.
fn print_line(rt: &HostRuntime, line: &str) -> u8 {
    match println!(rt; "{line}") {
        Ok(()) => status::INPUT_ENDED,
        Err(_) => status::SINK_FAILED,
    }
}

// The status of the words after the program's own.
fn words_status(rt: &HostRuntime, words: &[String]) -> u8 {
    match words {
        [word] if word.as_str() == "--help" => print_line(rt, USAGE),
        [word] if word.as_str() == "--version" => print_line(rt, VERSION),
        [folder, words @ ..] => command(rt, folder.as_str(), words),
        [] => status::WRONG_WORDS,
    }
}

// The status of the whole command line.
fn command_line(rt: &HostRuntime) -> u8 {
    let args = match env::args(rt) {
        Ok(args) => args,
        Err(error) => return fault_status(&error, status::WRONG_WORDS),
    };
    let words: Result<Vec<String>, _> = args.collect(rt.alloc());
    match words {
        Ok(words) => match words.as_slice() {
            [_, words @ ..] => words_status(rt, words),
            [] => status::WRONG_WORDS,
        },
        Err(_) => status::NO_MEMORY,
    }
}

fn main(rt: HostRuntime) -> ExitCode {
    let status = command_line(&rt);
    if status == status::WRONG_WORDS {
        let _ = eprintln!(rt; "{USAGE}");
    }
    ExitCode::from(status)
}
