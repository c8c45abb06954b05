//! The command `x917`: key management by the messages of ANSI X9.17 (ISO 8732).
#![tactic(auto)]

mod auditing;
mod carrying;
mod courses;
mod drilling;
mod helping;
mod replaying;
mod top;

use call_ends::{Status, exit_code, status_line};
use std::alloc::AllocGlobal;
use std::fs::OpenOptions;
use std::io::Write;
use std::os::fd::AsRawFd;
use std::process::ExitCode;
use std::rt::{Clock, Env, Files};
use std::{env, io};
use x_base::{NoMemory, StdSink, StdSource, Words};
use x_disk::FolderShelf;
use x_line::UsageKind;

/// What stands on standard error behind the line of a faulty command line.
const ASK_FOR_HELP: &[u8] = b"Try 'x917 help' for the commands and their options.\n";

/// The highest of the numbers 0, 1 and 2 of standard input, output and error.
const LAST_STANDARD: i32 = 2;

/// A folder, opened in place of the first of the standard descriptors that is closed, if any. It can be neither read as a
/// stream nor written, so what was closed answers faults, and no file that is opened later gets its number.
fn stand_in<R: Files>(rt: &R) -> io::Result<Option<R::File>>
where
    R::File: AsRawFd,
{
    let folder = OpenOptions::new().read(true).open(rt, "/")?;
    if folder.as_raw_fd() <= LAST_STANDARD {
        Ok(Some(folder))
    } else {
        Ok(None)
    }
}

/// The arguments without the program's name.
fn words_of<R: Env + AllocGlobal>(rt: &R) -> io::Result<Result<Words, NoMemory>> {
    let mut words = Words::new(rt.alloc());
    for word in env::args(rt)?.skip(1) {
        if words.push(word.as_str()).is_err() {
            return Ok(Err(NoMemory));
        }
    }
    Ok(Ok(words))
}

/// Microseconds since 1970.
fn moment_of<R: Clock>(rt: &R) -> io::Result<u64> {
    let since = rt.since_1970()?;
    Ok(u64::try_from(since.as_micros()).unwrap_or(u64::MAX))
}

fn main(rt: HostRuntime) -> io::Result<ExitCode> {
    // Held to the end.
    let _closed = [stand_in(&rt)?, stand_in(&rt)?, stand_in(&rt)?];
    let mut source = StdSource::new(rt.stdin());
    let mut sink = StdSink::new(rt.stdout());
    let mut shelf = FolderShelf::new(rt.clone()?, rt.alloc());
    let moment = moment_of(&rt)?;
    let mut notice = None;
    let status = match words_of(&rt) {
        Ok(Ok(words)) => top::run(
            rt.alloc(),
            &words,
            moment,
            &mut source,
            &mut sink,
            &mut shelf,
            &mut notice,
        ),
        Ok(Err(NoMemory)) => Status::NoMemory,
        Err(e) => match e.kind() {
            // A word that is no UTF-8.
            io::ErrorKind::InvalidData => Status::Usage(UsageKind::Line),
            _ => return Err(e),
        },
    };
    // What becomes of these lines changes nothing.
    let _ = match status_line(rt.alloc(), &status) {
        Ok(line) => rt.stderr().write_all(line.bytes()),
        Err(NoMemory) => rt.stderr().write_all(b"x917: no memory\n"),
    };
    if let Status::Usage(_) = status {
        let _ = rt.stderr().write_all(ASK_FOR_HELP);
    }
    if let Some(notice) = notice {
        let _ = rt.stderr().write_all(notice.bytes());
    }
    Ok(ExitCode::from(exit_code(&status)))
}
