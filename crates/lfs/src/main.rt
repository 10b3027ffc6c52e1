//! A log-structured file system in an image file, from the command line.
#![tactic(auto)]

pub use lfs_command::command;
use lfs_command::{Terminals, command_at};
use std::io::{ErrorKind, IsTerminal};
use std::os::unix::fs::FileTypeExt;
use std::process::ExitCode;
use std::{env, fs, io};

const NO_MEMORY: u8 = 1;

const WRONG_LINE: u8 = 2;

/// What the system has for standard output.
const STANDARD_OUTPUT: &str = "/dev/stdout";

/// What is said where the words can't be read, mostly since one isn't UTF-8.
const UNREAD: &str =
    "lfs: a word can't be read: in a path of the volume write a byte as \\ff, and put a file of the host by - with < FILE";

fn words(rt: &HostRuntime) -> io::Result<Vec<String>> {
    let words = env::args(rt)?.collect(rt.alloc())?;
    Ok(words)
}

fn is_pipe(rt: &HostRuntime, path: &str) -> bool {
    match fs::metadata(rt, path) {
        Ok(metadata) => metadata.file_type().is_fifo(),
        Err(_) => false,
    }
}

fn terminals(rt: &HostRuntime) -> Terminals {
    Terminals {
        input: rt.stdin().is_terminal(),
        errors: rt.stderr().is_terminal(),
        output: rt.stdout().is_terminal(),
        pipe: is_pipe(rt, STANDARD_OUTPUT),
    }
}

fn main(rt: HostRuntime) -> ExitCode {
    let status = match words(&rt) {
        Ok(words) => command_at(
            &rt,
            rt.alloc(),
            terminals(&rt),
            words.as_slice(),
            &mut rt.reader(),
            &mut rt.stdout(),
            &mut rt.stderr(),
        ),
        Err(error) => {
            let _ = rt.eprintln(UNREAD);
            if error.kind() == ErrorKind::OutOfMemory {
                NO_MEMORY
            } else {
                WRONG_LINE
            }
        }
    };
    ExitCode::from(status)
}
