//! Uses of volumes in memory, whose devices fail and stop where standard input tells it; and cases,
//! of which it is known what is to be said.
//!
//! A line of standard input that begins with `! ` is an order, and each other line one of the next
//! script. The orders:
//!
//! - `! device N` makes a device of N sectors, without a volume.
//! - `! new N V` makes a device with an empty volume of N segments, of version V.
//! - `! device N U` and `! new N V U` do so with units of U sectors each, counted from sector 0.
//!   Where U isn't given, each sector is a unit. A volume of version 3 has such units too.
//! - `! new N V U P` makes a device with units of P sectors, and a volume with units of U.
//! - `! fail read N`, `write` or `sync`: the N-th such call from now on, counted from 0, fails once.
//! - `! stop N`: the N-th write from now on fails, and each later call too, until the device stops.
//! - `! use` mounts the device, runs the script, and takes the device back. It says the replies, and
//!   then how that ended, or why the device wasn't mounted.
//! - `! crash KIND ..` stops the device: the sectors that aren't synced are in turn as these say,
//!   which are `old`, `new` or `bad`. A sector that is `bad` spoils its whole unit.
//! - `! rest read`, `write` or `sync` makes such calls until one fails, and says how many didn't.
//! - `! writes` says how many writes were begun since `stop`.
//! - `! image N V U PATH` makes a file with an empty volume of N segments, of version V, whose units
//!   have U sectors in version 3.
//! - `! cases` checks the cases of the folder that the program runs in. The exit status is 1 where
//!   one differs.
//!
//! The cases of a folder:
//!
//! - `NAME.script` is a script, and `NAME.replies` has what it writes, on a volume of 64 segments
//!   or, as `NAME.72.script`, of as many as the name tells. The volume is of version 1 or, as
//!   `NAME.v2.script` and `NAME.72.v2.script`, of version 2, and as `NAME.v3.script` of version 3.
//!   Where `NAME.tree` is there, it has the reply of `tree` once the volume has stopped and is
//!   mounted again.
//! - Each line of `NAME.bad` is a script of its own, which is one bad line.
//! - `NAME.talk` has lines as standard input has them, but for `! cases`, and `NAME.said` what is
//!   said of them.
#![tactic(auto)]

mod case;
mod device;
mod folder;
mod image;
mod order;
mod talk;

use anyhow::Result;
use folder::check_cases;
use image::make_image;
use std::io::{self, BufRead, BufReader, Write};
use std::process::ExitCode;
use talk::Talk;

/// What is told of a volume in a file.
const IMAGE: &str = "! image ";

/// Hears a line, and prints what is said of it.
fn answer<R: Print + AllocGlobal>(rt: &R, talk: &mut Talk, line: &str) -> Result<()> {
    talk.hear(rt.alloc(), line)?;
    io::writer(rt).write_all(talk.said.as_slice())?;
    talk.said.clear();
    Ok(())
}

fn main(rt: HostRuntime) -> Result<ExitCode> {
    let alloc = rt.alloc();
    let mut talk = Talk::new(alloc);
    let mut are_well = true;
    for line in BufReader::new(alloc, rt.reader())?.lines(alloc) {
        let line = line?;
        if line.as_str() == "! cases" {
            are_well = check_cases(&rt)? && are_well;
        } else if let Some(words) = line.as_str().strip_prefix(IMAGE) {
            make_image(&rt, words)?;
        } else {
            answer(&rt, &mut talk, line.as_str())?;
        }
    }
    Ok(ExitCode::from(u8::from(!are_well)))
}
