//! The files of the folder.
use crate::case::{Case, Tally, count};
use crate::talk::Talk;
use anyhow::{Context, Result, bail};
use std::alloc::Global;
use std::rt::Files;
use std::{fs, io};

/// The volume of a case: its segments, and the version of its layout.
#[derive(Clone, Copy)]
struct VolumeKind {
    segments: u16,
    version: u32,
}

/// The volume of a case whose name tells nothing of it.
const PLAIN: VolumeKind = VolumeKind {
    segments: 64,
    version: 1,
};

/// How a case's name ends whose volume is of a later version, and of which.
const LATER_VERSIONS: [(&str, u32); 2] = [(".v2", 2), (".v3", 3)];

/// What looks at the tree that a stop leaves.
const LOOK: &str = "! crash old\ntree\n! use\n";

/// The version that a case's name tells, and what stands before that in it.
fn version_of(name: &str) -> (&str, u32) {
    for (ending, version) in LATER_VERSIONS {
        if let Some(front) = name.strip_suffix(ending) {
            return (front, version);
        }
    }
    (name, PLAIN.version)
}

/// The volume that a case's name tells.
fn kind_of(name: &str) -> Result<VolumeKind> {
    let (name, version) = version_of(name);
    let segments = match name.rsplit_once('.') {
        Some((_, count)) => count
            .parse::<u16>()
            .context(format_args!("segments of {name}"))?,
        None => PLAIN.segments,
    };
    Ok(VolumeKind { segments, version })
}

/// The text of a file, or none where it isn't there.
fn text_of<R: Files + AllocGlobal>(rt: &R, name: &str, ending: &str) -> Result<Option<String>> {
    let file = format!(in rt.alloc(); "{name}.{ending}")?;
    match fs::read_to_string(rt, file.as_str()) {
        Ok(text) => Ok(Some(text)),
        Err(fault) if fault.kind() == io::ErrorKind::NotFound => Ok(None),
        Err(fault) => Err(fault.into()),
    }
}

/// The text of a file that has to be there.
fn needed<R: Files + AllocGlobal>(rt: &R, name: &str, ending: &str) -> Result<String> {
    text_of(rt, name, ending)?.context(format_args!("no {ending} of {name}"))
}

fn hear_lines(alloc: Global, talk: &mut Talk, text: &str) -> Result<()> {
    for line in text.split_terminator('\n') {
        talk.hear(alloc, line)?;
    }
    Ok(())
}

/// Runs a script on a new volume.
fn hear_script(alloc: Global, talk: &mut Talk, kind: VolumeKind, script: &str) -> Result<()> {
    let VolumeKind { segments, version } = kind;
    let new = format!(in alloc; "! new {segments} {version}")?;
    talk.hear(alloc, new.as_str())?;
    talk.add(script)?;
    talk.hear(alloc, "! use")
}

/// How a script ends that has these replies.
fn end_of(alloc: Global, replies: &str) -> Result<String> {
    let last = replies.split_terminator('\n').last().unwrap_or("");
    let end = match last.strip_prefix("bad ") {
        Some(line) => format!(in alloc; "! BadLine({line})\n")?,
        None => format!(in alloc; "! Done\n")?,
    };
    Ok(end)
}

fn lines_of(text: &str) -> usize {
    text.split_terminator('\n').count()
}

fn check_script<R: Files + Print + AllocGlobal>(
    rt: &R,
    name: &str,
    tally: &mut Tally,
) -> Result<()> {
    let alloc = rt.alloc();
    let script = needed(rt, name, "script")?;
    let replies = needed(rt, name, "replies")?;
    let tree = text_of(rt, name, "tree")?;
    let mut talk = Talk::new(alloc);
    hear_script(alloc, &mut talk, kind_of(name)?, script.as_str())?;
    let mut wanted = end_of(alloc, replies.as_str())?;
    wanted.insert_str(0, replies.as_str())?;
    if let Some(tree) = tree {
        hear_lines(alloc, &mut talk, LOOK)?;
        wanted.push_str(tree.as_str())?;
        wanted.push_str("! Done\n")?;
    }
    let case = Case {
        name,
        lines: lines_of(script.as_str()),
        wanted: wanted.as_str(),
        said: talk.said.as_slice(),
    };
    count(rt, &case, tally)
}

fn check_bad_lines<R: Files + Print + AllocGlobal>(
    rt: &R,
    name: &str,
    tally: &mut Tally,
) -> Result<()> {
    let lines = needed(rt, name, "bad")?;
    for line in lines.split_terminator('\n') {
        let mut talk = Talk::new(rt.alloc());
        hear_script(rt.alloc(), &mut talk, PLAIN, line)?;
        let case = Case {
            name: line,
            lines: 1,
            wanted: "bad 1\n! BadLine(1)\n",
            said: talk.said.as_slice(),
        };
        count(rt, &case, tally)?;
    }
    Ok(())
}

fn check_talk<R: Files + Print + AllocGlobal>(rt: &R, name: &str, tally: &mut Tally) -> Result<()> {
    let text = needed(rt, name, "talk")?;
    let wanted = needed(rt, name, "said")?;
    let mut talk = Talk::new(rt.alloc());
    hear_lines(rt.alloc(), &mut talk, text.as_str())?;
    let case = Case {
        name,
        lines: lines_of(text.as_str()),
        wanted: wanted.as_str(),
        said: talk.said.as_slice(),
    };
    count(rt, &case, tally)
}

/// Checks what a file holds, if its name has an ending. What is to be said never stands alone.
fn check_file<R: Files + Print + AllocGlobal>(rt: &R, file: &str, tally: &mut Tally) -> Result<()> {
    match file.rsplit_once('.') {
        Some((name, "script")) => check_script(rt, name, tally),
        Some((name, "bad")) => check_bad_lines(rt, name, tally),
        Some((name, "talk")) => check_talk(rt, name, tally),
        Some((name, "replies" | "tree")) => needed(rt, name, "script").map(|_| ()),
        Some((name, "said")) => needed(rt, name, "talk").map(|_| ()),
        Some(_) => bail!("{file} is no part of a case"),
        None => Ok(()),
    }
}

/// Checks all cases of the folder that the program runs in. Says whether none differs.
pub fn check_cases<R: Files + Print + AllocGlobal + Clone>(rt: &R) -> Result<bool> {
    let mut tally = Tally::default();
    for entry in fs::read_dir(rt, ".")? {
        check_file(rt, entry?.file_name(), &mut tally)?;
    }
    let Tally {
        cases,
        lines,
        differ,
    } = tally;
    println!(rt; "{cases} cases, {lines} lines, {differ} differ")?;
    Ok(differ == 0)
}
