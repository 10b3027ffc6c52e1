//! Readers that give little or fail, and writers that take little or fail.
use crate::volume::{answered, new_volume};
use lfs_device::MemDevice;
use lfs_script::fs::{Fs, InVolume};
use lfs_script::{ScriptEnd, run};
use std::alloc::{AllocError, Global};
use std::io;
use std::io::{Read, Write};
use std::test::Fail;

// Lines, the reply to each, and the entries of the tree behind it.
const LINES: [(&str, &str, usize); 4] = [
    ("create /a\n", "ok 0\n", 1),
    ("tree\n", "ok 1\n1 a file 2 1 0 -\n", 1),
    ("pwrite 0 0 616263\n", "ok 3\n", 1),
    ("create /b\n", "ok 1\n", 2),
];

fn script(alloc: Global) -> Result<String, AllocError> {
    let mut text = String::new(alloc);
    for (line, _, _) in LINES {
        text.push_str(line)?;
    }
    Ok(text)
}

// The replies to so many lines, the first ones.
fn replies(alloc: Global, count: usize) -> Result<String, AllocError> {
    let mut text = String::new(alloc);
    for (index, (_, reply, _)) in LINES.iter().enumerate() {
        if index < count {
            text.push_str(reply)?;
        }
    }
    Ok(text)
}

// Gives its bytes one at a time, and then fails or ends.
#[derive(Drop)]
struct Trickle<'a> {
    rest: &'a [u8],
    fails: bool,
}

impl Read for Trickle<'_> {
    fn read(&mut self, buf: &mut [u8]) -> io::Result<usize> {
        match (self.rest.split_first(), buf.first_mut()) {
            (Some((byte, rest)), Some(place)) => {
                *place = *byte;
                self.rest = rest;
                Ok(1)
            }
            _ if self.fails => Err(io::Error::from(io::ErrorKind::BrokenPipe)),
            _ => Ok(0),
        }
    }
}

// Whether a run over these bytes ends so on a new volume, with these replies.
fn is_read(
    alloc: Global,
    bytes: &[u8],
    fails: bool,
    end: ScriptEnd,
    replies: &[u8],
) -> Result<bool, Fail> {
    let mut reader = Trickle { rest: bytes, fails };
    let (found, output) = answered(alloc, &mut reader)?;
    Ok(found == end && output.as_slice() == replies)
}

#[test]
fn a_reader_of_one_byte_at_a_time(rt: HostRuntime) -> Result<(), Fail> {
    let alloc = rt.alloc();
    let script = script(alloc)?;
    let whole = replies(alloc, LINES.len())?;
    let bytes = script.as_bytes();
    for cut in 0..2usize {
        let end = bytes.len().saturating_sub(cut);
        let found = is_read(
            alloc,
            &bytes[..end],
            false,
            ScriptEnd::Done,
            whole.as_bytes(),
        )?;
        assert!(rt; found);
    }
    Ok(())
}

#[test]
fn a_reader_that_fails_after_each_prefix(rt: HostRuntime) -> Result<(), Fail> {
    let alloc = rt.alloc();
    let script = script(alloc)?;
    let bytes = script.as_bytes();
    for end in 0..bytes.len() + 1 {
        let prefix = &bytes[..end];
        let lines = prefix.iter().filter(|byte| **byte == b'\n').count();
        let whole = replies(alloc, lines)?;
        let found = is_read(alloc, prefix, true, ScriptEnd::Read, whole.as_bytes())?;
        assert!(rt; found);
    }
    Ok(())
}

// Takes so many bytes, and then none.
#[derive(Drop)]
struct Full(usize);

impl Write for Full {
    fn write(&mut self, buf: &[u8]) -> io::Result<usize> {
        let taken = buf.len().min(self.0);
        self.0 -= taken;
        Ok(taken)
    }

    fn flush(&mut self) -> io::Result<()> {
        Ok(())
    }
}

// Keeps what it takes, with a mark for each flush, which fails where it is told to.
#[derive(Drop)]
struct Marked {
    output: Vec<u8>,
    fails: bool,
}

impl Write for Marked {
    fn write(&mut self, buf: &[u8]) -> io::Result<usize> {
        match self.output.extend_from_slice(buf) {
            Ok(()) => Ok(buf.len()),
            Err(_) => Err(io::Error::from(io::ErrorKind::OutOfMemory)),
        }
    }

    fn flush(&mut self) -> io::Result<()> {
        if self.output.push(b'|').is_err() || self.fails {
            return Err(io::Error::from(io::ErrorKind::BrokenPipe));
        }
        Ok(())
    }
}

// What a writer is given as a script is read a byte at a time: a flush before each read, whatever
// it answers.
fn is_flushed(alloc: Global, fs: &mut Fs<InVolume<MemDevice>>, fails: bool) -> bool {
    let mut input = Trickle {
        rest: b"space\nspace\n",
        fails: false,
    };
    let mut writer = Marked {
        output: Vec::new(alloc),
        fails,
    };
    let end = run(alloc, &mut input, &mut writer, fs);
    let wanted = b"||||||ok 0 1 727 3008\n||||||ok 0 1 727 3008\n|".as_slice();
    end == ScriptEnd::Done && writer.output.as_slice() == wanted
}

#[test]
fn a_writer_is_flushed_before_each_read(rt: HostRuntime) -> Result<(), Fail> {
    let mut fs = new_volume(rt.alloc())?;
    for fails in [false, true] {
        let flushed = is_flushed(rt.alloc(), &mut fs, fails);
        assert!(rt; flushed);
    }
    Ok(())
}

// Whether a reader that fails within the second line ends a run behind the first reply.
fn fails_to_read(alloc: Global, fs: &mut Fs<InVolume<MemDevice>>) -> bool {
    let mut input = Trickle {
        rest: b"space\nspace",
        fails: true,
    };
    let mut output = Vec::new(alloc);
    let end = run(alloc, &mut input, &mut output, fs);
    end == ScriptEnd::Read && output.as_slice() == b"ok 0 1 727 3008\n".as_slice()
}

// How a run of two lines, whose replies have 32 bytes, ends where the writer has so much room.
fn end_within(alloc: Global, fs: &mut Fs<InVolume<MemDevice>>, room: usize) -> ScriptEnd {
    let mut input = b"space\nspace\n".as_slice();
    run(alloc, &mut input, &mut Full(room), fs)
}

#[test]
fn readers_and_writers_that_fail(rt: HostRuntime) -> Result<(), Fail> {
    let alloc = rt.alloc();
    let mut fs = new_volume(alloc)?;
    assert!(rt; fails_to_read(alloc, &mut fs));
    for (room, end) in [
        (0, ScriptEnd::Write),
        (1, ScriptEnd::Write),
        (15, ScriptEnd::Write),
        (16, ScriptEnd::Write),
        (31, ScriptEnd::Write),
        (32, ScriptEnd::Done),
    ] {
        assert!(rt; end_within(alloc, &mut fs, room) == end);
    }
    Ok(())
}

// Takes at most so many bytes a call, for so many calls. The next call fails, or takes none.
#[derive(Drop)]
struct Narrow {
    taken: Vec<u8>,
    most: usize,
    calls: usize,
    fails: bool,
}

impl Write for Narrow {
    fn write(&mut self, buf: &[u8]) -> io::Result<usize> {
        if self.calls == 0 && self.fails {
            return Err(io::Error::from(io::ErrorKind::BrokenPipe));
        }
        if self.calls == 0 {
            return Ok(0);
        }
        self.calls -= 1;
        let count = buf.len().min(self.most);
        match self.taken.extend_from_slice(&buf[..count]) {
            Ok(()) => Ok(count),
            Err(_) => Err(io::Error::from(io::ErrorKind::OutOfMemory)),
        }
    }

    fn flush(&mut self) -> io::Result<()> {
        Ok(())
    }
}

// How a run into this writer ends on a new volume, and how many entries the tree has then.
fn write_to(alloc: Global, writer: &mut Narrow) -> Result<(ScriptEnd, usize), Fail> {
    let script = script(alloc)?;
    let mut fs = new_volume(alloc)?;
    let end = run(alloc, &mut script.as_bytes(), writer, &mut fs);
    let entries = fs.tree()?.len();
    Ok((end, entries))
}

// The entries once that line is made within whose reply the bytes end.
fn entries_within(taken: usize) -> usize {
    let mut end = 0usize;
    for (_, reply, entries) in LINES {
        end = end.saturating_add(reply.len());
        if taken < end {
            return entries;
        }
    }
    2
}

// Whether a beginning of the replies comes out, and no line is made behind the one whose reply is
// cut.
fn gives_beginning(
    alloc: Global,
    whole: &[u8],
    most: usize,
    calls: usize,
    fails: bool,
) -> Result<bool, Fail> {
    let mut writer = Narrow {
        taken: Vec::new(alloc),
        most,
        calls,
        fails,
    };
    let (end, entries) = write_to(alloc, &mut writer)?;
    let taken = writer.taken.as_slice();
    let is_whole = taken.len() == whole.len();
    let want = if is_whole {
        ScriptEnd::Done
    } else {
        ScriptEnd::Write
    };
    Ok(
        whole.starts_with(taken)
            && (is_whole || taken.len() >= calls)
            && end == want
            && entries == entries_within(taken.len()),
    )
}

#[test]
fn a_writer_that_stops_at_each_call(rt: HostRuntime) -> Result<(), Fail> {
    let whole = replies(rt.alloc(), LINES.len())?;
    for (most, fails) in [
        (1, false),
        (1, true),
        (usize::MAX, false),
        (usize::MAX, true),
    ] {
        for calls in 0..whole.len() + 1 {
            let found = gives_beginning(rt.alloc(), whole.as_bytes(), most, calls, fails)?;
            assert!(rt; found);
        }
    }
    Ok(())
}
