// A script from its first line to its end.
ghost use Rattle.std.specs.Prelude.{◌≡◌, ◌≤◌, length, option_map, true};
ghost use Rattle.lfs_fs.specs.Seen.{seen};
ghost use Rattle.lfs_replies.specs.Answers.{result_of};
ghost use Rattle.lfs_script.specs.Heard.{HearsTo};
ghost use Rattle.lfs_script.specs.Running.{AnswersText, Ends, EndsBy, EndsNoted, Finishes, GlancesBeforeReply, RepliesBadLine, Turns};
ghost use Rattle.lfs_script.specs.Strict.{Follows, ReadsTo, WritesOn, WritesTo};

use crate::answer::make;
use crate::line::{LineEnd, next_line};
use crate::source::Source;
use crate::witness::{Glances, Witness};
use lfs_device::SectorDevice;
use lfs_fs::{Fs, FsError};
use lfs_lines::parse;
use lfs_model::limits::LONGEST_LINE;
use lfs_replies::{Answer, put_bad, put_reply};
use lfs_streams::{CountsReads, CountsWrites, ReadCount, WriteCount};
use lfs_words::WordFault;
use std::alloc::Global;
use std::io::{Read, Write};

/// How a run ended.
#[derive(Clone, Copy, Debug, PartialEq, Eq)]
pub enum ScriptEnd {
    /// The reader's end came, and each line has its reply.
    Done,
    /// The line of this number, counted from 1, is no call. Its reply is written.
    BadLine(u64),
    /// A read failed.
    Read,
    /// A write failed or took nothing.
    Write,
    /// Memory refused the line's buffer, and nothing was read.
    Memory,
}

/// How a strict run ended.
#[derive(Clone, Copy, Debug, PartialEq, Eq)]
pub enum StrictEnd {
    /// As a run that isn't strict may end.
    Script(ScriptEnd),
    /// A call was refused, and its reply is written.
    Refused,
}

// Says that the line is bad.
fn refuse<W: Write, C: CountsWrites<W>>(writer: &mut W, counter: &mut C, line: u64) -> ScriptEnd
    ensures replies { RepliesBadLine result (W.contents writer.old) (W.contents writer.new) line }
    ensures writes { WritesTo (StrictEnd.Script result) (C.failures counter.old)
        (C.failures counter.new) }
{
    match put_bad(writer, counter, line) {
        Ok(()) => ScriptEnd::BadLine(line),
        Err(_) => ScriptEnd::Write,
    }
}

// Makes a line's call. None where it is bad.
fn answer_line<D: SectorDevice>(
    alloc: Global,
    fs: &mut Fs<D>,
    line: &[u8],
) -> Option<Result<Answer, FsError>>
    requires short { length line.now ≤ LONGEST_LINE }
    ensures { AnswersText D.SectorDevice.state (option_map result_of result)
        (seen fs.old)
        (seen fs.new) line.now }
{
    match parse(alloc, line) {
        Ok(call) => Some(make(alloc, fs, &call)),
        Err(WordFault::Memory) => Some(Err(FsError::NoMemory)),
        Err(WordFault::Spelling) => None,
    }
}

// How a run ends behind an answer whose reply went out. None where it goes on.
fn decide(strict: bool, answer: &Result<Answer, FsError>) -> Option<StrictEnd>
    ensures { Follows strict result (result_of answer.now) }
{
    if strict && answer.is_err() {
        return Some(StrictEnd::Refused);
    }
    None
}

// Makes a line's call and writes its reply. None where the script goes on.
fn turn<W: Write, D: SectorDevice, S: Witness<D, W>, C: CountsWrites<W>>(
    alloc: Global,
    strict: bool,
    writer: &mut W,
    counter: &mut C,
    witness: &mut S,
    fs: &mut Fs<D>,
    line: &[u8],
    count: u64,
) -> Option<StrictEnd>
    requires short { length line.now ≤ LONGEST_LINE }
    ensures turns { Turns D.SectorDevice.state strict result (W.contents writer.old)
        (W.contents writer.new) (seen fs.old) (seen fs.new) line.now count }
    ensures glances { GlancesBeforeReply D.SectorDevice.state (seen fs.new)
        (W.contents writer.old)
        line.now (S.glances witness.old) (S.glances witness.new) }
    ensures writes { WritesOn result (C.failures counter.old) (C.failures counter.new) }
    ensures unheard { S.heard witness.new ≡ S.heard witness.old }
{
    let Some(answer) = answer_line(alloc, fs, line) else {
        return Some(StrictEnd::Script(refuse(writer, counter, count)));
    };
    witness.glance(fs.device(), writer);
    match put_reply(writer, counter, &answer) {
        Ok(()) => decide(strict, &answer),
        Err(_) => Some(StrictEnd::Script(ScriptEnd::Write)),
    }
}

// The last line, which may be none.
fn finish<W: Write, D: SectorDevice, S: Witness<D, W>, C: CountsWrites<W>>(
    alloc: Global,
    strict: bool,
    writer: &mut W,
    counter: &mut C,
    witness: &mut S,
    fs: &mut Fs<D>,
    line: &[u8],
    count: u64,
) -> StrictEnd
    requires short { length line.now ≤ LONGEST_LINE }
    ensures finishes { Finishes D.SectorDevice.state strict result
        (W.contents writer.old)
        (W.contents writer.new) (seen fs.old) (seen fs.new) line.now count (S.glances witness.old)
        (S.glances witness.new) }
    ensures writes { WritesTo result (C.failures counter.old) (C.failures counter.new) }
    ensures unheard { S.heard witness.new ≡ S.heard witness.old }
{
    if line.is_empty() {
        return StrictEnd::Script(ScriptEnd::Done);
    }
    match turn(alloc, strict, writer, counter, witness, fs, line, count) {
        Some(end) => end,
        None => StrictEnd::Script(ScriptEnd::Done),
    }
}

/// Makes the calls of the lines that the reader gives, and writes their replies. It flushes the
/// writer before each read, whatever that answers: behind a buffer each reply goes out before the
/// next line is asked for. The end is the caller's to flush.
pub fn run<R: Read, W: Write, D: SectorDevice>(
    alloc: Global,
    reader: &mut R,
    writer: &mut W,
    fs: &mut Fs<D>,
) -> ScriptEnd
    ensures { Ends D.SectorDevice.state result (R.remaining reader.old)
        (R.remaining reader.new)
        (W.contents writer.old) (W.contents writer.new) (seen fs.old) (seen fs.new) }
{
    let mut reads = ReadCount::new();
    let mut writes = WriteCount::new();
    let mut glances = Glances::<D, W>::new();
    match run_noted(
        alloc,
        false,
        reader,
        &mut reads,
        writer,
        &mut writes,
        &mut glances,
        fs,
    ) {
        StrictEnd::Script(end) => end,
        StrictEnd::Refused => unreachable!(),
    }
}

/// As `run`, to the first call that is refused. Its reply is the last.
pub fn run_strict<R: Read, W: Write, D: SectorDevice>(
    alloc: Global,
    reader: &mut R,
    writer: &mut W,
    fs: &mut Fs<D>,
) -> StrictEnd
    ensures { EndsBy D.SectorDevice.state true result (R.remaining reader.old)
        (R.remaining reader.new) (W.contents writer.old) (W.contents writer.new) (seen fs.old)
        (seen fs.new) }
{
    let mut reads = ReadCount::new();
    let mut writes = WriteCount::new();
    let mut glances = Glances::<D, W>::new();
    run_noted(
        alloc,
        true,
        reader,
        &mut reads,
        writer,
        &mut writes,
        &mut glances,
        fs,
    )
}

/// As `run` or `run_strict`, before a witness, which glances at device and writer between each call
/// and its reply, and hears the reads. The counters make the reads and the writes: where the run
/// ends since it can't read on, a read of the reader failed, and it ends as `Write` just where a
/// write of the writer failed or took nothing. What the witness heard is the script in hindsight, of
/// a reader whose bytes aren't known too.
pub fn run_noted<
    R: Read,
    W: Write,
    D: SectorDevice,
    S: Witness<D, W>,
    C: CountsReads<R>,
    K: CountsWrites<W>,
>(
    alloc: Global,
    strict: bool,
    reader: &mut R,
    reads: &mut C,
    writer: &mut W,
    writes: &mut K,
    witness: &mut S,
    fs: &mut Fs<D>,
) -> StrictEnd
    ensures ends { EndsNoted D.SectorDevice.state strict result (R.remaining reader.old)
        (R.remaining reader.new) (W.contents writer.old) (W.contents writer.new) (seen fs.old)
        (seen fs.new) (S.glances witness.old) (S.glances witness.new) }
    ensures reads { ReadsTo result (C.failures reads.old) (C.failures reads.new)
        (R.remaining reader.old) (R.remaining reader.new) }
    ensures writes { WritesTo result (K.failures writes.old) (K.failures writes.new) }
    ensures heard { HearsTo (S.heard witness.old) (S.heard witness.new) (λ r r'.
        EndsNoted D.SectorDevice.state strict result r r' (W.contents writer.old)
        (W.contents writer.new) (seen fs.old) (seen fs.new) (S.glances witness.old)
        (S.glances witness.new)
        × ReadsTo result (C.failures reads.old) (C.failures reads.new) r r') }
{
    let Ok(mut line) = Vec::with_capacity(alloc, LONGEST_LINE) else {
        return StrictEnd::Script(ScriptEnd::Memory);
    };
    let Ok(mut source) = Source::new(alloc) else {
        return StrictEnd::Script(ScriptEnd::Memory);
    };
    for count in 1..u64::MAX {
        match next_line::<R, W, D, S, C>(&mut source, reader, reads, writer, witness, &mut line) {
            Ok(LineEnd::Newline) => {
                let text = line.as_slice();
                if let Some(end) = turn(alloc, strict, writer, writes, witness, fs, text, count) {
                    return end;
                }
            }
            Ok(LineEnd::Input) => {
                let text = line.as_slice();
                return finish(alloc, strict, writer, writes, witness, fs, text, count);
            }
            Ok(LineEnd::TooLong(_)) => return StrictEnd::Script(refuse(writer, writes, count)),
            Err(_) => return StrictEnd::Script(ScriptEnd::Read),
        }
    }
    StrictEnd::Script(ScriptEnd::Read)
}
