//! The commands, over words and streams that are handed in.
ghost use Rattle.std.specs.Prelude.{◌≡◌, ◌≢◌, ◌≤◌, ◌⊎◌, Err, Ok, IfOk, OnOk, codes, false, true};
ghost use Rattle.std.specs.Io.KnownBytes.{Keeps};
ghost use Rattle.lfs_model.specs.Device.{Carries};
ghost use Rattle.lfs_device.specs.MemoryDevice.{device_state};
ghost use Rattle.lfs_grammar.specs.Asking.{HasWord, IsStrict};
ghost use Rattle.lfs_volume.specs.Standing.{in_volume};
ghost use Rattle.lfs_fs.specs.log.Mounting.{HasWholeUnits};
ghost use Rattle.lfs_script.specs.Heard.{HearsTo};
ghost use Rattle.lfs_command.specs.Playing.{PlaysToRefusal, Plays, PlaysStrictly, TellsSaved};
ghost use Rattle.lfs_command.specs.Telling.{IsTold, IsToldPlainly, IsToldStrictly, TellsInput, TellsOutput, outcome_of};

use crate::asked::{fault_of, left_of, look_of, patience_of};
use crate::copying::{Images, copy_volume};
use crate::shaping::read_shape;
use crate::simulation;
use crate::simulation::{Trial, plan_of, read_trial};
use crate::terminals::Terminals;
use lfs_bad_lines::{LineKeeper, put_bad_line};
use lfs_change::{change_volume, put_into};
use lfs_device::{FileDeviceIn, Left, MemDevice, SectorDevice, ThisWorld, World};
use lfs_fs::{Fs, InVolume, find_volume};
use lfs_grammar::{Action, Names, Request, ShapeWords, Source, read_request};
use lfs_host::fault::{Ending, Fault, Outcome, Refusal, Said};
use lfs_host::image;
use lfs_host::image::{Making, Patience, unmounted};
use lfs_host::making::mkfs;
use lfs_host::printing::{flush, print, put, put_count, refuse};
use lfs_recover::{Recovery, explain, recover};
use lfs_script::{
    CountedWriter, CountsReads, CountsWrites, Glances, ReadCount, Recorded, ScriptEnd, StrictEnd,
    Witness, WriteCount, use_and_stop_noted, use_volume_noted,
};
use lfs_show::looking::{Look, end_look, show};
use lfs_show::viewing::look;
use std::alloc::{AllocError, AllocGlobal, Global};
use std::fs::File;
use std::io::{BufWriter, Read, Write};
use std::rt::Files;
use std::time::Clock;

/// What a command is about that has no image.
const IN_MEMORY: &str = "a volume in memory";

/// What is said to people of a script at whose end something isn't saved.
const UNSAVED: &[u8] =
    b": what was done since the last `sync` isn't saved; end the script with the line sync\n";

/// How a script came to its end on an image, or why it didn't begin.
#[derive(Drop)]
struct Played<E> {
    end: Result<E, Fault>,
    /// Nothing is done that isn't saved.
    is_saved: bool,
}

/// How a command line is answered.
#[derive(Drop)]
struct Answered<'a> {
    said: Result<Said<'a>, Fault>,
    /// The image of a script at whose end something isn't saved.
    unsaved: Option<&'a str>,
}

// How a volume is made, by words. A person is asked where there is one, unless it is forced.
fn making_of(
    terminals: Terminals,
    shape: ShapeWords<'_>,
    force: bool,
    reserve: bool,
) -> Result<Making, Fault> {
    Ok(Making {
        wanted: read_shape(shape)?,
        force,
        asks: terminals.input && terminals.errors && !force,
        reserve,
    })
}

// Ends a script whose replies are all to go out.
fn end_flushed<W: Write>(ending: Ending, output: &mut W) -> Result<Ending, Fault>
    ensures kept { Keeps (W.contents output.old) (W.contents output.new) }
    ensures told { (result ≡ Ok ending) ⊎ (result ≡ Err Fault.Output) }
{
    match flush(output) {
        Ok(()) => Ok(ending),
        Err(_) => Err(Fault::Output),
    }
}

// Ends a script by a fault, with the replies before it on their way as far as that goes.
fn end_failed<W: Write>(fault: Fault, output: &mut W) -> Result<Ending, Fault>
    ensures kept { Keeps (W.contents output.old) (W.contents output.new) }
    ensures told { result ≡ Err fault }
{
    let _ = flush(output);
    Err(fault)
}

// Ends a script, with all of its replies on their way.
fn end_script<W: Write>(end: ScriptEnd, output: &mut W) -> Result<Ending, Fault>
    ensures kept { Keeps (W.contents output.old) (W.contents output.new) }
    ensures told { IsTold end result }
{
    match end {
        ScriptEnd::Done => end_flushed(Ending::Done, output),
        ScriptEnd::BadLine(line) => end_flushed(Ending::BadLine(line), output),
        ScriptEnd::Read => end_failed(Fault::Input, output),
        ScriptEnd::Write => end_failed(Fault::Output, output),
        ScriptEnd::Memory => end_failed(Fault::Memory(AllocError), output),
    }
}

// Ends a script that isn't strict, which no refusal ends.
fn end_plain<W: Write>(end: StrictEnd, output: &mut W) -> Result<Ending, Fault>
    requires plain { end ≢ StrictEnd.Refused }
    ensures kept { Keeps (W.contents output.old) (W.contents output.new) }
    ensures told { IsToldPlainly end result }
{
    match end {
        StrictEnd::Script(end) => end_script(end, output),
        StrictEnd::Refused => unreachable!(),
    }
}

// Runs a script on the volume of a device. Where it can't be mounted its line is printed, and the
// ending is `Refused`, which no script has.
fn play<
    D: SectorDevice,
    I: Read,
    W: Write,
    S: Witness<D, W>,
    C: CountsReads<I>,
    K: CountsWrites<W>,
>(
    alloc: Global,
    device: D,
    input: &mut I,
    reads: &mut C,
    output: &mut W,
    writes: &mut K,
    witness: &mut S,
) -> (Played<Ending>, D)
    requires { HasWholeUnits (D.state device) }
    ensures plays { Plays result.0.end (I.remaining input.old) (I.remaining input.new)
        (W.contents output.old) (W.contents output.new) (D.state device)
        (D.state result.1) (S.glances witness.old) (S.glances witness.new) }
    ensures reads { TellsInput result.0.end (C.failures reads.old) (C.failures reads.new)
        (I.remaining input.old) (I.remaining input.new) }
    ensures writes { TellsOutput result.0.end (K.failures writes.old) (K.failures writes.new) }
    ensures saved { TellsSaved result.0.is_saved false (I.remaining input.old)
        (I.remaining input.new) (W.contents output.old) (D.state device)
        (D.state result.1) (S.glances witness.old) (S.glances witness.new) }
    ensures heard { HearsTo (S.heard witness.old) (S.heard witness.new) (λ r r'.
        Plays result.0.end r r' (W.contents output.old) (W.contents output.new)
        (D.state device) (D.state result.1)
        (S.glances witness.old) (S.glances witness.new)
        × TellsInput result.0.end (C.failures reads.old) (C.failures reads.new) r r'
        × TellsSaved result.0.is_saved false r r' (W.contents output.old)
        (D.state device) (D.state result.1)
        (S.glances witness.old) (S.glances witness.new)) }
    ensures carries { Carries (D.state device) (D.state result.1) }
{
    match use_volume_noted(alloc, false, input, reads, output, writes, witness, device) {
        (Ok(used), device) => {
            let end = end_plain(used.script, output);
            let is_saved = used.is_saved;
            (Played { end, is_saved }, device)
        }
        (Err(fault), device) => {
            let end = refuse(output, Refusal::from(fault));
            let is_saved = true;
            (Played { end, is_saved }, device)
        }
    }
}

// Says more of a volume that wasn't mounted, by its device.
fn explain_ending<Here: World>(
    ending: Result<Ending, Fault>,
    device: &mut FileDeviceIn<Here>,
) -> Result<Ending, Fault> {
    match ending {
        Ok(Ending::Refused(Refusal::Mount(fault))) => {
            Ok(Ending::Refused(unmounted(fault, device)))
        }
        ending => ending,
    }
}

// The same of a strict run.
fn explain_outcome<Here: World>(
    outcome: Result<Outcome, Fault>,
    device: &mut FileDeviceIn<Here>,
) -> Result<Outcome, Fault>
    ensures { result ≡ Ok Outcome.CallRefused → outcome ≡ Ok Outcome.CallRefused }
{
    match outcome {
        Ok(Outcome::Ended(Ending::Refused(Refusal::Mount(fault)))) => {
            let refusal = unmounted(fault, device);
            Ok(Outcome::Ended(Ending::Refused(refusal)))
        }
        outcome => outcome,
    }
}

fn run<Here: World, R: Files<File = File> + Clock, I: Read, W: Write>(
    rt: &R,
    alloc: Global,
    image: &str,
    input: &mut I,
    output: &mut W,
) -> Played<Ending> {
    match image::open_to_write::<Here, R>(rt, alloc, image) {
        Ok(device) => match find_volume(device) {
            Ok(found) => {
                let mut reads = ReadCount::new();
                let mut writes = WriteCount::new();
                let mut glances = Glances::new();
                let (played, used) = play(
                    alloc,
                    found,
                    input,
                    &mut reads,
                    output,
                    &mut writes,
                    &mut glances,
                );
                let mut device = used.into_inner();
                Played {
                    end: explain_ending(played.end, &mut device),
                    is_saved: played.is_saved,
                }
            }
            Err((fault, mut device)) => Played {
                end: explain_ending(refuse(output, Refusal::from(fault)), &mut device),
                is_saved: true,
            },
        },
        Err(refusal) => Played {
            end: refuse(output, refusal),
            is_saved: true,
        },
    }
}

// The outcome of a command that ended so.
fn outcome_of(ending: Result<Ending, Fault>) -> Result<Outcome, Fault>
    ensures plain { result ≢ Ok Outcome.CallRefused }
    ensures same { result ≡ outcome_of ending }
{
    match ending {
        Ok(ending) => Ok(Outcome::Ended(ending)),
        Err(fault) => Err(fault),
    }
}

// Ends a strict script, with all of its replies on their way.
fn end_strict<W: Write>(end: StrictEnd, output: &mut W) -> Result<Outcome, Fault>
    ensures kept { Keeps (W.contents output.old) (W.contents output.new) }
    ensures refused { result ≡ Ok Outcome.CallRefused → end ≡ StrictEnd.Refused }
    ensures told { IsToldStrictly end result }
{
    match end {
        StrictEnd::Script(end) => outcome_of(end_script(end, output)),
        StrictEnd::Refused => match flush(output) {
            Ok(()) => Ok(Outcome::CallRefused),
            Err(_) => Err(Fault::Output),
        },
    }
}

// As `play`, by a strict run of the script.
fn play_strict<
    D: SectorDevice,
    I: Read,
    W: Write,
    S: Witness<D, W>,
    C: CountsReads<I>,
    K: CountsWrites<W>,
>(
    alloc: Global,
    device: D,
    input: &mut I,
    reads: &mut C,
    output: &mut W,
    writes: &mut K,
    witness: &mut S,
) -> (Played<Outcome>, D)
    requires { HasWholeUnits (D.state device) }
    ensures plays { PlaysStrictly result.0.end (I.remaining input.old) (I.remaining input.new)
        (W.contents output.old) (W.contents output.new) (D.state device)
        (D.state result.1) (S.glances witness.old) (S.glances witness.new) }
    ensures refused { result.0.end ≡ Ok Outcome.CallRefused
        → PlaysToRefusal (I.remaining input.old) (I.remaining input.new) (W.contents output.old)
        (W.contents output.new) (D.state device) (D.state result.1)
        (S.glances witness.old)
        (S.glances witness.new) }
    ensures reads { TellsInput result.0.end (C.failures reads.old) (C.failures reads.new)
        (I.remaining input.old) (I.remaining input.new) }
    ensures writes { TellsOutput result.0.end (K.failures writes.old) (K.failures writes.new) }
    ensures saved { TellsSaved result.0.is_saved true (I.remaining input.old)
        (I.remaining input.new) (W.contents output.old) (D.state device)
        (D.state result.1) (S.glances witness.old) (S.glances witness.new) }
    ensures heard { HearsTo (S.heard witness.old) (S.heard witness.new) (λ r r'.
        PlaysStrictly result.0.end r r' (W.contents output.old) (W.contents output.new)
        (D.state device) (D.state result.1)
        (S.glances witness.old) (S.glances witness.new)
        × TellsInput result.0.end (C.failures reads.old) (C.failures reads.new) r r'
        × TellsSaved result.0.is_saved true r r' (W.contents output.old)
        (D.state device) (D.state result.1)
        (S.glances witness.old) (S.glances witness.new)) }
    ensures carries { Carries (D.state device) (D.state result.1) }
{
    match use_volume_noted(alloc, true, input, reads, output, writes, witness, device) {
        (Ok(used), device) => {
            let end = end_strict(used.script, output);
            let is_saved = used.is_saved;
            (Played { end, is_saved }, device)
        }
        (Err(fault), device) => {
            let end = outcome_of(refuse(output, Refusal::from(fault)));
            let is_saved = true;
            (Played { end, is_saved }, device)
        }
    }
}

fn run_strict<Here: World, R: Files<File = File> + Clock, I: Read, W: Write>(
    rt: &R,
    alloc: Global,
    image: &str,
    input: &mut I,
    output: &mut W,
) -> Played<Outcome> {
    match image::open_to_write::<Here, R>(rt, alloc, image) {
        Ok(device) => match find_volume(device) {
            Ok(found) => {
                let mut reads = ReadCount::new();
                let mut writes = WriteCount::new();
                let mut glances = Glances::new();
                let (played, used) = play_strict(
                    alloc,
                    found,
                    input,
                    &mut reads,
                    output,
                    &mut writes,
                    &mut glances,
                );
                let mut device = used.into_inner();
                Played {
                    end: explain_outcome(played.end, &mut device),
                    is_saved: played.is_saved,
                }
            }
            Err((fault, mut device)) => {
                let refused = outcome_of(refuse(output, Refusal::from(fault)));
                Played {
                    end: explain_outcome(refused, &mut device),
                    is_saved: true,
                }
            }
        },
        Err(refusal) => Played {
            end: outcome_of(refuse(output, refusal)),
            is_saved: true,
        },
    }
}

// As `play` on a device in memory, which stops then.
fn play_and_stop<
    I: Read,
    W: Write,
    S: Witness<InVolume<MemDevice>, W>,
    C: CountsReads<I>,
    K: CountsWrites<W>,
>(
    alloc: Global,
    device: MemDevice,
    left: Left,
    input: &mut I,
    reads: &mut C,
    output: &mut W,
    writes: &mut K,
    witness: &mut S,
) -> (Result<Ending, Fault>, MemDevice)
    ensures plays { Plays result.0 (I.remaining input.old) (I.remaining input.new)
        (W.contents output.old)
        (W.contents output.new)
        (in_volume device_state device device) (in_volume device_state device result.1)
        (S.glances witness.old) (S.glances witness.new) }
    ensures reads { TellsInput result.0 (C.failures reads.old) (C.failures reads.new)
        (I.remaining input.old) (I.remaining input.new) }
    ensures writes { TellsOutput result.0 (K.failures writes.old) (K.failures writes.new) }
    ensures heard { HearsTo (S.heard witness.old) (S.heard witness.new) (λ r r'.
        Plays result.0 r r' (W.contents output.old) (W.contents output.new)
        (in_volume device_state device device) (in_volume device_state device result.1)
        (S.glances witness.old) (S.glances witness.new)
        × TellsInput result.0 (C.failures reads.old) (C.failures reads.new) r r') }
    ensures carries { Carries (in_volume device_state device device)
        (in_volume device_state device result.1) }
{
    match use_and_stop_noted(
        alloc, false, input, reads, output, writes, witness, device, left,
    ) {
        (Ok(end), device) => (end_plain(end, output), device),
        (Err(fault), device) => (refuse(output, Refusal::from(fault)), device),
    }
}

// Prints the number of writes that a device was asked for.
fn print_writes<W: Write>(writes: u64, output: &mut W) -> Result<(), Fault> {
    put_count(output, b"writes ", writes)?;
    print(output, "\n")
}

// Prints the tree of a mounted volume.
fn show_tree<D: SectorDevice, W: Write>(fs: &mut Fs<D>, output: &mut W) -> Result<Ending, Fault> {
    let shown = show(fs, output)?;
    end_look(shown, output)
}

// Prints the tree of what a stop left on a device in memory.
fn show_left<W: Write>(alloc: Global, device: MemDevice, output: &mut W) -> Result<Ending, Fault> {
    match simulation::mount(alloc, device) {
        Ok(mut fs) => show_tree(&mut fs, output),
        Err(refusal) => refuse(output, refusal),
    }
}

// Prints the number of writes and the tree that a mount finds, behind a script that ended so.
fn finish_sim<W: Write>(
    alloc: Global,
    played: Ending,
    device: MemDevice,
    output: &mut W,
) -> Result<Ending, Fault> {
    print_writes(device.writes(), output)?;
    let shown = show_left(alloc, device, output)?;
    Ok(played.worse(shown))
}

// Runs a script on a volume in memory, prints the number of writes, and the tree after a stop.
fn sim<I: Read, W: Write>(
    alloc: Global,
    trial: Result<Trial, Fault>,
    input: &mut I,
    output: &mut W,
) -> Result<Ending, Fault> {
    let plan = match plan_of(trial?) {
        Ok(plan) => plan,
        Err(refusal) => return refuse(output, refusal),
    };
    let device = match simulation::start(alloc, plan) {
        Ok(device) => device,
        Err(refusal) => return refuse(output, refusal),
    };
    let mut reads = ReadCount::new();
    let mut writes = WriteCount::new();
    let mut glances = Glances::new();
    let (played, device) = play_and_stop(
        alloc,
        device,
        plan.left,
        input,
        &mut reads,
        output,
        &mut writes,
        &mut glances,
    );
    match played? {
        Ending::Refused(refusal) => Ok(Ending::Refused(refusal)),
        played => finish_sim(alloc, played, device, output),
    }
}

// Checks the volume of an image, and says in words where it is damaged.
fn check_and_explain<Here: World, R: Files<File = File> + Clock, W: Write>(
    rt: &R,
    alloc: Global,
    image: &str,
    patience: Patience,
    output: &mut W,
) -> Result<Ending, Fault> {
    let checked = look::<Here, R, W>(
        rt,
        alloc,
        image,
        Look::Check { json: false },
        &[],
        patience,
        output,
    )?;
    explain::<Here, R, W>(rt, alloc, image, checked, patience, output)
}

// Does what is asked for with an image, in any world, which only contracts see.
fn act<
    Here: World,
    R: Files<File = File> + Clock + AllocGlobal + Clone + Drop,
    I: Read,
    W: Write,
    E: Write,
>(
    rt: &R,
    alloc: Global,
    terminals: Terminals,
    image: &str,
    action: Action<'_>,
    names: &Names<'_>,
    input: &mut I,
    output: &mut W,
    errors: &mut E,
) -> Result<Ending, Fault> {
    let paths = names.paths.as_slice();
    match action {
        Action::Mkfs {
            shape,
            force,
            reserve,
        } => {
            let making = making_of(terminals, shape, force, reserve)?;
            mkfs::<Here, R, I, W, E>(rt, alloc, image, making, input, output, errors)
        }
        Action::Query { query, wait } => {
            let patience = patience_of(wait);
            let wanted = look_of(query, terminals);
            look::<Here, R, W>(rt, alloc, image, wanted, paths, patience, output)
        }
        Action::Explain { wait } => {
            check_and_explain::<Here, R, W>(rt, alloc, image, patience_of(wait), output)
        }
        Action::Recover {
            folder,
            older,
            scan: scans,
        } => {
            let asked = Recovery {
                folder,
                older,
                scans,
            };
            recover::<Here, R, W>(rt, alloc, image, asked, output)
        }
        Action::Change(asked) => {
            change_volume::<Here, R, W>(rt, alloc, image, asked, paths, output)
        }
        Action::Put(source) => {
            let typed = terminals.input;
            put_into::<Here, R, I, W>(rt, alloc, typed, image, source, names, input, output)
        }
    }
}

// The word that a command was about that ended so, of those that name something.
fn word_of<'a>(
    action: Action<'_>,
    names: &Names<'a>,
    ending: &Result<Ending, Fault>,
) -> Option<&'a str> {
    let word = match (ending, action) {
        (Ok(Ending::RefusedAt(_, at)), Action::Put(Source::Each)) => names.files.get(*at),
        // A line of its own names what is below the folder.
        (Ok(Ending::RefusedAt(..)), Action::Put(Source::Folder)) => None,
        (Ok(Ending::RefusedAt(_, at)), _) => names.paths.get(*at),
        _ => names.paths.first(),
    };
    word.copied()
}

// How a look ends whose output goes to a pipe: where that can't be written nobody reads it any more.
fn end_at_pipe(
    terminals: Terminals,
    action: Action<'_>,
    ending: Result<Ending, Fault>,
) -> Result<Ending, Fault> {
    match (ending, action) {
        (Err(Fault::Output), Action::Query { .. }) if terminals.pipe => Err(Fault::Closed),
        (ending, _) => ending,
    }
}

// Tells what a command was about that ended so.
fn said<'a>(
    subject: &'a str,
    path: Option<&'a str>,
    ending: Result<Ending, Fault>,
) -> Result<Said<'a>, Fault>
    ensures { IfOk result (λ said. said.outcome ≢ Outcome.CallRefused) }
{
    match ending {
        Ok(ending) => Ok(Said {
            subject,
            path,
            outcome: Outcome::Ended(ending),
        }),
        Err(fault) => Err(fault),
    }
}

// The same of a strict script on an image.
fn said_strictly<'a>(image: &'a str, outcome: Result<Outcome, Fault>) -> Result<Said<'a>, Fault>
    ensures { IfOk result (λ said. Ok said.outcome ≡ outcome) }
{
    match outcome {
        Ok(outcome) => Ok(Said {
            subject: image,
            path: None,
            outcome,
        }),
        Err(fault) => Err(fault),
    }
}

fn help<W: Write>(text: &str, output: &mut W) -> Result<Ending, Fault> {
    print(output, text)?;
    Ok(Ending::Done)
}

// The image of a script, where something that it did isn't saved.
fn unsaved_of(image: &str, is_saved: bool) -> Option<&str> {
    if is_saved { None } else { Some(image) }
}

// Does what a command line asks for.
fn answer_request<
    'a,
    R: Files<File = File> + Clock + AllocGlobal + Clone + Drop,
    I: Read,
    W: Write,
    E: Write,
>(
    rt: &R,
    alloc: Global,
    terminals: Terminals,
    request: Request<'a>,
    input: &mut I,
    output: &mut W,
    errors: &mut E,
) -> Answered<'a>
    ensures strict { IfOk result.said (λ said. said.outcome ≡ Outcome.CallRefused
        → IsStrict request.entry) }
{
    match request {
        Request::Run { image } => {
            let played = run::<ThisWorld, R, I, W>(rt, alloc, image, input, output);
            let unsaved = unsaved_of(image, played.is_saved);
            let said = said(image, None, played.end);
            Answered { said, unsaved }
        }
        Request::Strict { image } => {
            let played = run_strict::<ThisWorld, R, I, W>(rt, alloc, image, input, output);
            let unsaved = unsaved_of(image, played.is_saved);
            let said = said_strictly(image, played.end);
            Answered { said, unsaved }
        }
        Request::Help(text) => {
            let said = said(IN_MEMORY, None, help(text.as_str(), output));
            let unsaved = None;
            Answered { said, unsaved }
        }
        Request::Image {
            image,
            action,
            names,
        } => {
            let ending = act::<ThisWorld, R, I, W, E>(
                rt, alloc, terminals, image, action, &names, input, output, errors,
            );
            let ending = end_at_pipe(terminals, action, ending);
            let word = word_of(action, &names, &ending);
            let said = said(image, word, ending);
            let unsaved = None;
            Answered { said, unsaved }
        }
        Request::Copy { old, new, wait } => {
            let images = Images { old, new };
            let copied = copy_volume::<ThisWorld, R, W>(rt, alloc, images, wait, output);
            let said = said(copied.image, None, copied.ending);
            let unsaved = None;
            Answered { said, unsaved }
        }
        Request::Sim { shape, stop, left } => {
            let trial = read_trial(shape, stop, left_of(left));
            let said = said(IN_MEMORY, None, sim(alloc, trial, input, output));
            let unsaved = None;
            Answered { said, unsaved }
        }
    }
}

// Answers words, of which those that ask for nothing are a fault.
fn answer<
    'a,
    R: Files<File = File> + Clock + AllocGlobal + Clone + Drop,
    I: Read,
    W: Write,
    E: Write,
>(
    rt: &R,
    alloc: Global,
    terminals: Terminals,
    words: &'a [String],
    input: &mut I,
    output: &mut W,
    errors: &mut E,
) -> Answered<'a>
    ensures strict { IfOk result.said (λ said. said.outcome ≡ Outcome.CallRefused
        → HasWord words.now (codes "--strict")) }
{
    match read_request(alloc, words) {
        Ok(request) => answer_request(rt, alloc, terminals, request, input, output, errors),
        Err(fault) => {
            let said = Err(fault_of(fault));
            let unsaved = None;
            Answered { said, unsaved }
        }
    }
}

// An answer whose output can't be flushed. An earlier fault is said alone.
fn answer_unflushed<'a>(answered: Answered<'a>, fault: Fault) -> Answered<'a>
    ensures { OnOk result.said ⊥ }
{
    let unsaved = answered.unsaved;
    let said = match answered.said {
        Ok(_) => Err(fault),
        Err(earlier) => Err(earlier),
    };
    Answered { said, unsaved }
}

// What came before a fault goes out before its text.
fn answer_and_flush<
    'a,
    R: Files<File = File> + Clock + AllocGlobal + Clone + Drop,
    I: Read,
    W: Write,
    E: Write,
>(
    rt: &R,
    alloc: Global,
    terminals: Terminals,
    words: &'a [String],
    input: &mut I,
    output: &mut W,
    errors: &mut E,
) -> Answered<'a>
    ensures strict { IfOk result.said (λ said. said.outcome ≡ Outcome.CallRefused
        → HasWord words.now (codes "--strict")) }
{
    let answered = answer(rt, alloc, terminals, words, input, output, errors);
    match flush(output) {
        Ok(()) => answered,
        Err(fault) => answer_unflushed(answered, fault),
    }
}

// Hands the command a buffer before the output. Each part of a command flushes what it wrote, and a
// script its replies before each read. The output is recorded, so that the clauses below know all
// bytes that it took. Each write and flush of it is one of the output, by its counts.
fn answer_buffered<
    'a,
    R: Files<File = File> + Clock + AllocGlobal + Clone + Drop,
    I: Read,
    O: Write,
    E: Write,
>(
    rt: &R,
    alloc: Global,
    terminals: Terminals,
    words: &'a [String],
    input: &mut I,
    output: &mut O,
    errors: &mut E,
) -> Answered<'a>
    ensures strict { IfOk result.said (λ said. said.outcome ≡ Outcome.CallRefused
        → HasWord words.now (codes "--strict")) }
{
    match BufWriter::new(alloc, Recorded::new(CountedWriter::new(output))) {
        Ok(mut buffered) => {
            answer_and_flush(rt, alloc, terminals, words, input, &mut buffered, errors)
        }
        Err(_) => {
            let said = Err(Fault::Memory(AllocError));
            let unsaved = None;
            Answered { said, unsaved }
        }
    }
}

// Tells people how a command ended, and of a bad line also why it is bad.
fn tell<I, E: Write>(alloc: Global, said: Said<'_>, input: &LineKeeper<I>, errors: &mut E) {
    let Outcome::Ended(Ending::BadLine(number)) = said.outcome else {
        let _ = errors.writeln(said);
        return;
    };
    let _ = put_bad_line(alloc, errors, number, input.line(number));
}

// Writes the line that tells people that what a script did on an image isn't all saved.
fn put_unsaved<E: Write>(errors: &mut E, image: &str) -> Result<(), Fault> {
    put(errors, b"lfs: ")?;
    put(errors, image.as_bytes())?;
    put(errors, UNSAVED)
}

// Tells it, where there is such an image.
fn tell_unsaved<E: Write>(unsaved: Option<&str>, errors: &mut E) {
    if let Some(image) = unsaved {
        let _ = put_unsaved(errors, image);
    }
}

/// Runs a command line, whose first word is the program's name, and answers the exit status: 0
/// done, 1 a command refused, or input, output or memory failed, 2 a bad line of the script or a
/// bad command line, 3 a call of a script refused, where the words ask for an end there. Where it
/// isn't 0, a text for people goes to `errors`.
/// A last line of it says that what a script did on an image isn't all saved.
pub fn command_at<
    R: Files<File = File> + Clock + AllocGlobal + Clone + Drop,
    I: Read,
    O: Write,
    E: Write,
>(
    rt: &R,
    alloc: Global,
    terminals: Terminals,
    words: &[String],
    input: &mut I,
    output: &mut O,
    errors: &mut E,
) -> u8
    ensures most { result ≤ 3 }
    ensures strict { result ≡ 3 → HasWord words.now (codes "--strict") }
{
    let mut input = LineKeeper::new(alloc, input);
    let answered = answer_buffered(rt, alloc, terminals, words, &mut input, output, errors);
    let unsaved = answered.unsaved;
    match answered.said {
        Ok(said) => {
            let status = said.outcome.status();
            if said.has_text() {
                tell(alloc, said, &input, errors);
            }
            tell_unsaved(unsaved, errors);
            status
        }
        Err(fault) => {
            let status = fault.status();
            if fault.has_text() {
                let _ = errors.writeln(fault);
            }
            tell_unsaved(unsaved, errors);
            status
        }
    }
}

/// As `command_at`, where no stream is a terminal.
pub fn command<
    R: Files<File = File> + Clock + AllocGlobal + Clone + Drop,
    I: Read,
    O: Write,
    E: Write,
>(rt: &R, alloc: Global, words: &[String], input: &mut I, output: &mut O, errors: &mut E) -> u8
    ensures most { result ≤ 3 }
    ensures strict { result ≡ 3 → HasWord words.now (codes "--strict") }
{
    command_at(rt, alloc, Terminals::NONE, words, input, output, errors)
}
