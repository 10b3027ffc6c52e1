//! Why a command ends.
ghost use Rattle.std.specs.Prelude.{◌≡◌, ◌≤◌, ◌⊎◌};
ghost use Rattle.lfs_host.specs.Refusals.{refusal_of_mount};

use crate::cause::Cause;
use crate::host::HostFault;
use crate::reason;
use crate::shape::ShapeFault;
use lfs_fs::{FormatFault, FsError, MountFault};
use std::alloc::{AllocError, Global};
use std::fmt::{Display, Formatter};
use std::io::ErrorKind;
use std::{fmt, io};
use thiserror::Error;

/// Why an image isn't used.
#[derive(Clone, Copy)]
pub enum ImageFault {
    /// Nothing has this name.
    Missing,
    /// The system's permissions forbid it.
    Denied,
    /// It stands in a file system that isn't written.
    ReadOnly,
    Folder,
    /// A pipe, a socket or a device that has no blocks.
    NoBlocks,
    /// A block device, which is formatted only where that is asked for.
    Unforced,
    /// Another program holds its lock.
    InUse,
    /// Another program writes it, and no whole state was seen.
    Unsteady,
    /// A block device with a checkpoint, where a volume isn't made over one unless that is asked for.
    Volume,
    /// A file that has bytes, where a volume isn't made over them unless that is asked for.
    Filled,
    /// It has bytes, and nobody agreed that they go.
    Declined,
    /// It is the one that is to be copied into it.
    Same,
    /// Its name has another file by now, or none.
    Taken,
    /// The name under which a new image stands until it is whole has no regular file.
    Aside,
    /// The file can't have the length of the volume.
    Length(Cause),
    /// There is no room for each of its sectors.
    Room(Cause),
    /// The folder that has its name can't be synced.
    Unnamed(Cause),
    /// The system refuses to open it, to make it or to name it.
    Unopened(Cause),
    /// The system refuses a call on it.
    System,
}

impl ImageFault {
    // Why the system refused a call.
    fn cause(self) -> Cause {
        match self {
            ImageFault::Length(cause) | ImageFault::Room(cause) => cause,
            ImageFault::Unnamed(cause) | ImageFault::Unopened(cause) => cause,
            _ => Cause::Untold,
        }
    }
}

impl From<io::Error> for ImageFault {
    fn from(error: io::Error) -> ImageFault {
        match error.kind() {
            ErrorKind::NotFound => ImageFault::Missing,
            ErrorKind::PermissionDenied => ImageFault::Denied,
            ErrorKind::ReadOnlyFilesystem => ImageFault::ReadOnly,
            _ => ImageFault::Unopened(Cause::of(&error)),
        }
    }
}

/// What a command knows of a refused call that the call doesn't say.
#[derive(Clone, Copy)]
pub enum Explanation {
    /// What is to be made is below a directory that isn't there.
    NoParent,
    /// A directory is to be moved below itself.
    Within,
    /// A file is to be put at the root.
    Root,
    /// A file is to have the name dot or dot-dot.
    Dots,
    /// What is to be replaced is a directory with entries.
    Full,
    /// What a directory is to replace is none.
    NoDirectory,
    /// What something else is to replace is a directory.
    Directory,
}

/// Why a command is refused. Its text is the line that is printed.
#[derive(Clone, Copy)]
pub enum Refusal {
    /// There is no volume that is as it is wanted.
    Shape(ShapeFault),
    /// The block device has fewer sectors than the volume, and room for one of so many bytes.
    TooSmall(u64),
    /// The image can't be opened, made or sized.
    Image(ImageFault),
    Format(FormatFault),
    /// The first stage that the volume fails.
    Damaged(u8),
    Mount(MountFault),
    /// It isn't mounted, and no sector begins as a checkpoint does at which a slot may stand.
    Foreign(MountFault),
    /// It has one checkpoint, and the other one is asked for.
    NoOlder,
    /// It is shorter than its volume, of so many segments.
    Cut(u32),
    Call(FsError),
    /// `Device` or `Halted`, since the system refused a call of the device for this.
    Failed(FsError, Cause),
    /// There is no space for a change. A new file may have so many bytes.
    Full(u64),
    /// A tree that is to be copied into it needs so many bytes, and it takes so many.
    TooLarge(u64, u64),
    /// A tree that is to be copied into it has a name or a path that is too long.
    TooLong,
    /// A tree is to be copied into it, and its root has entries.
    NotNew,
    /// A file is to have the name under which files stand until they are whole.
    Unfinished,
    /// Standard input, of which a file is to be made, has no byte.
    NoInput,
    /// A call, with what people are told of it in this command.
    Explained(FsError, Explanation),
}

impl Refusal {
    /// Its name, without the stage of damage.
    pub fn name(self) -> &'static str {
        match self {
            Refusal::Shape(_) | Refusal::Unfinished => "Inval",
            Refusal::TooSmall(_) => FormatFault::TooSmall.name(),
            Refusal::Image(_) | Refusal::NoInput => "Image",
            Refusal::Format(fault) => fault.name(),
            Refusal::Damaged(_) => "Damaged",
            Refusal::Mount(fault) | Refusal::Foreign(fault) => fault.name(),
            Refusal::NoOlder => MountFault::NoCheckpoint.name(),
            Refusal::Cut(_) => MountFault::TooSmall.name(),
            Refusal::Call(fault) | Refusal::Failed(fault, _) => fault.name(),
            Refusal::Explained(fault, _) => fault.name(),
            Refusal::Full(_) | Refusal::TooLarge(..) => FsError::NoSpace.name(),
            Refusal::TooLong => FsError::NameTooLong.name(),
            Refusal::NotNew => FsError::NotEmpty.name(),
        }
    }

    /// Whether it may come of what another program writes meanwhile.
    pub fn is_doubtful(self) -> bool {
        matches!(
            self,
            Refusal::Damaged(_)
                | Refusal::Mount(MountFault::NoCheckpoint | MountFault::Device)
                | Refusal::Foreign(MountFault::NoCheckpoint)
                | Refusal::Image(ImageFault::Unsteady)
                | Refusal::Call(FsError::Device)
                | Refusal::Failed(FsError::Device, _)
        )
    }

    /// The same refusal, with why the system refused a call of the device, where it is for that.
    pub fn caused_by(self, cause: Cause) -> Refusal {
        match self {
            Refusal::Call(FsError::Halted) => Refusal::Failed(FsError::Halted, cause),
            Refusal::Call(FsError::Device)
            | Refusal::Mount(MountFault::Device)
            | Refusal::Format(FormatFault::Device) => Refusal::Failed(FsError::Device, cause),
            refusal => refusal,
        }
    }

    // Why the system refused a call.
    fn cause(self) -> Cause {
        match self {
            Refusal::Image(fault) => fault.cause(),
            Refusal::Failed(_, cause) => cause,
            _ => Cause::Untold,
        }
    }

    /// Whether it is about the path that a command has.
    pub fn is_of_path(self) -> bool {
        match self {
            Refusal::Unfinished | Refusal::NoInput | Refusal::Full(_) => true,
            Refusal::Explained(..) => true,
            Refusal::Call(fault) => !matches!(
                fault,
                FsError::NoMemory
                    | FsError::Device
                    | FsError::Halted
                    | FsError::Stuck
                    | FsError::Worn
            ),
            _ => false,
        }
    }

    // What people are told of it, but for its numbers.
    fn reason(self) -> &'static str {
        match self {
            Refusal::Shape(fault) => reason::of_shape(fault),
            Refusal::TooSmall(_) => reason::NO_ROOM,
            Refusal::Image(fault) => reason::of_image(fault),
            Refusal::Format(fault) => reason::of_format(fault),
            Refusal::Damaged(code) => reason::of_damage(code),
            Refusal::Mount(fault) => reason::of_mount(fault),
            Refusal::Foreign(_) => reason::FOREIGN,
            Refusal::NoOlder => reason::NO_OLDER,
            Refusal::Cut(_) => reason::of_mount(MountFault::TooSmall),
            Refusal::Call(fault) => reason::of_call(fault),
            Refusal::Failed(fault, cause) => reason::of_failure(fault, cause),
            Refusal::Full(_) | Refusal::TooLarge(..) => reason::of_call(FsError::NoSpace),
            Refusal::TooLong => reason::TOO_LONG,
            Refusal::NotNew => reason::NOT_NEW,
            Refusal::Unfinished => reason::UNFINISHED,
            Refusal::NoInput => reason::NO_INPUT,
            Refusal::Explained(_, explanation) => reason::of_explained(explanation),
        }
    }
}

impl Display for Refusal {
    fn fmt<W: fmt::Write>(&self, f: &mut Formatter<W>) -> fmt::Result {
        match self {
            Refusal::Damaged(stage) => write!(f, "err Damaged {stage}"),
            refusal => write!(f, "err {}", refusal.name()),
        }
    }
}

impl From<ImageFault> for Refusal {
    fn from(fault: ImageFault) -> Refusal {
        Refusal::Image(fault)
    }
}

impl From<ShapeFault> for Refusal {
    fn from(fault: ShapeFault) -> Refusal {
        Refusal::Shape(fault)
    }
}

impl From<MountFault> for Refusal {
    fn from(fault: MountFault) -> Refusal
        ensures { result ≡ refusal_of_mount fault }
    {
        match fault {
            MountFault::Damaged(code) => Refusal::Damaged(code),
            fault => Refusal::Mount(fault),
        }
    }
}

/// How a command ends that said on standard output all that it had to.
#[derive(Clone, Copy)]
pub enum Ending {
    /// The work is done, whatever the replies were.
    Done,
    /// The work is done but for what the host can't have, which was told.
    Partial,
    /// What a volume still holds is copied. Something is missing or has another name, which was told.
    InPart,
    Refused(Refusal),
    /// Refused for the word at this place, of the words that the command has of one kind.
    RefusedAt(Refusal, usize),
    /// The script's line of this number, counted from 1, is bad.
    BadLine(u64),
}

impl Ending {
    /// The exit status.
    pub fn status(self) -> u8
        ensures { result ≤ 2 }
    {
        match self {
            Ending::Done => 0,
            Ending::Partial | Ending::InPart => 1,
            Ending::Refused(_) | Ending::RefusedAt(..) => 1,
            Ending::BadLine(_) => 2,
        }
    }

    /// Of two endings the one with the greater status.
    pub fn worse(self, other: Ending) -> Ending {
        if self.status() < other.status() {
            other
        } else {
            self
        }
    }
}

/// How a command ends, or a strict script.
#[derive(Clone, Copy)]
pub enum Outcome {
    Ended(Ending),
    /// A call of a strict script was refused, and its reply is the last.
    CallRefused,
}

impl Outcome {
    /// The exit status.
    pub fn status(self) -> u8
        ensures most { result ≤ 3 }
        ensures refused { result ≡ 3 → self ≡ Outcome.CallRefused }
    {
        match self {
            Outcome::Ended(ending) => ending.status(),
            Outcome::CallRefused => 3,
        }
    }
}

/// What people are told of an outcome.
#[derive(Clone, Copy)]
pub struct Said<'a> {
    /// What the command was about.
    pub subject: &'a str,
    /// The path that the command has, as a word of scripts.
    pub path: Option<&'a str>,
    pub outcome: Outcome,
}

impl Said<'_> {
    /// Whether people are told of it.
    pub fn has_text(&self) -> bool {
        !matches!(self.outcome, Outcome::Ended(Ending::Done))
    }

    // The path, where the outcome is about it.
    fn shown_path(&self) -> Option<&str> {
        match self.outcome {
            Outcome::Ended(Ending::Refused(refusal) | Ending::RefusedAt(refusal, _))
                if refusal.is_of_path() => { self.path }
            _ => None,
        }
    }
}

/// A number whose digits people read in groups of three, at most three groups of them.
#[derive(Clone, Copy)]
pub struct Grouped(pub u64);

impl Display for Grouped {
    fn fmt<W: fmt::Write>(&self, f: &mut Formatter<W>) -> fmt::Result {
        let (millions, thousands) = (self.0 / 1_000_000, self.0 / 1_000);
        if millions > 0 {
            write!(
                f,
                "{millions},{:03},{:03}",
                thousands % 1_000,
                self.0 % 1_000
            )
        } else if thousands > 0 {
            write!(f, "{thousands},{:03}", self.0 % 1_000)
        } else {
            write!(f, "{}", self.0)
        }
    }
}

// Writes what people are told of a refusal.
fn write_reason<W: fmt::Write>(refusal: Refusal, f: &mut Formatter<W>) -> fmt::Result {
    match refusal {
        Refusal::Cut(segments) => {
            write!(f, "it is cut: its checkpoint names {segments} segments")
        }
        Refusal::TooSmall(bytes) if bytes > 0 => {
            let bytes = Grouped(bytes);
            write!(f, "it is too small: a volume of {bytes} bytes fits")
        }
        Refusal::Full(free) => {
            let free = Grouped(free);
            write!(f, "no space: {free} bytes are free for one new file")
        }
        Refusal::TooLarge(need, most) => {
            let (need, most) = (Grouped(need), Grouped(most));
            write!(
                f,
                "no space: the tree needs {need} bytes, and it takes {most}"
            )
        }
        refusal => {
            f.write_str(refusal.reason())?;
            match refusal.cause().text() {
                Some(cause) => write!(f, ": {cause}"),
                None => Ok(()),
            }
        }
    }
}

impl Display for Ending {
    fn fmt<W: fmt::Write>(&self, f: &mut Formatter<W>) -> fmt::Result {
        match self {
            Ending::Done => f.write_str("done"),
            Ending::Partial => f.write_str(reason::PARTIAL),
            Ending::InPart => f.write_str(reason::IN_PART),
            Ending::Refused(refusal) => write_reason(*refusal, f),
            Ending::RefusedAt(refusal, _) => write_reason(*refusal, f),
            Ending::BadLine(line) => write!(f, "line {line} of the script is bad"),
        }
    }
}

impl Display for Outcome {
    fn fmt<W: fmt::Write>(&self, f: &mut Formatter<W>) -> fmt::Result {
        match self {
            Outcome::Ended(ending) => write!(f, "{ending}"),
            Outcome::CallRefused => f.write_str("a call of the script was refused"),
        }
    }
}

impl Display for Said<'_> {
    fn fmt<W: fmt::Write>(&self, f: &mut Formatter<W>) -> fmt::Result {
        write!(f, "lfs: {}: ", self.subject)?;
        if let Some(path) = self.shown_path() {
            write!(f, "{path}: ")?;
        }
        write!(f, "{}", self.outcome)
    }
}

/// What ends a command with a text on standard error.
#[derive(Debug, Drop, Error)]
pub enum Fault {
    #[error("{0}")]
    Line(String),
    #[error("lfs: the number of segments is no decimal number below 2^32 without leading zeros")]
    Segments,
    #[error("lfs: the size is no decimal number of bytes below 2^64 without leading zeros, alone or directly before K, M or G")]
    Size,
    #[error("lfs: format 1 and 2 go with --segments, and --size with format 3")]
    SizedFormat,
    #[error("lfs: --unit goes with format 3 alone")]
    UnitOfFormat,
    #[error("lfs: the unit is no decimal number of bytes below 2^64 without leading zeros, alone or directly before K, M or G")]
    UnitSize,
    #[error("lfs: the write to stop at is no decimal number below 2^64 without leading zeros")]
    Stop,
    #[error("lfs: the number of bytes of a unit is no power of two from 512 to 65536 without leading zeros")]
    Unit,
    #[error("lfs: the number of passes is no decimal number below 2^32 without leading zeros")]
    Passes,
    #[error("lfs: put takes PATH and one FILE at most; with -t DIR each word is a FILE, and with -r they are a FOLDER and a DIR")]
    Files,
    /// A path has a backslash that begins no escape, or a byte that needs one.
    #[error("lfs: PATH {0} has a backslash, so it has to be a word of the script language: one like /a\\20b for `/a b`, with \\5c for a backslash")]
    Path(String),
    /// A block device is mounted on a folder.
    #[error("lfs: {image}: it is mounted on {folder}; unmount it first")]
    Mounted { image: String, folder: String },
    /// A file or a folder of the host isn't read or made.
    #[error("lfs: {name}: {fault}")]
    Host { name: String, fault: HostFault },
    #[error("lfs: standard input can't be read")]
    Input,
    #[error("lfs: standard output can't be written")]
    Output,
    /// Nobody reads standard output any more, and no more of it is wanted.
    #[error("lfs: standard output is closed")]
    Closed,
    #[error(transparent)]
    Memory(#[from(alloc)] AllocError),
}

impl Fault {
    /// The exit status of a command that ends with this.
    pub fn status(&self) -> u8
        ensures { (result ≡ 1) ⊎ (result ≡ 2) }
    {
        match self {
            Fault::Line(_) | Fault::Segments | Fault::Stop => 2,
            Fault::Size | Fault::SizedFormat | Fault::UnitOfFormat | Fault::UnitSize => 2,
            Fault::Unit | Fault::Passes | Fault::Files | Fault::Path(_) => 2,
            Fault::Mounted { .. } | Fault::Host { .. } => 1,
            Fault::Input | Fault::Output | Fault::Closed | Fault::Memory(_) => 1,
        }
    }

    /// Whether people are told of it.
    pub fn has_text(&self) -> bool {
        !matches!(self, Fault::Closed)
    }

    /// Of a path by this word.
    pub fn of_path(alloc: Global, word: &str) -> Fault {
        match word.to_string(alloc) {
            Ok(word) => Fault::Path(word),
            Err(error) => Fault::Memory(error),
        }
    }

    /// Of a file or a folder of the host with this name.
    pub fn of_host(alloc: Global, name: &str, fault: HostFault) -> Fault {
        match name.to_string(alloc) {
            Ok(name) => Fault::Host { name, fault },
            Err(error) => Fault::Memory(error),
        }
    }
}

/// Why a command that does several things goes no further.
#[derive(Drop)]
pub enum Stop {
    /// One of them is refused.
    Refused(Refusal),
    Fault(Fault),
}

impl From<FsError> for Stop {
    fn from(refusal: FsError) -> Stop {
        Stop::Refused(Refusal::Call(refusal))
    }
}

impl From<AllocError> for Stop {
    fn from(error: AllocError) -> Stop {
        Stop::Fault(Fault::Memory(error))
    }
}

impl From<Fault> for Stop {
    fn from(fault: Fault) -> Stop {
        Stop::Fault(fault)
    }
}
