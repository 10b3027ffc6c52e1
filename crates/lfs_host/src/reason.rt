//! What people are told of a refusal, beside its name.
use crate::cause::Cause;
use crate::fault::{Explanation, ImageFault};
use crate::shape::ShapeFault;
use lfs_fs::{FormatFault, FsError, MountFault};

const NO_MEMORY: &str = "there isn't enough memory";

const DEVICE: &str = "a read, a write or a sync of it failed";

const HALTED: &str = "it can't be written: a read, a write or a sync of it failed";

/// Where it wasn't a read.
const UNWRITTEN: &str = "it can't be written: a write or a sync of it failed";

/// Of a file that is to have the name under which files stand until they are whole.
pub const UNFINISHED: &str = "this is the name under which `put` keeps a file that isn't whole yet";

/// Of a volume into which a tree is to be copied, and which has one already.
pub const NOT_NEW: &str = "it isn't empty: a tree is copied into a volume that mkfs made";

/// Of a tree whose names don't all fit.
pub const TOO_LONG: &str = "a name or a path is too long for it, and is named on standard output";

/// Of standard input without a byte, of which a file is to be made.
pub const NO_INPUT: &str = "standard input has no byte; with - as FILE an empty file is put";

/// Of a block device that has no room for any volume of the version.
pub const NO_ROOM: &str = "it is too small for any volume";

/// Of an image that isn't mounted, and on which no sector begins as a checkpoint does at which a
/// slot may stand.
pub const FOREIGN: &str =
    "this is no Pansuyog volume, or both its checkpoints are lost, as `recover --scan` tells; mkfs would empty it";

/// Of an export that leaves out what the host can't have.
pub const PARTIAL: &str = "what the host can't have was left out, and is named on standard output";

/// Of a volume that has one checkpoint alone, where the one before it is asked for.
pub const NO_OLDER: &str = "its other checkpoint slot holds no checkpoint";

/// Of a recovery that isn't whole.
pub const IN_PART: &str =
    "what is missing, or isn't under its own name, is named on standard output";

/// Of an image that isn't used.
pub fn of_image(fault: ImageFault) -> &'static str {
    match fault {
        ImageFault::Missing => "there is no such file or folder",
        ImageFault::Denied => "permission denied",
        ImageFault::ReadOnly => "it is on a file system that is read-only",
        ImageFault::Folder => "it is a folder",
        ImageFault::NoBlocks => "it is neither a regular file nor a block device",
        ImageFault::Unforced => "it is a block device, which is formatted only with --force",
        ImageFault::Volume => {
            "it is a block device with a volume on it, which goes only with --force"
        }
        ImageFault::Filled => "it isn't empty, and with --size its bytes go only with --force",
        ImageFault::InUse => "it is in use: another program has held its lock for a second",
        ImageFault::Unsteady => {
            "another program writes it, and no whole state was seen; try again"
        }
        ImageFault::Declined => "the answer wasn't yes, so nothing was done",
        ImageFault::Same => "this is the image that is to be copied",
        ImageFault::Taken => {
            "another program changed meanwhile what has this name, and nothing was done to that"
        }
        ImageFault::Aside => "something other than a file has its name with `.lfs-make` behind",
        ImageFault::Length(_) => "the file can't have the length of the volume",
        ImageFault::Room(_) => "there is no room for all of its sectors",
        ImageFault::Unnamed(_) => "the folder that has it can't be synced",
        ImageFault::Unopened(_) => "the system refuses to open it or to make it",
        ImageFault::System => "the system refuses to tell its length",
    }
}

/// Of a volume that can't be as it is wanted.
pub fn of_shape(fault: ShapeFault) -> &'static str {
    match fault {
        ShapeFault::Segments => of_format(FormatFault::Inval),
        ShapeFault::Size => "the segments of a volume have more than 0 bytes, and at most 32M",
        ShapeFault::Most => "the size `max` is that of a block device, and this is none",
        ShapeFault::Unit => "a unit has 512 bytes to 32K, a power of two",
        ShapeFault::DeviceUnit => {
            "its physical unit has more than 32K, the most of a volume's; --unit gives another one"
        }
    }
}

/// Of a volume that isn't made.
pub fn of_format(fault: FormatFault) -> &'static str {
    match fault {
        FormatFault::Inval => "a volume has 64 to 1024 segments, a multiple of 8",
        FormatFault::TooSmall => "it has fewer than 2 + 64 sectors a segment",
        FormatFault::Device => DEVICE,
    }
}

/// Of a volume that isn't mounted.
pub fn of_mount(fault: MountFault) -> &'static str {
    match fault {
        MountFault::NoMemory => NO_MEMORY,
        MountFault::Device => DEVICE,
        MountFault::TooSmall => "it is shorter than its volume, or than any volume",
        MountFault::NoCheckpoint => "neither of its two slots holds a checkpoint",
        MountFault::Damaged(code) => of_damage(code),
    }
}

/// Of the first stage that a volume fails.
pub fn of_damage(code: u8) -> &'static str {
    match code {
        1 => "stage 1 (usage blocks): one is missing, too many, twice in use or not well-formed",
        2 => "stage 2 (summaries): the used part of a segment is no row of whole chunks",
        3 => "stage 3 (inode map): a block of it is twice in use or empty, or the root is missing",
        4 => "stage 4 (inodes): one is twice in use, not well-formed or another's",
        5 => "stage 5 (leaves and double roots): one is twice in use or empty",
        6 => "stage 6 (leaves in double roots): one is twice in use or empty",
        7 => "stage 7 (data blocks): one is twice in use, all zero or past the end of its file",
        8 => "stage 8 (labels): a block isn't where a summary says that it is",
        9 => "stage 9 (live counts): a segment has another number of live blocks than it says",
        10 => "stage 10 (directories): a slot isn't well-formed, or a name is there twice",
        11 => "stage 11 (links): the text of a link has a zero byte",
        12 => "stage 12 (names): an object has no name, or a directory more than one",
        13 => "stage 13 (counts of links): an object has another number of names than it says",
        14 => "stage 14 (space): the tree needs more than the volume may hold",
        15 => "stage 15 (clean segments): fewer than one in eight is clean",
        _ => "a stage of the check that this program doesn't know",
    }
}

/// Of a call that is refused.
pub fn of_call(fault: FsError) -> &'static str {
    match fault {
        FsError::NoEntry => "the volume has nothing of this name",
        FsError::NotDir => "a directory is needed here",
        FsError::IsDir => "this is a directory",
        FsError::Exist => "this is there already",
        FsError::NotEmpty => "the directory has entries",
        FsError::Inval => "an argument isn't taken",
        FsError::NameTooLong => {
            "a path has at most 1023 bytes, and a name 59, or 123 where the format and `widen` let it"
        }
        FsError::Loop => "more than 40 links were to be followed",
        FsError::Perm => "a directory isn't linked or unlinked",
        FsError::Busy => "the root can't be removed or renamed",
        FsError::BadHandle => "no such handle is open",
        FsError::TooManyOpen => "64 handles are open",
        FsError::TooManyLinks => "the object has 1000 links",
        FsError::FileTooBig => "this is past the greatest size of a file",
        FsError::NoSpace => "the volume has no space for this",
        FsError::NoNumber => "the volume has 4095 objects",
        FsError::DirFull => "the directory has 1024 entries",
        FsError::NoMemory => NO_MEMORY,
        FsError::Device => DEVICE,
        FsError::Halted => HALTED,
        FsError::Stuck => "too few of its segments are clean",
        FsError::Worn => "it was changed too often to be changed again",
    }
}

/// Of a call that is refused since the system refused one of the device for this.
pub fn of_failure(fault: FsError, cause: Cause) -> &'static str {
    if cause.is_of_writes() {
        UNWRITTEN
    } else {
        of_call(fault)
    }
}

/// Of a call of which a command knows more than the call says.
pub fn of_explained(explanation: Explanation) -> &'static str {
    match explanation {
        Explanation::NoParent => "a directory above it isn't there, and `mkdir -p` makes it",
        Explanation::Within => "a directory can't be moved below itself",
        Explanation::Root => "this is the root, and a file needs a name",
        Explanation::Dots => "no file is put under the name . or ..",
        Explanation::Full => "this is a directory that has entries, and isn't replaced",
        Explanation::NoDirectory => "this isn't a directory, and isn't replaced by one",
        Explanation::Directory => "this is a directory, and isn't replaced by anything else",
    }
}
