//! The command line as `clap` reads it, with its help: a row for each command.
use clap::builder::ValueParser;
use clap::{Arg, ArgAction, Command};
use std::alloc::{AllocError, Global};

/// A command of the program.
#[derive(Clone, Copy)]
pub enum Verb {
    Mkfs,
    Copy,
    Check,
    Mount,
    Run,
    Sim,
    Ls,
    Tree,
    Cat,
    Stat,
    Get,
    Put,
    Append,
    Rm,
    Mv,
    Mkdir,
    Clean,
    Upgrade,
    Df,
    Info,
    Export,
    Recover,
}

/// How a parameter is given.
#[derive(Clone, Copy)]
enum Form<'a> {
    /// A word in its place.
    Word,
    /// A word in its place, which may be left out.
    OptionalWord,
    /// Words in their place, at least one.
    Words,
    /// Words in their place, which may be left out.
    OptionalWords,
    /// An option with a value, which has to be given.
    Value,
    /// An option with a value, which may be left out.
    OptionalValue,
    /// An option with a value, which has to be given where another one isn't, and not beside it.
    EitherValue(&'a str),
    /// An option with one of these values, which has to be given.
    Choice(&'a [&'a str]),
    /// An option with one of these values, which may be left out.
    OptionalChoice(&'a [&'a str]),
    /// An option without a value.
    Switch,
    /// An option without a value that has a letter too, and isn't given beside another one.
    Letter(char, &'a str),
    /// An option without a value that isn't given beside any of these.
    Alone(&'a [&'a str]),
    /// An option without a value that has a letter too.
    Lettered(char),
    /// An option with a value that has a letter too, and isn't given beside another one.
    LetteredValue(char, &'a str),
    /// The request for help, where its letter is another option's.
    Help,
}

/// A parameter of a command.
#[derive(Clone, Copy)]
struct Parameter<'a> {
    name: &'a str,
    form: Form<'a>,
    /// What help calls its value.
    value: &'a str,
    help: &'a str,
}

/// A command as help shows it.
#[derive(Clone, Copy)]
struct Usage<'a> {
    verb: Verb,
    name: &'a str,
    /// A line for the list of commands.
    about: &'a str,
    /// What its own help says.
    details: &'a str,
    parameters: &'a [Parameter<'a>],
}

pub const IMAGE: &str = "IMAGE";

pub const OLD: &str = "OLD";

pub const NEW: &str = "NEW";

pub const PATH: &str = "PATH";

pub const FILE: &str = "FILE";

pub const FOLDER: &str = "FOLDER";

pub const FROM: &str = "FROM";

pub const TO: &str = "TO";

pub const SEGMENTS: &str = "segments";

pub const SIZE: &str = "size";

pub const PASSES: &str = "passes";

pub const FORMAT: &str = "format";

pub const FIRST_FORMAT: &str = "1";

pub const SECOND_FORMAT: &str = "2";

pub const THIRD_FORMAT: &str = "3";

pub const FORCE: &str = "force";

pub const RESERVE: &str = "reserve";

pub const STRICT: &str = "strict";

pub const LONG: &str = "long";

pub const NULL: &str = "null";

pub const STOP: &str = "stop";

pub const LEFT: &str = "left";

pub const UNIT: &str = "unit";

pub const VERBOSE: &str = "verbose";

pub const WAIT: &str = "wait";

pub const CHECKPOINT: &str = "checkpoint";

pub const RECURSIVE: &str = "recursive";

pub const PARENTS: &str = "parents";

pub const TARGET: &str = "target";

pub const HUMAN: &str = "human";

pub const JSON: &str = "json";

pub const SCAN: &str = "scan";

/// The word of the checkpoint before the newest.
pub const OLDER: &str = "older";

/// The words of the versions of the layout.
const FORMATS: &[&str] = &[FIRST_FORMAT, SECOND_FORMAT, THIRD_FORMAT];

const VERSION: &str = "0.1.0";

const ABOUT: &str = "A log-structured file system in an image file or on a block device";

const THE_IMAGE: Parameter = Parameter {
    name: IMAGE,
    form: Form::Word,
    value: IMAGE,
    help: "The image file or block device that holds the volume",
};

const OLD_IMAGE: Parameter = Parameter {
    name: OLD,
    form: Form::Word,
    value: OLD,
    help: "The image file or block device that holds the tree",
};

const NEW_IMAGE: Parameter = Parameter {
    name: NEW,
    form: Form::Word,
    value: NEW,
    help: "The image file or block device of an empty volume, as mkfs makes it",
};

const THE_PATH: Parameter = Parameter {
    name: PATH,
    form: Form::Word,
    value: PATH,
    help: "A path in the volume; with a backslash, a script's word",
};

const PATHS: Parameter = Parameter {
    name: PATH,
    form: Form::Words,
    value: PATH,
    help: "Paths in the volume; with a backslash, a script's words",
};

const A_PATH: Parameter = Parameter {
    name: PATH,
    form: Form::OptionalWord,
    value: PATH,
    help: "A path in the volume, or else the root",
};

const FROM_PATH: Parameter = Parameter {
    name: FROM,
    form: Form::Word,
    value: FROM,
    help: "The path that is there",
};

const TO_PATH: Parameter = Parameter {
    name: TO,
    form: Form::Word,
    value: TO,
    help: "The path that it gets, not that of a folder to put it in",
};

const TO_FILE: Parameter = Parameter {
    name: FILE,
    form: Form::OptionalWord,
    value: FILE,
    help: "A file to make on the host, or else standard output",
};

const OF_FILES: Parameter = Parameter {
    name: FILE,
    form: Form::OptionalWords,
    value: FILE,
    help: "A file of the host, or - for standard input; several with -t",
};

const BEHIND: Parameter = Parameter {
    name: FILE,
    form: Form::Word,
    value: FILE,
    help: "A file of the host, or - for standard input",
};

const INTO: Parameter = Parameter {
    name: TARGET,
    form: Form::LetteredValue('t', RECURSIVE),
    value: "DIR",
    help: "Put each file under its own name into this directory of the volume",
};

const WHOLE_FOLDER: Parameter = Parameter {
    name: RECURSIVE,
    form: Form::Lettered('r'),
    value: "",
    help: "Put all that is in a folder: put -r IMAGE FOLDER DIR",
};

const WITH_ALL_BELOW: Parameter = Parameter {
    name: RECURSIVE,
    form: Form::Lettered('r'),
    value: "",
    help: "Remove directories with all that is below them",
};

const WITH_PARENTS: Parameter = Parameter {
    name: PARENTS,
    form: Form::Lettered('p'),
    value: "",
    help: "Make the directories above too, and take one that is there",
};

const FOR_PEOPLE: Parameter = Parameter {
    name: HUMAN,
    form: Form::Lettered('h'),
    value: "",
    help: "Print bytes in K, M and G of 1024",
};

const NAMES_AS_JSON: Parameter = Parameter {
    name: JSON,
    form: Form::Alone(&[LONG, NULL]),
    value: "",
    help: "Print an object of JSON for each name",
};

const BYTES_AS_JSON: Parameter = Parameter {
    name: JSON,
    form: Form::Alone(&[HUMAN]),
    value: "",
    help: "Print an object of JSON",
};

const SPACE_AS_JSON: Parameter = Parameter {
    name: JSON,
    form: Form::Alone(&[VERBOSE]),
    value: "",
    help: "Print an object of JSON",
};

const AS_JSON: Parameter = Parameter {
    name: JSON,
    form: Form::Switch,
    value: "",
    help: "Print an object of JSON on each line",
};

const HELP_WITHOUT_LETTER: Parameter = Parameter {
    name: "help",
    form: Form::Help,
    value: "",
    help: "Print help",
};

const TO_FOLDER: Parameter = Parameter {
    name: FOLDER,
    form: Form::Word,
    value: FOLDER,
    help: "The folder to make on the host",
};

const LONG_LINES: Parameter = Parameter {
    name: LONG,
    form: Form::Letter('l', NULL),
    value: "",
    help: "Print the kind, the size and the links too, and a total",
};

const RAW_NAMES: Parameter = Parameter {
    name: NULL,
    form: Form::Letter('0', LONG),
    value: "",
    help: "Print names as they are, a zero byte behind each",
};

const THE_SEGMENTS: Parameter = Parameter {
    name: SEGMENTS,
    form: Form::EitherValue(SIZE),
    value: "N",
    help: "How many segments of 32 KiB: 64 to 1024, a multiple of 8",
};

const THE_SIZE: Parameter = Parameter {
    name: SIZE,
    form: Form::EitherValue(SEGMENTS),
    value: "BYTES",
    help: "The bytes of its segments, at most 32M; on a block device `max` too",
};

const THE_PASSES: Parameter = Parameter {
    name: PASSES,
    form: Form::OptionalValue,
    value: "N",
    help: "How many passes of the cleaner are made at most",
};

const THE_FORMAT: Parameter = Parameter {
    name: FORMAT,
    form: Form::OptionalChoice(FORMATS),
    value: "F",
    help: "The version of its layout, or else 1, and with --size 3",
};

const BY_FORCE: Parameter = Parameter {
    name: FORCE,
    form: Form::Switch,
    value: "",
    help: "Ask nothing, and format IMAGE also where it is a block device",
};

const WITH_ROOM: Parameter = Parameter {
    name: RESERVE,
    form: Form::Switch,
    value: "",
    help: "Write every sector first, so that there is room for it",
};

const STRICTLY: Parameter = Parameter {
    name: STRICT,
    form: Form::Switch,
    value: "",
    help: "End with status 3 at the first reply that is `err`",
};

const THE_STOP: Parameter = Parameter {
    name: STOP,
    form: Form::Value,
    value: "K",
    help: "The write, from 0, within which the device stops",
};

const WHAT_IS_LEFT: Parameter = Parameter {
    name: LEFT,
    form: Form::Choice(&["old", "new", "bad"]),
    value: "WHAT",
    help: "What stays of sectors that aren't synced",
};

const VOLUME_UNIT: Parameter = Parameter {
    name: UNIT,
    form: Form::OptionalValue,
    value: "BYTES",
    help: "The bytes of its units, a power of two from 512 to 32K; in format 3 alone",
};

const DEVICE_UNIT: Parameter = Parameter {
    name: UNIT,
    form: Form::OptionalValue,
    value: "BYTES",
    help: "The bytes of a unit, or else 512: a power of two up to 64K",
};

const IN_WORDS: Parameter = Parameter {
    name: VERBOSE,
    form: Form::Lettered('v'),
    value: "",
    help: "Say in words where the volume is damaged, and what else is odd",
};

const WAITING: Parameter = Parameter {
    name: WAIT,
    form: Form::Switch,
    value: "",
    help: "Wait until no other program writes IMAGE",
};

const WAITING_FOR_OLD: Parameter = Parameter {
    name: WAIT,
    form: Form::Switch,
    value: "",
    help: "Wait until no other program writes OLD",
};

const WHICH_CHECKPOINT: Parameter = Parameter {
    name: CHECKPOINT,
    form: Form::OptionalChoice(&[OLDER]),
    value: "WHICH",
    help: "Begin with the checkpoint before the newest",
};

const BY_LOG: Parameter = Parameter {
    name: SCAN,
    form: Form::Alone(&[CHECKPOINT]),
    value: "",
    help: "Go by the log, where both checkpoints are lost",
};

const VOLUME_USAGES: &[Usage] = &[
    Usage {
        verb: Verb::Mkfs,
        name: "mkfs",
        about: "Make an empty volume",
        details: "Make an empty volume, of the bytes or the segments that are given. BYTES are a\n\
            decimal number, or one directly before K, M or G. A new file gets its name once\n\
            it is whole. With --size a file that isn't empty is left as it is without\n\
            --force. With --segments it is emptied: at a terminal, if it has bytes, only\n\
            where the answer to a question is yes, or with --force. A block device keeps its\n\
            length, and is formatted only with --force, and only while it isn't mounted. In\n\
            format 3 a unit has 4096 bytes, or as many as a block device tells of its own if\n\
            these are more. An image in a file is sparse without --reserve, so that a full\n\
            disk shows only as the image is written.",
        parameters: &[
            THE_IMAGE,
            THE_SIZE,
            THE_SEGMENTS,
            THE_FORMAT,
            VOLUME_UNIT,
            BY_FORCE,
            WITH_ROOM,
        ],
    },
    Usage {
        verb: Verb::Copy,
        name: "copy",
        about: "Copy the tree of a volume into an empty one",
        details: "Copy the tree of OLD into NEW, an empty volume of any format, and print `ok`, the\n\
            number of names and that of the bytes of all files, once that is synced. Several\n\
            names of one file stay so, and so do symbolic links and holes. OLD stays as it\n\
            is. Where the tree doesn't fit nothing is written: a line `long` names a path\n\
            that is too long for NEW. What a stop leaves in NEW isn't whole; mkfs --force\n\
            empties it.",
        parameters: &[OLD_IMAGE, NEW_IMAGE, WAITING_FOR_OLD],
    },
    Usage {
        verb: Verb::Check,
        name: "check",
        about: "Check the whole volume, and print its segments and space",
        details: "Check the whole volume, and print `ok N DATA META NEED LIMIT`: its segments, the\n\
            blocks of data of its files, their inodes and blocks of pointers, the blocks\n\
            that the tree needs, and the most that it may need. With -v further lines say\n\
            where a damaged volume fails, and name a slot without a checkpoint and what an\n\
            unfinished `put` left.",
        parameters: &[THE_IMAGE, IN_WORDS, SPACE_AS_JSON, WAITING],
    },
    Usage {
        verb: Verb::Mount,
        name: "mount",
        about: "Print the tree as a script's reply",
        details: "Check the whole volume, and print its tree as the reply to the line `tree` of a\n\
            script. Nothing is written.",
        parameters: &[THE_IMAGE, WAITING],
    },
    Usage {
        verb: Verb::Run,
        name: "run",
        about: "Run the script on standard input, and print a reply to each line",
        details: "Run the script on standard input, and print a reply to each line. The image is\n\
            locked meanwhile. What the script doesn't sync may be gone at its end; a last\n\
            line on standard error says so then.",
        parameters: &[THE_IMAGE, STRICTLY],
    },
    Usage {
        verb: Verb::Sim,
        name: "sim",
        about: "Run a script on a volume in memory that stops, and print what is left",
        details: "Run the script on standard input on a new volume in memory, whose device stops\n\
            within write K, and print the number of writes and the tree that a mount finds\n\
            then. A sector that is left `bad` spoils its whole unit, also the sectors of it\n\
            that were synced. In format 3 the units of the volume are those of the device,\n\
            up to 32K, or have 4096 bytes where none are given.",
        parameters: &[
            THE_SIZE,
            THE_SEGMENTS,
            THE_FORMAT,
            THE_STOP,
            WHAT_IS_LEFT,
            DEVICE_UNIT,
        ],
    },
];

/// Commands that look at files or bring them in and out.
const FILE_USAGES: &[Usage] = &[
    Usage {
        verb: Verb::Ls,
        name: "ls",
        about: "Print the names in a directory, or in the root",
        details: "Print the names in a directory, one a line, as words of the script language, a\n\
            directory's with a slash behind it. Of anything else the path itself is printed.\n\
            With -l the kind, the size in bytes and the number of links stand before the\n\
            name, and a total behind all. With -0 each name is as it is, with a zero byte\n\
            behind it, as `xargs -0` takes it. With --json each line is an object, in which\n\
            a name that isn't UTF-8 is `name_hex`, in hexadecimal digits.",
        parameters: &[
            THE_IMAGE,
            A_PATH,
            LONG_LINES,
            RAW_NAMES,
            NAMES_AS_JSON,
            WAITING,
        ],
    },
    Usage {
        verb: Verb::Tree,
        name: "tree",
        about: "Print the tree for people, with sizes in bytes",
        details: "Print the tree below PATH for people: a line for each name, indented below its\n\
            directory, with the size in bytes.",
        parameters: &[THE_IMAGE, A_PATH, WAITING],
    },
    Usage {
        verb: Verb::Cat,
        name: "cat",
        about: "Print the bytes of files",
        details: "Print the bytes of files, one behind another. Where one is refused behind the first\n\
            bytes, the command ends with status 1 and prints no line with `err`.",
        parameters: &[THE_IMAGE, PATHS, WAITING],
    },
    Usage {
        verb: Verb::Stat,
        name: "stat",
        about: "Print what stands at paths",
        details: "Print a line for each path: the path as a word of the script language, and the\n\
            kind, the number, the links and the size in bytes of what stands there. Of a\n\
            symbolic link that ends a path the link itself is told, with its text.",
        parameters: &[THE_IMAGE, PATHS, AS_JSON, WAITING],
    },
    Usage {
        verb: Verb::Get,
        name: "get",
        about: "Copy a file out of the volume",
        details: "Copy the bytes of the file PATH to a new file of the host, and print `ok` and\n\
            their number. Nothing that is there is written over. The copy stands as\n\
            FILE.lfs-get until it is whole. Without FILE the bytes are printed, as by `cat`.",
        parameters: &[THE_IMAGE, THE_PATH, TO_FILE, WAITING],
    },
    Usage {
        verb: Verb::Put,
        name: "put",
        about: "Make a file of standard input, or of a file of the host",
        details: "Make the bytes of FILE, or of standard input, those of the file PATH, and print\n\
            `ok` and their number. Without FILE standard input has to have a byte and to be\n\
            no terminal; ./- is a file with the name -. The new file stands as `.lfs-put` in\n\
            the same directory until it is whole and synced, and then takes the place of the\n\
            old one: after any stop the old file or the new one is there. What stood as\n\
            `.lfs-put` is removed. Of a symbolic link the link itself is replaced; a\n\
            directory is refused.\n\
            With -t each word behind IMAGE is a FILE, and gets its own name in DIR. With -r\n\
            they are a FOLDER of the host and a DIR, that gets all files, folders and links\n\
            of it. Both sync at the end and behind each 64 MiB, and print `ok` with the\n\
            number of files and that of their bytes.",
        parameters: &[THE_IMAGE, THE_PATH, OF_FILES, INTO, WHOLE_FOLDER],
    },
    Usage {
        verb: Verb::Append,
        name: "append",
        about: "Write behind the end of a file",
        details: "Write the bytes of FILE, or of standard input, behind the end of the file PATH,\n\
            which is made where nothing is there. Print `ok` and their number once that is\n\
            synced. Where it is refused the file is as it was.",
        parameters: &[THE_IMAGE, THE_PATH, BEHIND],
    },
];

/// Commands that change names, clean, or tell of the volume or copy it.
const TREE_USAGES: &[Usage] = &[
    Usage {
        verb: Verb::Rm,
        name: "rm",
        about: "Remove files, links or directories",
        details: "Remove the files, the symbolic links or the empty directories at these paths, in\n\
            order, and print `ok` once that is synced. A link that ends a path is removed\n\
            itself. With -r a directory is removed with all that is below it. Where one is\n\
            refused nothing behind it is removed, and what was removed before is synced.",
        parameters: &[THE_IMAGE, PATHS, WITH_ALL_BELOW],
    },
    Usage {
        verb: Verb::Mv,
        name: "mv",
        about: "Rename a file, a link or a directory",
        details: "Give what stands at FROM the path TO, and print `ok` once that is synced. What\n\
            stood at TO is replaced, but for a directory with entries.",
        parameters: &[THE_IMAGE, FROM_PATH, TO_PATH],
    },
    Usage {
        verb: Verb::Mkdir,
        name: "mkdir",
        about: "Make empty directories",
        details: "Make an empty directory at each path, in order, and print `ok` once that is\n\
            synced. With -p the directories above it are made too where they aren't there, and\n\
            one that is there is taken. Where one is refused nothing behind it is made, and\n\
            what was made before is synced.",
        parameters: &[THE_IMAGE, PATHS, WITH_PARENTS],
    },
    Usage {
        verb: Verb::Clean,
        name: "clean",
        about: "Clean segments until a quarter of them is clean",
        details: "Clean segments until a quarter of them is clean, and print `ok`. The tree stays\n\
            as it is, and so does the space that is free. With --passes a smaller part of the\n\
            segments may be clean at the end.",
        parameters: &[THE_IMAGE, THE_PASSES],
    },
    Usage {
        verb: Verb::Upgrade,
        name: "upgrade",
        about: "Give the volume the layout of format 2",
        details: "Give the volume the layout of format 2, and print `ok` once that is synced. Its\n\
            tree stays as it is. In directories that are made from then on names have up to\n\
            123 bytes; the line `widen` of a script lets an older one have them. A volume of\n\
            format 2 or 3 stays as it is. No command makes one of format 1 of it again.",
        parameters: &[THE_IMAGE],
    },
    Usage {
        verb: Verb::Df,
        name: "df",
        about: "Print how much of the volume is used and free",
        details: "Print the size of the volume, the bytes of its files, and the bytes of the\n\
            largest new file that the root has room for. With -h bytes are rounded up to\n\
            tenths of K, M and G, which stand for 1024 bytes, and so on.",
        parameters: &[
            THE_IMAGE,
            FOR_PEOPLE,
            BYTES_AS_JSON,
            WAITING,
            HELP_WITHOUT_LETTER,
        ],
    },
    Usage {
        verb: Verb::Info,
        name: "info",
        about: "Print what the volume is, and how full each segment is",
        details: "Print the number of the newest checkpoint, the segments and the space, and a\n\
            picture with a sign for each segment: a dot for one with no live block, else 1\n\
            to 9 for up to 7 to 63 of them. With --json the bytes of a unit and the live\n\
            blocks of each segment are numbers.",
        parameters: &[THE_IMAGE, AS_JSON, WAITING],
    },
    Usage {
        verb: Verb::Export,
        name: "export",
        about: "Copy the whole tree out of the volume, or a directory",
        details: "Copy the whole tree, or what is below PATH, into a new folder of the host,\n\
            symbolic links as links, and print `ok`, the number of files and that of their\n\
            bytes. A name that the host can't have, or that isn't UTF-8, is left out with all\n\
            that is below it: a line `omitted` names it, and the status is 1. The folder\n\
            stands as FOLDER.lfs-export until it is whole.",
        parameters: &[THE_IMAGE, TO_FOLDER, A_PATH, WAITING],
    },
    Usage {
        verb: Verb::Recover,
        name: "recover",
        about: "Copy what a damaged volume still holds",
        details: "Copy what a damaged volume still holds into a new folder of the host.\n\
            Nothing is written to the volume. A line `part` names a file that lacks blocks,\n\
            with a line for each behind it. What no name leads to goes to `lost+found`\n\
            under its number. The last line has how many files are whole, and how many are\n\
            there in part. With --scan the slots of the checkpoint aren't looked at: a line\n\
            `scan` has the commit that the log leads to.",
        parameters: &[THE_IMAGE, TO_FOLDER, WHICH_CHECKPOINT, BY_LOG],
    },
];

// An argument that isn't given beside any of these.
fn alone<'a>(argument: Arg<'a>, others: &'a [&'a str]) -> Result<Arg<'a>, AllocError> {
    let mut argument = argument;
    for other in others {
        argument = argument.conflicts_with(other)?;
    }
    Ok(argument)
}

fn argument<'a>(alloc: Global, parameter: Parameter<'a>) -> Result<Arg<'a>, AllocError> {
    let argument = Arg::new(alloc, parameter.name).help(parameter.help);
    match parameter.form {
        Form::Word => Ok(argument.required(true).action(ArgAction::Set)),
        Form::OptionalWord => Ok(argument.action(ArgAction::Set)),
        Form::Words => Ok(
            argument
                .required(true)
                .num_args(1..)
                .action(ArgAction::Append),
        ),
        Form::OptionalWords => Ok(argument.num_args(0..).action(ArgAction::Append)),
        Form::Value => Ok(
            argument
                .long(parameter.name)
                .value_name(parameter.value)
                .required(true)
                .action(ArgAction::Set),
        ),
        Form::OptionalValue => Ok(
            argument
                .long(parameter.name)
                .value_name(parameter.value)
                .action(ArgAction::Set),
        ),
        Form::EitherValue(other) => argument
            .long(parameter.name)
            .value_name(parameter.value)
            .action(ArgAction::Set)
            .required_unless_present(other)?
            .conflicts_with(other),
        Form::Choice(values) => Ok(
            argument
                .long(parameter.name)
                .value_name(parameter.value)
                .value_parser(ValueParser::Names(values))
                .required(true)
                .action(ArgAction::Set),
        ),
        Form::OptionalChoice(values) => Ok(
            argument
                .long(parameter.name)
                .value_name(parameter.value)
                .value_parser(ValueParser::Names(values))
                .action(ArgAction::Set),
        ),
        Form::Switch => Ok(argument.long(parameter.name).action(ArgAction::SetTrue)),
        Form::Letter(letter, other) => argument
            .short(letter)
            .long(parameter.name)
            .action(ArgAction::SetTrue)
            .conflicts_with(other),
        Form::Alone(others) => alone(
            argument.long(parameter.name).action(ArgAction::SetTrue),
            others,
        ),
        Form::Lettered(letter) => Ok(
            argument
                .short(letter)
                .long(parameter.name)
                .action(ArgAction::SetTrue),
        ),
        Form::LetteredValue(letter, other) => argument
            .short(letter)
            .long(parameter.name)
            .value_name(parameter.value)
            .action(ArgAction::Set)
            .conflicts_with(other),
        Form::Help => Ok(argument.long(parameter.name).action(ArgAction::Help)),
    }
}

// Whether a parameter stands in the place of the request for help that each command has.
fn is_help(parameter: &Parameter) -> bool {
    matches!(parameter.form, Form::Help)
}

fn subcommand<'a>(alloc: Global, usage: Usage<'a>) -> Result<Command<'a>, AllocError> {
    let mut command = Command::new(alloc, usage.name)
        .about(usage.about)
        .long_about(usage.details)
        .disable_help_flag(usage.parameters.iter().any(is_help));
    for parameter in usage.parameters {
        command = command.arg(argument(alloc, *parameter)?)?;
    }
    Ok(command)
}

// The program with these commands too.
fn with_usages<'a>(
    alloc: Global,
    mut program: Command<'a>,
    usages: &'a [Usage<'a>],
) -> Result<Command<'a>, AllocError> {
    for usage in usages {
        program = program.subcommand(subcommand(alloc, *usage)?)?;
    }
    Ok(program)
}

/// The program's command line. Values are taken as words, and read afterwards.
pub fn program<'a>(alloc: Global) -> Result<Command<'a>, AllocError> {
    let program = Command::new(alloc, "lfs")
        .version(VERSION)
        .about(ABOUT)
        .subcommand_required(true);
    let program = with_usages(alloc, program, VOLUME_USAGES)?;
    let program = with_usages(alloc, program, FILE_USAGES)?;
    with_usages(alloc, program, TREE_USAGES)
}

/// The command of a name.
pub fn verb_of(name: &str) -> Option<Verb> {
    match volume_verb(name) {
        Some(verb) => Some(verb),
        None => match file_verb(name) {
            Some(verb) => Some(verb),
            None => tree_verb(name),
        },
    }
}

// Each part of the table is looked through by a function of its own: as one constant it is too large
// for the prover.
fn volume_verb(name: &str) -> Option<Verb> {
    verb_in(VOLUME_USAGES, name)
}

fn file_verb(name: &str) -> Option<Verb> {
    verb_in(FILE_USAGES, name)
}

fn tree_verb(name: &str) -> Option<Verb> {
    verb_in(TREE_USAGES, name)
}

// The command of a name among these.
fn verb_in(usages: &[Usage], name: &str) -> Option<Verb> {
    for usage in usages {
        if usage.name == name {
            return Some(usage.verb);
        }
    }
    None
}
