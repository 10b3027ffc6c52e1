//! Why a line of a script is bad, for people.
use lfs_lines::Command;
use lfs_model::limits::LONGEST_LINE;
use lfs_streams::WriteCount;
use lfs_words::{
    Stopped, WordFault, Words, put_escaped, put_number, read_escaped, read_hex, read_u8, read_u32,
    read_u64,
};
use memchr::memchr_iter;
use std::alloc::Global;
use std::io::Write;

/// How an argument is spelt.
#[derive(Clone, Copy)]
enum Spelling {
    /// A number below 2^8.
    Byte,
    /// A number below 2^32.
    Short,
    /// A number below 2^64.
    Long,
    /// Bytes as digits.
    Hex,
    /// Bytes as an escaped word.
    Escaped,
}

/// An argument of a command: the name that the language's page gives it, and how it is spelt.
#[derive(Clone, Copy)]
struct Argument(&'static str, Spelling);

const H: Argument = Argument("H", Spelling::Short);

const OFF: Argument = Argument("OFF", Spelling::Long);

const LEN: Argument = Argument("LEN", Spelling::Short);

const LONG_LEN: Argument = Argument("LEN", Spelling::Long);

const BYTE: Argument = Argument("BYTE", Spelling::Byte);

const HEX: Argument = Argument("HEX", Spelling::Hex);

const P: Argument = Argument("P", Spelling::Escaped);

const A: Argument = Argument("A", Spelling::Escaped);

const B: Argument = Argument("B", Spelling::Escaped);

const TEXT: Argument = Argument("TEXT", Spelling::Escaped);

// The arguments of a command, in their order.
fn arguments_of(command: Command) -> &'static [Argument] {
    match command {
        Command::Create | Command::Open | Command::Mkdir | Command::Rmdir => &[P],
        Command::Readlink | Command::Unlink | Command::Readdir => &[P],
        Command::Stat | Command::Lstat | Command::Widen => &[P],
        Command::Close | Command::Fsync => &[H],
        Command::Pread => &[H, OFF, LEN],
        Command::Pwrite => &[H, OFF, HEX],
        Command::Fill => &[H, OFF, LEN, BYTE],
        Command::Truncate => &[H, LONG_LEN],
        Command::Link | Command::Rename => &[A, B],
        Command::Symlink => &[TEXT, P],
        Command::Sync | Command::Clean | Command::Upgrade => &[],
        Command::Space | Command::Version | Command::Tree => &[],
    }
}

/// Why a line is bad.
#[derive(Clone, Copy)]
enum Reason<'a> {
    /// Memory to remember the line was refused, so nothing is known of it.
    Lost,
    TooLong,
    Empty,
    /// A space at an end, or two side by side.
    Spaces,
    /// No command has this word.
    Unknown(&'a [u8]),
    /// The command of this word takes another number of arguments.
    Count {
        word: &'a [u8],
        takes: usize,
        given: usize,
    },
    /// An argument of the command of this word is spelt wrong.
    Spelling {
        word: &'a [u8],
        argument: Argument,
    },
}

// Whether a word of bytes is spelt well, for which memory may have been refused.
fn is_read(bytes: Result<Vec<u8>, WordFault>) -> bool {
    !matches!(bytes, Err(WordFault::Spelling))
}

impl Argument {
    fn is_spelt(self, alloc: Global, word: &[u8]) -> bool {
        let Argument(_, spelling) = self;
        match spelling {
            Spelling::Byte => read_u8(word).is_some(),
            Spelling::Short => read_u32(word).is_some(),
            Spelling::Long => read_u64(word).is_some(),
            Spelling::Hex => is_read(read_hex(alloc, word)),
            Spelling::Escaped => is_read(read_escaped(alloc, word)),
        }
    }
}

// Why a line is bad that is a row of words.
fn reason_of_words<'a>(alloc: Global, line: &'a [u8]) -> Reason<'a> {
    let mut words = Words::of(line);
    let Ok(word) = words.next() else {
        return Reason::Empty;
    };
    let Some(command) = Command::of(word) else {
        return Reason::Unknown(word);
    };
    let arguments = arguments_of(command);
    let takes = arguments.len();
    let given = memchr_iter(b' ', line).count();
    for argument in arguments {
        let Ok(text) = words.next() else {
            return Reason::Count { word, takes, given };
        };
        if given == takes && !argument.is_spelt(alloc, text) {
            return Reason::Spelling {
                word,
                argument: *argument,
            };
        }
    }
    if given == takes {
        Reason::Lost
    } else {
        Reason::Count { word, takes, given }
    }
}

// Why a line is bad, which may not be known.
fn reason_of<'a>(alloc: Global, line: Option<&'a [u8]>) -> Reason<'a> {
    let Some(line) = line else {
        return Reason::Lost;
    };
    if line.is_empty() {
        return Reason::Empty;
    }
    if line.len() > LONGEST_LINE {
        return Reason::TooLong;
    }
    if line.split(|byte| *byte == b' ').any(|word| word.is_empty()) {
        return Reason::Spaces;
    }
    reason_of_words(alloc, line)
}

fn put<W: Write>(output: &mut W, bytes: &[u8]) -> Result<(), Stopped> {
    let Ok(()) = output.write_all(bytes) else {
        return Err(Stopped);
    };
    Ok(())
}

// Writes a number behind a text.
fn put_count<W: Write>(output: &mut W, text: &[u8], number: u64) -> Result<(), Stopped> {
    put(output, text)?;
    put_number(output, &mut WriteCount::new(), number)
}

/// The most bytes that are shown of a word.
const LONGEST_SHOWN: usize = 40;

// Writes the beginning of a word as a word of scripts, in quotes.
fn put_shown<W: Write>(output: &mut W, word: &[u8]) -> Result<(), Stopped> {
    put(output, b"'")?;
    let shown = &word[..word.len().min(LONGEST_SHOWN)];
    put_escaped(output, &mut WriteCount::new(), shown)?;
    if word.len() > LONGEST_SHOWN {
        put(output, b"..")?;
    }
    put(output, b"'")
}

// Writes how many arguments a command takes, and how many there are.
fn put_arguments<W: Write>(output: &mut W, takes: usize, given: usize) -> Result<(), Stopped> {
    let noun = if takes == 1 {
        b" argument, ".as_slice()
    } else {
        b" arguments, "
    };
    put_count(output, b" takes ", takes as u64)?;
    put_count(output, noun, given as u64)?;
    put(output, b" given")
}

// Writes how an argument is to be spelt.
fn put_spelling<W: Write>(output: &mut W, spelling: Spelling) -> Result<(), Stopped> {
    let most = match spelling {
        Spelling::Byte => u64::from(u8::MAX),
        Spelling::Short => u64::from(u32::MAX),
        Spelling::Long => u64::MAX,
        Spelling::Hex => {
            return put(
                output,
                b"two lower case digits for each byte, or - for none",
            );
        }
        Spelling::Escaped => {
            return put(
                output,
                b"an escaped word: a backslash and two lower case digits for a backslash and for a byte outside 0x21 to 0x7e",
            );
        }
    };
    put_count(
        output,
        b"decimal digits without leading zeros, at most ",
        most,
    )
}

// Writes why a line is bad.
fn put_reason<W: Write>(output: &mut W, reason: Reason<'_>) -> Result<(), Stopped> {
    match reason {
        Reason::Lost => put(output, b"it is bad"),
        Reason::TooLong => {
            put_count(output, b"it has more than ", LONGEST_LINE as u64)?;
            put(output, b" bytes")
        }
        Reason::Empty => put(output, b"it is empty"),
        Reason::Spaces => put(
            output,
            b"one space stands between two words, and nowhere else",
        ),
        Reason::Unknown(word) => {
            put(output, b"no command has the word ")?;
            put_shown(output, word)
        }
        Reason::Count { word, takes, given } => {
            put_shown(output, word)?;
            put_arguments(output, takes, given)
        }
        Reason::Spelling { word, argument } => {
            let Argument(name, spelling) = argument;
            put(output, name.as_bytes())?;
            put(output, b" of ")?;
            put_shown(output, word)?;
            put(output, b" has to be ")?;
            put_spelling(output, spelling)
        }
    }
}

/// Writes the line that tells people why a line of a script is bad. Its number is counted from 1.
/// Where the line itself isn't known, only the number is told.
pub fn put_bad_line<W: Write>(
    alloc: Global,
    output: &mut W,
    number: u64,
    line: Option<&[u8]>,
) -> Result<(), Stopped> {
    let reason = reason_of(alloc, line);
    put_count(output, b"lfs: line ", number)?;
    put(output, b": ")?;
    put_reason(output, reason)?;
    put(output, b"\n")
}
