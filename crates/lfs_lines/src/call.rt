// The call that a line is.
ghost use Rattle.std.specs.Prelude.{◌≡◌, ◌≢◌, ◌<◌, ◌^◌, ℕ, List, [], ◌∷◌, Err, IfOk, OnErr, IsErrOf, IsTrue, decimal, option_copied};
ghost use Rattle.lfs_model.specs.Bytes.{AreBytes};
ghost use Rattle.lfs_model.specs.Run.{has_word};
ghost use Rattle.lfs_model.specs.Script.{Line, InRange, hex, text_of, word};
ghost use Rattle.lfs_words.specs.Cuts.{words_left};
ghost use Rattle.lfs_words.specs.Reading.{IsNumber};
ghost use Rattle.lfs_lines.specs.Lines.{IsUnknown, words_of};
ghost use Rattle.lfs_lines.specs.Calls.{IsBoth, line_for};
ghost use Rattle.lfs_lines.specs.Command.{command_word};

use crate::command::Command;
use lfs_words::{WordFault, Words, read_escaped, read_hex, read_u8, read_u32, read_u64};
use std::alloc::Global;

/// A call with its arguments.
#[derive(Drop)]
pub enum Call {
    Create(Vec<u8>),
    Open(Vec<u8>),
    Close(u32),
    Pread {
        handle: u32,
        offset: u64,
        len: u32,
    },
    Pwrite {
        handle: u32,
        offset: u64,
        bytes: Vec<u8>,
    },
    /// Puts `len` bytes of this value, as `Pwrite` does.
    Fill {
        handle: u32,
        offset: u64,
        len: u32,
        byte: u8,
    },
    Truncate {
        handle: u32,
        len: u64,
    },
    Mkdir(Vec<u8>),
    Link {
        from: Vec<u8>,
        to: Vec<u8>,
    },
    Symlink {
        text: Vec<u8>,
        path: Vec<u8>,
    },
    Readlink(Vec<u8>),
    Unlink(Vec<u8>),
    Rmdir(Vec<u8>),
    Rename {
        from: Vec<u8>,
        to: Vec<u8>,
    },
    Stat(Vec<u8>),
    Lstat(Vec<u8>),
    Readdir(Vec<u8>),
    Fsync(u32),
    Sync,
    Clean,
    Space,
    Version,
    Upgrade,
    Widen(Vec<u8>),
    Tree,
}

fn as_u8(word: &[u8]) -> Result<u8, WordFault>
    ensures { IsNumber (2 ^ 8) word.now result }
{
    read_u8(word).ok_or(WordFault::Spelling)
}

fn as_u32(word: &[u8]) -> Result<u32, WordFault>
    ensures { IsNumber (2 ^ 32) word.now result }
{
    read_u32(word).ok_or(WordFault::Spelling)
}

fn as_u64(word: &[u8]) -> Result<u64, WordFault>
    ensures { IsNumber (2 ^ 64) word.now result }
{
    read_u64(word).ok_or(WordFault::Spelling)
}

// The one path that is left.
fn path(alloc: Global, words: Words<'_>) -> Result<Vec<u8>, WordFault>
    ensures ok { IfOk result (λ path. word path.items ∷ []
        ≡ words_left (option_copied words.entry.rest)) }
    ensures bytes { IfOk result (λ path. AreBytes path.items) }
    ensures spelling { result ≡ Err WordFault.Spelling → (path : List ℕ) → AreBytes path
        → word path ∷ [] ≢ words_left (option_copied words.entry.rest) }
    ensures memory { result ≡ Err WordFault.Memory
        → (path : List ℕ) × AreBytes path
        × (word path ∷ [] ≡ words_left (option_copied words.entry.rest)) }
{
    read_escaped(alloc, words.one()?)
}

// The one handle that is left.
fn handle(words: Words<'_>) -> Result<u32, WordFault>
    ensures ok { IfOk result (λ handle. decimal handle ∷ []
        ≡ words_left (option_copied words.entry.rest)) }
    ensures err { OnErr result ((h : ℕ) → h < 2 ^ 32
        → decimal h ∷ [] ≢ words_left (option_copied words.entry.rest)) }
    ensures fault { OnErr result (IsErrOf result WordFault.Spelling) }
{
    as_u32(words.one()?)
}

fn pread(words: Words<'_>) -> Result<(u32, u64, u32), WordFault>
    ensures ok { IfOk result (λ r. decimal r.0 ∷ decimal r.1 ∷ decimal r.2 ∷ []
        ≡ words_left (option_copied words.entry.rest)) }
    ensures err { OnErr result ((h o n : ℕ) → h < 2 ^ 32 → o < 2 ^ 64 → n < 2 ^ 32
        → decimal h ∷ decimal o ∷ decimal n ∷ [] ≢ words_left (option_copied words.entry.rest)) }
    ensures fault { OnErr result (IsErrOf result WordFault.Spelling) }
{
    let (handle, offset, len) = words.three()?;
    let handle = as_u32(handle)?;
    let offset = as_u64(offset)?;
    let len = as_u32(len)?;
    Ok((handle, offset, len))
}

fn pwrite(alloc: Global, words: Words<'_>) -> Result<(u32, u64, Vec<u8>), WordFault>
    ensures ok { IfOk result (λ r. decimal r.0 ∷ decimal r.1 ∷ hex r.2.items ∷ []
        ≡ words_left (option_copied words.entry.rest)) }
    ensures bytes { IfOk result (λ r. AreBytes r.2.items) }
    ensures spelling { result ≡ Err WordFault.Spelling → (h o : ℕ) (bytes : List ℕ) → h < 2 ^ 32
        → o < 2 ^ 64 → AreBytes bytes → decimal h ∷ decimal o ∷ hex bytes ∷ [] ≢ words_left
        (option_copied words.entry.rest) }
    ensures memory { result ≡ Err WordFault.Memory
        → (h : ℕ) × (o : ℕ) × (bytes : List ℕ) × (h < 2 ^ 32) × (o < 2 ^ 64) × AreBytes bytes
        × (decimal h ∷ decimal o ∷ hex bytes ∷ [] ≡ words_left (option_copied words.entry.rest)) }
{
    let (handle, offset, bytes) = words.three()?;
    let handle = as_u32(handle)?;
    let offset = as_u64(offset)?;
    let bytes = read_hex(alloc, bytes)?;
    Ok((handle, offset, bytes))
}

fn fill(words: Words<'_>) -> Result<(u32, u64, u32, u8), WordFault>
    ensures ok { IfOk result (λ r. decimal r.0 ∷ decimal r.1 ∷ decimal r.2 ∷ decimal r.3 ∷ []
        ≡ words_left (option_copied words.entry.rest)) }
    ensures err { OnErr result ((h o n b : ℕ) → h < 2 ^ 32 → o < 2 ^ 64 → n < 2 ^ 32 → b < 256
        → decimal h ∷ decimal o ∷ decimal n ∷ decimal b ∷ [] ≢ words_left
        (option_copied words.entry.rest)) }
    ensures fault { OnErr result (IsErrOf result WordFault.Spelling) }
{
    let (handle, offset, len, byte) = words.four()?;
    let handle = as_u32(handle)?;
    let offset = as_u64(offset)?;
    let len = as_u32(len)?;
    let byte = as_u8(byte)?;
    Ok((handle, offset, len, byte))
}

fn truncate(words: Words<'_>) -> Result<(u32, u64), WordFault>
    ensures ok { IfOk result (λ r. decimal r.0 ∷ decimal r.1 ∷ []
        ≡ words_left (option_copied words.entry.rest)) }
    ensures err { OnErr result ((h n : ℕ) → h < 2 ^ 32 → n < 2 ^ 64
        → decimal h ∷ decimal n ∷ [] ≢ words_left (option_copied words.entry.rest)) }
    ensures fault { OnErr result (IsErrOf result WordFault.Spelling) }
{
    let (handle, len) = words.two()?;
    let handle = as_u32(handle)?;
    let len = as_u64(len)?;
    Ok((handle, len))
}

// Two words that are read: the second was looked at too where the first found no memory, so a wrong
// spelling comes first.
fn both(
    first: Result<Vec<u8>, WordFault>,
    second: Result<Vec<u8>, WordFault>,
) -> Result<(Vec<u8>, Vec<u8>), WordFault>
    ensures { IsBoth first second result }
{
    match first {
        Ok(first) => match second {
            Ok(second) => Ok((first, second)),
            Err(fault) => Err(fault),
        },
        Err(WordFault::Spelling) => Err(WordFault::Spelling),
        Err(WordFault::Memory) => match second {
            Err(WordFault::Spelling) => Err(WordFault::Spelling),
            Err(WordFault::Memory) => Err(WordFault::Memory),
            Ok(_) => Err(WordFault::Memory),
        },
    }
}

// The two escaped words that are left: two paths, or the text of a link and its path.
fn two_words(alloc: Global, words: Words<'_>) -> Result<(Vec<u8>, Vec<u8>), WordFault>
    ensures ok { IfOk result (λ r. word r.0.items ∷ word r.1.items ∷ []
        ≡ words_left (option_copied words.entry.rest)) }
    ensures bytes { IfOk result (λ r. AreBytes r.0.items × AreBytes r.1.items) }
    ensures spelling { result ≡ Err WordFault.Spelling → (first second : List ℕ) → AreBytes first
        → AreBytes second → word first ∷ word second ∷ [] ≢ words_left
        (option_copied words.entry.rest) }
    ensures memory { result ≡ Err WordFault.Memory
        → (first : List ℕ) × (second : List ℕ) × AreBytes first × AreBytes second
        × (word first ∷ word second ∷ [] ≡ words_left (option_copied words.entry.rest)) }
{
    let (first, second) = words.two()?;
    both(read_escaped(alloc, first), read_escaped(alloc, second))
}

// The call of a command whose arguments are left.
fn call_of(alloc: Global, command: Command, words: Words<'_>) -> Result<Call, WordFault>
    ensures ok { IfOk result (λ call. words_of (line_for call)
        ≡ command_word command ∷ words_left (option_copied words.entry.rest)) }
    ensures in_range { IfOk result (λ call. InRange (line_for call)) }
    ensures spelling { result ≡ Err WordFault.Spelling → (line : Line) → InRange line
        → words_of line ≢ command_word command ∷ words_left (option_copied words.entry.rest) }
    ensures memory { result ≡ Err WordFault.Memory → (line : Line) × InRange line
        × IsTrue (has_word line) × (words_of line
        ≡ command_word command ∷ words_left (option_copied words.entry.rest)) }
{
    match command {
        Command::Create => Ok(Call::Create(path(alloc, words)?)),
        Command::Open => Ok(Call::Open(path(alloc, words)?)),
        Command::Close => Ok(Call::Close(handle(words)?)),
        Command::Pread => {
            let (handle, offset, len) = pread(words)?;
            Ok(Call::Pread {
                handle,
                offset,
                len,
            })
        }
        Command::Pwrite => {
            let (handle, offset, bytes) = pwrite(alloc, words)?;
            Ok(Call::Pwrite {
                handle,
                offset,
                bytes,
            })
        }
        Command::Fill => {
            let (handle, offset, len, byte) = fill(words)?;
            Ok(Call::Fill {
                handle,
                offset,
                len,
                byte,
            })
        }
        Command::Truncate => {
            let (handle, len) = truncate(words)?;
            Ok(Call::Truncate { handle, len })
        }
        Command::Mkdir => Ok(Call::Mkdir(path(alloc, words)?)),
        Command::Link => {
            let (from, to) = two_words(alloc, words)?;
            Ok(Call::Link { from, to })
        }
        Command::Symlink => {
            let (text, path) = two_words(alloc, words)?;
            Ok(Call::Symlink { text, path })
        }
        Command::Readlink => Ok(Call::Readlink(path(alloc, words)?)),
        Command::Unlink => Ok(Call::Unlink(path(alloc, words)?)),
        Command::Rmdir => Ok(Call::Rmdir(path(alloc, words)?)),
        Command::Rename => {
            let (from, to) = two_words(alloc, words)?;
            Ok(Call::Rename { from, to })
        }
        Command::Stat => Ok(Call::Stat(path(alloc, words)?)),
        Command::Lstat => Ok(Call::Lstat(path(alloc, words)?)),
        Command::Readdir => Ok(Call::Readdir(path(alloc, words)?)),
        Command::Fsync => Ok(Call::Fsync(handle(words)?)),
        Command::Sync => words.none().map(|()| Call::Sync),
        Command::Clean => words.none().map(|()| Call::Clean),
        Command::Space => words.none().map(|()| Call::Space),
        Command::Version => words.none().map(|()| Call::Version),
        Command::Upgrade => words.none().map(|()| Call::Upgrade),
        Command::Widen => Ok(Call::Widen(path(alloc, words)?)),
        Command::Tree => words.none().map(|()| Call::Tree),
    }
}

/// Reads a line without its newline. A word takes memory only where the whole line is spelt well.
pub fn parse(alloc: Global, line: &[u8]) -> Result<Call, WordFault>
    ensures ok { IfOk result (λ call. text_of (line_for call) ≡ line.now) }
    ensures in_range { IfOk result (λ call. InRange (line_for call)) }
    ensures spelling { result ≡ Err WordFault.Spelling → IsUnknown line.now }
    ensures memory { result ≡ Err WordFault.Memory → (asked : Line) × InRange asked
        × IsTrue (has_word asked) × (text_of asked ≡ line.now) }
{
    let mut words = Words::of(line);
    let Some(command) = Command::of(words.next()?) else {
        return Err(WordFault::Spelling);
    };
    call_of(alloc, command, words)
}
