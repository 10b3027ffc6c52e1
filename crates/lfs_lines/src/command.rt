// The first word of a line.
ghost use Rattle.std.specs.Prelude.{◌≡◌, ◌≢◌, None, IfSome, map};
ghost use Rattle.lfs_lines.specs.Command.{command_in};
ghost use Rattle.lfs_lines.specs.declared.command.Command.{Command};

/// What a line asks for, without its arguments.
#[derive(Clone, Copy, PartialEq, Eq)]
pub enum Command {
    Create,
    Open,
    Close,
    Pread,
    Pwrite,
    Fill,
    Truncate,
    Mkdir,
    Link,
    Symlink,
    Readlink,
    Unlink,
    Rmdir,
    Rename,
    Stat,
    Lstat,
    Readdir,
    Fsync,
    Sync,
    Clean,
    Space,
    Version,
    Upgrade,
    Widen,
    Tree,
}

/// The word of each command.
const WORDS: [(Command, &[u8]); 25] = [
    (Command::Create, b"create"),
    (Command::Open, b"open"),
    (Command::Close, b"close"),
    (Command::Pread, b"pread"),
    (Command::Pwrite, b"pwrite"),
    (Command::Fill, b"fill"),
    (Command::Truncate, b"truncate"),
    (Command::Mkdir, b"mkdir"),
    (Command::Link, b"link"),
    (Command::Symlink, b"symlink"),
    (Command::Readlink, b"readlink"),
    (Command::Unlink, b"unlink"),
    (Command::Rmdir, b"rmdir"),
    (Command::Rename, b"rename"),
    (Command::Stat, b"stat"),
    (Command::Lstat, b"lstat"),
    (Command::Readdir, b"readdir"),
    (Command::Fsync, b"fsync"),
    (Command::Sync, b"sync"),
    (Command::Clean, b"clean"),
    (Command::Space, b"space"),
    (Command::Version, b"version"),
    (Command::Upgrade, b"upgrade"),
    (Command::Widen, b"widen"),
    (Command::Tree, b"tree"),
];

// The command of the first row that has this word.
fn look_up(mut rows: &[(Command, &[u8])], word: &[u8]) -> Option<Command>
    ensures { result ≡ command_in (map (λ row. (row.0, row.1.now)) rows.entry.now) word.now }
{
    while let [row, rest @ ..] = rows {
        if row.1 == word {
            return Some(row.0);
        }
        rows = rest;
    }
    None
}

impl Command {
    ghost use Rattle.lfs_lines.specs.Command.{command_word};

    /// The command that has this word.
    pub fn of(word: &[u8]) -> Option<Command>
        ensures found { IfSome result (λ c. command_word c ≡ word.now) }
        ensures none { result ≡ None → (c : Command) → command_word c ≢ word.now }
    {
        look_up(&WORDS, word)
    }
}
