//! What a command line asks for. Numbers and paths are words still.

/// A value of `--left`.
#[derive(Clone, Copy)]
pub enum LeftWord {
    Old,
    New,
    Bad,
}

/// What is asked of a volume that stays as it is. Its paths stand apart.
#[derive(Clone, Copy)]
pub enum Query<'a> {
    /// The segments and the space.
    Check {
        /// As an object of JSON.
        json: bool,
    },
    /// The tree, as a script's reply.
    Mount,
    /// The tree below a path, for people.
    Tree,
    /// The names in a directory, or a file's own.
    List {
        /// With more than the names.
        long: bool,
        /// As they are, a zero byte behind each.
        null: bool,
        /// An object of JSON for each.
        json: bool,
    },
    /// The bytes of files.
    Cat,
    /// What stands at paths.
    Stat {
        /// As objects of JSON.
        json: bool,
    },
    /// The bytes of a file, which go to a new file of the host with this name.
    Get(&'a str),
    /// All below a path, which goes to a new folder of the host with this name.
    Export(&'a str),
    /// The space and the segments, for people.
    Info {
        /// Rather as an object of JSON.
        json: bool,
    },
    /// How much is used and free, for people.
    Free {
        /// Bytes are rounded, with a letter behind them.
        human: bool,
        /// As an object of JSON.
        json: bool,
    },
}

/// A change of a volume. Its paths stand apart.
#[derive(Clone, Copy)]
pub enum Change<'a> {
    /// What stands at paths is removed.
    Remove {
        /// Directories with all that is below them.
        below: bool,
    },
    /// What stands at the first path gets the second.
    Rename,
    MakeDirectory {
        /// With those above, and where one is there it is taken.
        parents: bool,
    },
    /// Segments are cleaned, by so many passes at most where a number is given.
    Clean(Option<&'a str>),
    /// Version 1 of the layout becomes 2.
    Upgrade,
}

/// Where a put takes the bytes from, and where they go. Its path and its files stand apart.
#[derive(Clone, Copy)]
pub enum Source {
    /// A file of the host, or `-` for standard input. Without one it is standard input too, if that
    /// is no terminal and has a byte. The path gets the bytes.
    One,
    /// Files of the host, each of which gets its own name in the directory of the path.
    Each,
    /// All that is in a folder of the host, which goes into the directory of the path.
    Folder,
    /// A file of the host, or `-`, whose bytes go behind the end of the file of the path.
    Behind,
}

/// How much a new volume is to hold.
#[derive(Clone, Copy)]
pub enum ExtentWord<'a> {
    /// So many segments.
    Segments(&'a str),
    /// So many bytes of segments, or the most.
    Size(&'a str),
}

/// What a new volume is to have.
#[derive(Clone, Copy)]
pub struct ShapeWords<'a> {
    pub extent: ExtentWord<'a>,
    /// Of its layout, where one is given.
    pub version: Option<u32>,
    /// The bytes of a unit, where they are given.
    pub unit: Option<&'a str>,
}

/// What is done with an image.
#[derive(Clone, Copy)]
pub enum Action<'a> {
    Mkfs {
        shape: ShapeWords<'a>,
        force: bool,
        reserve: bool,
    },
    Query {
        query: Query<'a>,
        /// Until no other program writes the image.
        wait: bool,
    },
    /// The volume is checked, and where it is damaged is told in words.
    Explain {
        wait: bool,
    },
    Recover {
        /// The folder of the host that is made.
        folder: &'a str,
        /// It begins with the checkpoint before the newest.
        older: bool,
        /// It goes by the log, whatever the slots of the checkpoint hold.
        scan: bool,
    },
    Change(Change<'a>),
    Put(Source),
}

/// The words of a command line that name something.
#[derive(Drop)]
pub struct Names<'a> {
    /// Paths in the volume, as words of scripts or as their own bytes.
    pub paths: Vec<&'a str>,
    /// Files of the host.
    pub files: Vec<&'a str>,
}

/// What a command line asks for.
#[derive(Drop)]
pub enum Request<'a> {
    /// A text that is to be printed.
    Help(String),
    Image {
        image: &'a str,
        action: Action<'a>,
        names: Names<'a>,
    },
    /// A script is run on an image.
    Run {
        image: &'a str,
    },
    /// A script is run on an image, to the first call that is refused.
    Strict {
        image: &'a str,
    },
    /// The tree of a volume is copied into another one.
    Copy {
        /// The image of the first.
        old: &'a str,
        /// That of the second.
        new: &'a str,
        /// Until no other program writes the first.
        wait: bool,
    },
    Sim {
        /// The unit is the device's too.
        shape: ShapeWords<'a>,
        stop: &'a str,
        left: LeftWord,
    },
}
