//! Which of the standard streams are terminals.

/// Where a person may be asked, and may have to be told that a command waits.
#[derive(Clone, Copy)]
pub struct Terminals {
    /// Standard input is one.
    pub input: bool,
    /// Standard error is one.
    pub errors: bool,
    /// Standard output is one.
    pub output: bool,
    /// Standard output is a pipe, whose reader may end before all is written.
    pub pipe: bool,
}

impl Terminals {
    /// No stream is a terminal.
    pub const NONE: Terminals = Terminals {
        input: false,
        errors: false,
        output: false,
        pipe: false,
    };
}
